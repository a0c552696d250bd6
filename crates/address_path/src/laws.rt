//! Laws of the way. The functions here do nothing; their contracts are theorems.

ghost use Rattle.std.specs.Prelude.{◌≡◌, ℕ, ◌+◌, ◌*◌, ◌%◌, ◌^◌, Bool, List};
ghost use Rattle.address_path.specs.declared.index.Index.{Index};
ghost use Rattle.address_path.specs.Laws.{CountsElements, bytes_of};
ghost use Rattle.address_path.specs.Path.{Path, begun_by, chosen, counted, index_cause, into, moved, refused, with_cause};
ghost use Rattle.ir_layout.specs.declared.extent.Overflow.TheVariants.{Wrapping};
ghost use Rattle.ir_read.specs.Shape.{Array, Fields, Int, Named, Ptr, Shape, Spells, Struct};
ghost use Rattle.ir_types.specs.declared.instruction.Operand.{Operand};
ghost use Rattle.struct_table.specs.Members.{members_of};
ghost use Rattle.struct_table.specs.StructTable.{Structs, extent, members_named};

use ir_layout::laws::walk_gives_layout;
use ir_read::type_laws::{parts_are_spelled, types_are_found};

/// A step goes by the type to which the way has come, whatever nodes spell it: the first one counts whole types, and a
/// further one elements of an array, or it leads to a field of a struct; into an integer or a pointer none leads.
pub fn steps_go_by_types()
    ensures whole { (structs : Structs) (index : Index) (at : Path) (shape : Shape) → Spells shape at.place →
        begun_by structs index at ≡ with_cause (index_cause index) (counted (bytes_of structs shape) index.value at) }
    ensures array { (structs : Structs) (index : Operand) (at : Path) (count : ℕ) (shape : Shape) →
        Spells (Array count shape) at.place → CountsElements structs shape index at }
    ensures named { (structs : Structs) (index : Operand) (at : Path) (name : List ℕ) →
        Spells (Named name) at.place → into structs index at ≡ chosen (members_named structs name) index at }
    ensures fields { (structs : Structs) (index : Operand) (at : Path) (packed : Bool) (fields : Fields) →
        Spells (Struct packed fields) at.place →
        into structs index at ≡ chosen (members_of (extent structs Wrapping) at.place) index at }
    ensures integer { (structs : Structs) (index : Operand) (at : Path) (bits : ℕ) →
        Spells (Int bits) at.place → into structs index at ≡ refused at }
    ensures pointer { (structs : Structs) (index : Operand) (at : Path) →
        Spells Ptr at.place → into structs index at ≡ refused at }
{
    types_are_found();
    parts_are_spelled();
    walk_gives_layout();
}

/// Each number is the whole sum, taken modulo 2^64.
pub fn sums_are_whole()
    ensures { (fixed number unit : ℕ) → moved fixed number unit ≡ (fixed + number * unit) % 2 ^ 64 }
{}
