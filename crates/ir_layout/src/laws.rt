//! Laws of layouts. The functions here do nothing; their contracts are theorems.

ghost use Rattle.std.specs.Prelude.{◌≡◌, ℕ, Bool, List};
ghost use Rattle.ir_layout.specs.declared.extent.Extent.{Extent};
ghost use Rattle.ir_layout.specs.declared.extent.Overflow.{Overflow};
ghost use Rattle.ir_layout.specs.Extent.{empty, kept, kept_extent, kept_extents};
ghost use Rattle.ir_layout.specs.Laws.{AreExtents, IsExtent, LieBehind, places};
ghost use Rattle.ir_layout.specs.Layout.{layout, layout_by};
ghost use Rattle.ir_layout.specs.Walk.{extent_by};
ghost use Rattle.ir_read.specs.Node.{Told};
ghost use Rattle.ir_read.specs.Shape.{Fields, Shape, Spells, Struct};

/// The way through the nodes that spell a type gives the layout of the type, whatever is kept of sizes.
pub fn walk_gives_layout()
    ensures { (keep : ℕ → ℕ) (named : List ℕ → Extent) (shape : Shape) (nodes : List Told) → Spells shape nodes →
        extent_by keep named nodes ≡ layout_by keep named shape }
{}

/// A layout that is reckoned with what 64 bits hold of each size has what 64 bits hold of the whole size.
pub fn kept_sizes_are_enough()
    ensures { (overflow : Overflow) (named : List ℕ → Extent) (shape : Shape) → AreExtents named →
        layout_by (kept overflow) (kept_extents overflow named) shape ≡ kept_extent overflow (layout named shape) }
{}

/// The size of a type is a multiple of its alignment, where it is so of named structs.
pub fn sizes_are_multiples()
    ensures { (named : List ℕ → Extent) (shape : Shape) → AreExtents named → IsExtent (layout named shape) }
{}

/// The fields of a struct lie one behind another, each at the next place of its alignment, and within the struct.
pub fn fields_lie_in_order()
    ensures { (named : List ℕ → Extent) (packed : Bool) (fields : Fields) → AreExtents named →
        LieBehind packed (layout named (Struct packed fields)).align 0 (places named packed empty fields) (layout named (Struct packed fields)).size }
{}
