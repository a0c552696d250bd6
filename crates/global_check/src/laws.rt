//! Laws of globals. The functions here do nothing; their contracts are theorems.

ghost use Rattle.std.specs.Prelude.{◌≡◌, ◌<◌, ◌^◌, ℕ, All, List, None, length};
ghost use Rattle.global_check.specs.Filling.{filling_of};
ghost use Rattle.global_check.specs.Globals.{globals_of};
ghost use Rattle.global_check.specs.Laws.{AreApart, AreThosePlaced, HasItsSize};
ghost use Rattle.global_check.specs.Placed.{placed};
ghost use Rattle.instruction_check.specs.Scope.{Scope};
ghost use Rattle.ir_items.specs.Segment.{Segment};
ghost use Rattle.ir_read.specs.Node.{Told};
ghost use Rattle.struct_table.specs.StructTable.{Structs};

/// Globals that don't take too much lie apart from each other, at least 16 bytes between them. A text of 4 MiB has far
/// fewer items.
pub fn globals_lie_apart()
    ensures { (structs : Structs) (items : List Segment) → length items < 2 ^ 32 →
        (placed structs items).first ≡ None → AreApart (placed structs items) }
{}

/// The globals of a module have the addresses and sizes that they were placed with, and where nothing is wrong with them
/// they don't take too much.
pub fn globals_lie_where_placed()
    ensures { (scope : Scope) (items : List Segment) →
        AreThosePlaced (placed scope.structs items) (globals_of scope (placed scope.structs items) items) }
{}

/// Whatever a global begins with, its image keeps the size that it was begun with.
pub fn images_keep_their_sizes()
    ensures { (scope : Scope) (size : ℕ) (nodes initial : List Told) →
        length (filling_of scope size nodes initial).image ≡ size }
{}

/// The image of each global has as many bytes as the global, where they don't take too much.
pub fn images_have_their_sizes()
    ensures { (scope : Scope) (items : List Segment) → (placed scope.structs items).first ≡ None →
        All HasItsSize (globals_of scope (placed scope.structs items) items).globals }
{}
