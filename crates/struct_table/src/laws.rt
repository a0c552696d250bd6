//! Laws of structs. The functions here do nothing; their contracts are theorems.

ghost use Rattle.std.specs.Prelude.{◌≡◌, ◌<◌, ℕ, List, [], None, false, get_or, is_some, length, true};
ghost use Rattle.ir_items.specs.Segment.{Segment};
ghost use Rattle.ir_layout.specs.Extent.{kept};
ghost use Rattle.ir_layout.specs.Walk.{extent_by};
ghost use Rattle.ir_layout.specs.declared.extent.Extent.{Extent};
ghost use Rattle.ir_layout.specs.declared.extent.Overflow.{Overflow};
ghost use Rattle.ir_read.specs.Node.{Told};
ghost use Rattle.struct_table.specs.Graph.{holds_itself, holds_of};
ghost use Rattle.struct_table.specs.Laws.{IsSettled, are_named};
ghost use Rattle.struct_table.specs.Rounds.{settled};
ghost use Rattle.struct_table.specs.StructTable.{extent, structs_of, type_named};

/// What a struct takes, where it takes anything, is what its type takes by the same table.
pub fn structs_take_what_their_types_take()
    ensures { (items : List Segment) (overflow : Overflow) (name : List ℕ) (number : ℕ) (found : Extent) →
        IsSettled (structs_of items) overflow name number found →
        extent (structs_of items) overflow name
        ≡ extent_by (kept overflow) (extent (structs_of items) overflow) (type_named (structs_of items) name) }
{}

/// A struct that holds itself takes nothing.
pub fn circles_take_nothing()
    ensures { (keep : ℕ → ℕ) (names : List (List ℕ)) (types : List (List Told)) (number : ℕ) →
        holds_itself (holds_of names types) number ≡ true → get_or (settled keep names types) number None ≡ None }
{}

/// Where each struct is there that a type names, and none holds itself, each takes something.
pub fn whole_structs_take_something()
    ensures { (keep : ℕ → ℕ) (names : List (List ℕ)) (types : List (List Told)) → length names ≡ length types →
        ((by : ℕ) → are_named names (get_or types by []) ≡ true) →
        ((by : ℕ) → holds_itself (holds_of names types) by ≡ false) →
        (number : ℕ) → number < length types → is_some (get_or (settled keep names types) number None) ≡ true }
{}

/// A table has a type for each name.
pub fn names_have_types()
    ensures { (items : List Segment) → length (structs_of items).names ≡ length (structs_of items).types }
{}
