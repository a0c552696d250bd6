//! Laws of names: each stands on a function with an empty body, whose clauses are the law.

ghost use Rattle.std.specs.Prelude.{◌≡◌, ℕ, ◌≤◌, false, List, Some, bytes_eq, length, position};
ghost use Rattle.std.specs.List.{list_any};
ghost use Rattle.ir_names.specs.LocalName.{local_eq};
ghost use Rattle.ir_names.specs.LocalTable.{count_of, defined, has};
ghost use Rattle.ir_names.specs.NameTable.{given};
ghost use Rattle.ir_names.specs.declared.local_name.LocalName.{LocalName as Name};
ghost use Rattle.ir_names.specs.declared.local_name.LocalName.TheVariants.{Number};

/// A new name of an item has the next place, and no name loses its place.
pub fn items_keep_places()
    ensures new { (names : List (List ℕ)) (name : List ℕ) → list_any (bytes_eq name) names ≡ false →
        position (bytes_eq name) (given names name) ≡ Some (length names) }
    ensures kept { (names : List (List ℕ)) (name other : List ℕ) (place : ℕ) →
        position (bytes_eq other) names ≡ Some place →
        position (bytes_eq other) (given names name) ≡ Some place }
{}

/// A new name of a body has the next place, and no name loses its place.
pub fn locals_keep_places()
    ensures new { (names : List Name) (name : Name) → has names name ≡ false →
        position (local_eq name) (defined names name) ≡ Some (length names) }
    ensures kept { (names : List Name) (name other : Name) (place : ℕ) →
        position (local_eq other) names ≡ Some place →
        position (local_eq other) (defined names name) ≡ Some place }
{}

/// No name is a number from the count on, so what a definition without a name is given is new.
pub fn count_is_free()
    ensures { (names : List Name) (number : ℕ) → count_of names ≤ number →
        has names (Number number) ≡ false }
{}
