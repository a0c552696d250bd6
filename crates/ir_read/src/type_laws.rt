//! Laws of the types that nodes spell. The functions here do nothing; their contracts are theorems.

ghost use Rattle.std.specs.Prelude.{◌≡◌, ℕ, true, false, List, ◌∷◌, ◌++◌, map};
ghost use Rattle.ir_read.specs.declared.grammar.Rule.{Rule};
ghost use Rattle.ir_read.specs.declared.grammar.Rule.TheVariants as r;
ghost use Rattle.ir_read.specs.Laws.{Parses};
ghost use Rattle.ir_read.specs.Node.{Lexeme, Told};
ghost use Rattle.ir_read.specs.Shape.{Shape, Array, Named, Struct, Fields, Spells, AreSpelled, BeginsWithType, behind_type, element_of, fields_of, form_of, form_of_shape, meaning, packed_fields_of, shape_of, shapes_of, struct_name, type_in};

/// What the grammar takes as a type spells one, and what else was wanted is behind it.
pub fn types_are_spelled()
    ensures memory { (wants : List Rule) (tokens : List Lexeme) (nodes : List Told) → Parses (r.Type ∷ wants) tokens nodes → BeginsWithType wants tokens nodes }
    ensures aggregate { (wants : List Rule) (tokens : List Lexeme) (nodes : List Told) → Parses (r.Aggregate ∷ wants) tokens nodes → BeginsWithType wants tokens nodes }
    ensures register { (wants : List Rule) (tokens : List Lexeme) (nodes : List Told) → Parses (r.ValueType ∷ wants) tokens nodes → BeginsWithType wants tokens nodes }
    ensures parameter { (wants : List Rule) (tokens : List Lexeme) (nodes : List Told) → Parses (r.ParameterType ∷ wants) tokens nodes → BeginsWithType wants tokens nodes }
    ensures result { (wants : List Rule) (tokens : List Lexeme) (nodes : List Told) → Parses (r.ResultType ∷ wants) tokens nodes → BeginsWithType wants tokens nodes }
{}

/// The type that nodes spell is the one that is found in front of them, whatever is behind, and it ends where they do.
/// So they spell no other, and nodes of the same classes and texts spell the same.
pub fn types_are_found()
    ensures shape { (shape : Shape) (front rest : List Told) → Spells shape front → shape_of (front ++ rest) ≡ shape }
    ensures fields { (fields : Fields) (nodes : List Told) → AreSpelled fields nodes → shapes_of nodes ≡ fields }
    ensures front { (shape : Shape) (front rest : List Told) → Spells shape front → type_in (front ++ rest) ≡ front }
    ensures rest { (shape : Shape) (front rest : List Told) → Spells shape front → behind_type (front ++ rest) ≡ rest }
    ensures one { (shape other : Shape) (nodes : List Told) → Spells shape nodes → Spells other nodes → shape ≡ other }
    ensures same { (nodes others : List Told) → map meaning nodes ≡ map meaning others → shape_of nodes ≡ shape_of others }
{}

/// A type's first nodes show its form, and its parts are spelled by the nodes within it.
pub fn parts_are_spelled()
    ensures form { (shape : Shape) (nodes : List Told) → Spells shape nodes → form_of nodes ≡ form_of_shape shape }
    ensures name { (name : List ℕ) (nodes : List Told) → Spells (Named name) nodes → struct_name nodes ≡ name }
    ensures element { (count : ℕ) (shape : Shape) (nodes : List Told) → Spells (Array count shape) nodes → Spells shape (element_of nodes) }
    ensures fields { (fields : Fields) (nodes : List Told) → Spells (Struct false fields) nodes → AreSpelled fields (fields_of nodes) }
    ensures packed { (fields : Fields) (nodes : List Told) → Spells (Struct true fields) nodes → AreSpelled fields (packed_fields_of nodes) }
{}
