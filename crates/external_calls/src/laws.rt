//! Laws of the table of calls and of formats. The functions here do nothing; their contracts are theorems.

ghost use Rattle.std.specs.Prelude.{◌≡◌, ℕ, List, ◌∷◌, ◌++◌, Some, is_some, true};
ghost use Rattle.std.specs.List.{list_all};
ghost use Rattle.ir_types.specs.declared.external.Piece.{Piece};
ghost use Rattle.ir_types.specs.declared.word.Kind.TheVariants as kinds;
ghost use Rattle.ir_types.specs.declared.word.Width.{Width};
ghost use Rattle.external_calls.specs.declared.call.ExternalCall.{ExternalCall};
ghost use Rattle.external_calls.specs.Format.{pieces_of};
ghost use Rattle.external_calls.specs.Laws.{BeginsWith, Spells, are_joined, is_value};
ghost use Rattle.external_calls.specs.Prototype.{by_name, extern_of, input_width, name_of, parameters_of, result_of};

/// Each call is found by its own name, and by that alone. So no two have one name.
#[tactic(auto, unfolding(crate::specs::Prototype::by_name, crate::specs::Prototype::name_of))]
pub fn names_are_apart()
    ensures own { (call : ExternalCall) → by_name (name_of call) ≡ Some call }
    ensures alone { (call : ExternalCall) (name : List ℕ) →
        by_name name ≡ Some call → name ≡ name_of call }
{}

/// An instruction has the call alone exactly where each argument is an operand of it, and an input has the width of
/// its result.
#[tactic(auto, unfolding(crate::specs::Prototype::extern_of, crate::specs::Prototype::parameters_of, crate::specs::Prototype::input_width, crate::specs::Prototype::result_of))]
pub fn prototypes_agree()
    ensures operands { (call : ExternalCall) →
        is_some (extern_of call) ≡ list_all is_value (parameters_of call) }
    ensures inputs { (call : ExternalCall) (width : Width) →
        input_width call ≡ Some width → result_of call ≡ Some (kinds.Int width) }
{}

/// Bytes have pieces exactly where they begin with a format that spells them, with a zero byte behind it.
pub fn formats_are_spelled()
    ensures read { (bytes : List ℕ) (found : List Piece) →
        pieces_of bytes ≡ Some found → BeginsWith bytes found }
    ensures spelled { (bytes : List ℕ) (found : List Piece) →
        BeginsWith bytes found → pieces_of bytes ≡ Some found }
{}

/// No literal of a format is empty, and none follows another.
pub fn literals_are_joined()
    ensures { (bytes : List ℕ) (found : List Piece) → pieces_of bytes ≡ Some found → are_joined found ≡ true }
{}
