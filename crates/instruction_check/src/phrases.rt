//! The phrases of an instruction, one after another.

ghost use Rattle.std.specs.Prelude.{◌≡◌, ◌∷◌, MatchOption};
ghost use Rattle.instruction_check.specs.Phrases as spec;

use crate::literals::kind_of;
use ir_items::Phrases;
use ir_read::Node;
use ir_types::Kind;

/// What a register of the type holds that a phrase spells.
pub fn kind_in(phrase: &[Node<'_>]) -> Kind
    ensures { result ≡ spec.kind_in phrase.now }
{
    match phrase.first() {
        Some(node) => kind_of(node),
        None => Kind::Ptr,
    }
}

/// The text of a phrase of one word.
pub fn text_in<'s>(phrase: &[Node<'s>]) -> &'s [u8]
    ensures { result.now ≡ spec.text_in phrase.now }
{
    match phrase.first() {
        Some(node) => node.text,
        None => b"",
    }
}

/// Takes off a type, and tells what a register of it holds.
pub fn take_kind(phrases: &mut Phrases<'_, '_>) -> Kind
    ensures kind { result ≡ spec.kind_in (spec.first phrases.old) }
    ensures rest { phrases.new ≡ spec.behind phrases.old }
{
    match phrases.next() {
        Some(phrase) => kind_in(phrase),
        None => Kind::Ptr,
    }
}

/// Takes off a word, and tells its text.
pub fn take_text<'s>(phrases: &mut Phrases<'_, 's>) -> &'s [u8]
    ensures text { result.now ≡ spec.text_in (spec.first phrases.old) }
    ensures rest { phrases.new ≡ spec.behind phrases.old }
{
    match phrases.next() {
        Some(phrase) => text_in(phrase),
        None => b"",
    }
}

/// The nodes of a phrase.
pub type Phrase<'m, 's> = &'m [Node<'s>];

/// Takes off two phrases, where so many are left.
pub fn take_pair<'m, 's>(phrases: &mut Phrases<'m, 's>) -> Option<(Phrase<'m, 's>, Phrase<'m, 's>)>
    ensures { MatchOption result (spec.HasNoPair phrases.old) (λ pair. phrases.old ≡ pair.0.now ∷ pair.1.now ∷ phrases.new) }
{
    let first = phrases.next()?;
    let second = phrases.next()?;
    Some((first, second))
}
