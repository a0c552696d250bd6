//! What stands between the tokens of an item without a meaning: attributes, flags and metadata.

ghost use Rattle.std.specs.Prelude.{◌≡◌};
ghost use Rattle.ir_read.specs.Skip as spec;

use crate::terminal::Terminal;

/// Where reading stands: outside of skipped forms, behind a comma, or within a skipped form, whose next token is
/// named.
#[derive(Clone, Copy)]
pub enum Mode {
    Free,
    /// Behind a comma that is skipped with what follows, or else is a token of the item.
    Comma,
    AlignNumber,
    DereferenceableOpen,
    DereferenceableNumber,
    CapturesOpen,
    CapturesNone,
    /// The `)` of `dereferenceable(N)` and `captures(none)`.
    FormClose,
    /// The `!N` of `!name !N`.
    MetadataNumber,
}

/// Where reading stands behind the first token of a skipped form.
#[tactic(auto, unfolding(crate::specs::Skip::skip_of))]
#[inline(always)]
pub fn skip_of(terminal: Terminal) -> Option<Mode>
    ensures { result ≡ spec.skip_of terminal }
{
    match terminal {
        Terminal::Skipped | Terminal::AttributeGroup => Some(Mode::Free),
        Terminal::Align => Some(Mode::AlignNumber),
        Terminal::Dereferenceable => Some(Mode::DereferenceableOpen),
        Terminal::Captures => Some(Mode::CapturesOpen),
        Terminal::MetadataName => Some(Mode::MetadataNumber),
        _ => None,
    }
}

/// Where reading stands behind a further token of a skipped form.
#[tactic(auto, unfolding(crate::specs::Skip::skip_row))]
pub fn skip_row(mode: Mode, terminal: Terminal) -> Option<Mode>
    ensures { result ≡ spec.skip_row mode terminal }
{
    match (mode, terminal) {
        (Mode::AlignNumber, Terminal::Natural) => Some(Mode::Free),
        (Mode::DereferenceableOpen, Terminal::LeftParen) => Some(Mode::DereferenceableNumber),
        (Mode::DereferenceableNumber, Terminal::Natural) => Some(Mode::FormClose),
        (Mode::CapturesOpen, Terminal::LeftParen) => Some(Mode::CapturesNone),
        (Mode::CapturesNone, Terminal::KeyNone) => Some(Mode::FormClose),
        (Mode::FormClose, Terminal::RightParen) => Some(Mode::Free),
        (Mode::MetadataNumber, Terminal::MetadataNumber) => Some(Mode::Free),
        _ => None,
    }
}

/// Whether a comma before the token is skipped with it.
#[tactic(auto, unfolding(crate::specs::Skip::drops_comma))]
pub fn drops_comma(terminal: Terminal) -> bool
    ensures { result ≡ spec.drops_comma terminal }
{
    matches!(terminal, Terminal::Align | Terminal::MetadataName)
}

#[tactic(auto, unfolding(crate::specs::Skip::is_comma))]
pub fn is_comma(terminal: Terminal) -> bool
    ensures { result ≡ spec.is_comma terminal }
{
    matches!(terminal, Terminal::Comma)
}
