//! Sizes and alignments, and how those of parts make those of the whole.

ghost use Rattle.std.specs.Prelude.{◌≡◌, ◌+◌, ◌*◌};
ghost use Rattle.ir_layout.specs.Extent as spec;

/// How many bytes a type takes in memory, and of which number its addresses are multiples.
#[derive(Clone, Copy, Debug, PartialEq, Eq)]
pub struct Extent {
    pub size: u64,
    pub align: u64,
}

/// What becomes of a size that passes 64 bits.
#[derive(Clone, Copy, Debug, PartialEq, Eq)]
pub enum Overflow {
    /// It is 2^64 - 1, as where it is only compared with a limit.
    Saturating,
    /// It is taken modulo 2^64, as in addresses.
    Wrapping,
}

impl Overflow {
    pub fn sum(self, a: u64, b: u64) -> u64
        ensures { result ≡ spec.kept self (a + b) }
    {
        match self {
            Overflow::Saturating => a.saturating_add(b),
            Overflow::Wrapping => a.wrapping_add(b),
        }
    }

    pub fn product(self, a: u64, b: u64) -> u64
        ensures { result ≡ spec.kept self (a * b) }
    {
        match self {
            Overflow::Saturating => a.saturating_mul(b),
            Overflow::Wrapping => a.wrapping_mul(b),
        }
    }
}

/// An integer or a pointer of so many bytes.
pub fn word(bytes: u64) -> Extent
    ensures { result ≡ spec.word bytes }
{
    Extent {
        size: bytes,
        align: bytes,
    }
}

/// How many bytes an integer of so many bits takes.
pub fn bytes_of(bits: u32) -> u64
    ensures { result ≡ spec.bytes_of bits }
{
    match bits {
        16 => 2,
        32 => 4,
        64 => 8,
        _ => 1,
    }
}

/// A struct without fields.
pub fn empty() -> Extent
    ensures { result ≡ spec.empty }
{
    Extent { size: 0, align: 1 }
}

/// So many elements.
pub fn repeated(overflow: Overflow, count: u64, element: Extent) -> Extent
    ensures { result ≡ spec.repeated (spec.kept overflow) count element }
{
    Extent {
        size: overflow.product(count, element.size),
        align: element.align,
    }
}

/// What is left out before the next place of the alignment.
fn padding(size: u64, align: u64) -> u64
    ensures { result ≡ spec.padding size align }
{
    if align == 0 {
        0
    } else {
        (align - size % align) % align
    }
}

/// Where a field of the alignment lies, behind fields of so many bytes.
#[tactic(auto, unfolding(crate::specs::Extent::place))]
pub fn place(overflow: Overflow, packed: bool, size: u64, align: u64) -> u64
    ensures { result ≡ spec.place (spec.kept overflow) packed size align }
{
    if packed {
        size
    } else {
        overflow.sum(size, padding(size, align))
    }
}

/// The fields with one more.
#[tactic(auto, unfolding(crate::specs::Extent::with_field))]
pub fn with_field(overflow: Overflow, packed: bool, fields: Extent, field: Extent) -> Extent
    ensures { result ≡ spec.with_field (spec.kept overflow) packed fields field }
{
    if packed {
        Extent {
            size: overflow.sum(fields.size, field.size),
            align: 1,
        }
    } else {
        let at = place(overflow, false, fields.size, field.align);
        Extent {
            size: overflow.sum(at, field.size),
            align: fields.align.max(field.align),
        }
    }
}

/// A struct of fields that take so much.
#[tactic(auto, unfolding(crate::specs::Extent::ended))]
pub fn ended(overflow: Overflow, packed: bool, fields: Extent) -> Extent
    ensures { result ≡ spec.ended (spec.kept overflow) packed fields }
{
    if packed {
        fields
    } else {
        let end = overflow.sum(fields.size, padding(fields.size, fields.align));
        Extent {
            size: end,
            align: fields.align,
        }
    }
}
