//! Numbers in decimal and in lower-case hexadecimal.

ghost use Rattle.std.specs.Prelude.{◌≡◌, ◌++◌, decimal, OnOk};
ghost use Rattle.std.specs.Fmt.{signed_decimal};
ghost use Rattle.report_text.specs.Items.{byte_digits, hexadecimal};

use itoa::Buffer;
use std::alloc::AllocError;

/// Appends a number in decimal.
pub fn push_decimal(text: &mut Vec<u8>, number: u64) -> Result<(), AllocError>
    ensures { OnOk result (text.new.items ≡ text.old.items ++ decimal number) }
{
    text.extend_from_slice(Buffer::new().format(number).as_bytes())
}

/// Appends a number in decimal, with a minus sign where it is negative.
pub fn push_signed_decimal(text: &mut Vec<u8>, number: i64) -> Result<(), AllocError>
    ensures { OnOk result (text.new.items ≡ text.old.items ++ signed_decimal number) }
{
    text.extend_from_slice(Buffer::new().format(number).as_bytes())
}

/// Appends a byte as two hexadecimal digits.
#[tactic(auto, using(std::proofs::lemmas::Fmt::hex_byte))]
pub fn push_byte_digits(text: &mut Vec<u8>, byte: u8) -> Result<(), AllocError>
    ensures { OnOk result (text.new.items ≡ text.old.items ++ byte_digits byte) }
{
    let digits = format!(in *text.allocator(); "{byte:02x}")?;
    text.extend_from_slice(digits.as_bytes())
}

/// Appends a number in hexadecimal, without leading zeros.
pub fn push_hexadecimal(text: &mut Vec<u8>, number: u64) -> Result<(), AllocError>
    ensures { OnOk result (text.new.items ≡ text.old.items ++ hexadecimal number) }
{
    let digits = format!(in *text.allocator(); "{number:x}")?;
    text.extend_from_slice(digits.as_bytes())
}
