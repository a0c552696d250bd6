//! The numbers that digits write.

ghost use Rattle.std.specs.Prelude.{◌≡◌, ◌^◌, None, Some, IsTrue, nat_lt, if◌then◌else◌};
ghost use Rattle.std.specs.Char.{is_ascii_digit};
ghost use Rattle.std.specs.List.{list_all};
ghost use Rattle.std.specs.Str.Parse.{digits_value};
ghost use Rattle.ir_read.specs.Terminal as spec;

/// So many digits always write a number below 2^64.
pub const SHORT: usize = 19;

/// Whether these are decimal digits whose number is below 2^64.
#[tactic(auto, using(crate::proofs::Decimals::short_fits))]
pub fn fits_word(digits: &[u8]) -> bool
    ensures { result ≡ spec.fits_word digits.now }
{
    is_all_digits(digits) && (digits.len() <= SHORT || value_of(digits).is_some())
}

/// The number that decimal digits write, if it is below 2^64; 0 where there are none.
pub fn number_of(digits: &[u8]) -> Option<u64>
    ensures { result ≡ spec.number_of digits.now }
{
    if is_all_digits(digits) {
        value_of(digits)
    } else {
        None
    }
}

/// A literal modulo 2^64. There is none where the number without its sign is 2^64 or more.
pub fn literal_of(text: &[u8]) -> Option<u64>
    ensures { result ≡ spec.literal_of text.now }
{
    match text {
        [b'-', digits @ ..] => Some(number_of(digits)?.wrapping_neg()),
        _ => number_of(text),
    }
}

pub fn is_all_digits(bytes: &[u8]) -> bool
    ensures { result ≡ list_all is_ascii_digit bytes.now }
{
    bytes.iter().all(|byte| byte.is_ascii_digit())
}

fn value_of(digits: &[u8]) -> Option<u64>
    requires { IsTrue (list_all is_ascii_digit digits.now) }
    ensures { result ≡ (if nat_lt (digits_value 10 digits.now) (2 ^ 64) then Some (digits_value 10 digits.now) else None) }
{
    let mut value: u64 = 0;
    for digit in digits {
        value = value
            .checked_mul(10)?
            .checked_add(u64::from(*digit - b'0'))?;
    }
    Some(value)
}
