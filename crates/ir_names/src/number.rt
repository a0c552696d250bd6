//! Numbers of names, which have no upper limit.

ghost use Rattle.std.specs.Prelude.{◌≡◌, ◌+◌, ◌-◌, ◌*◌, ◌^◌, ◌≤◌, min, OnErr, OnOk, IfOk, IfSome};
ghost use Rattle.std.proofs.Common.{rules};
ghost use Rattle.std.specs.Bool.{nat_eq};
ghost use Rattle.std.specs.Cmp.{nat_eq_equiv, nat_cmp_total, partial_equiv_from_equiv, unsigned_po};
ghost use Rattle.std.specs.Cmp.Rules.{comparing};
ghost use Rattle.std.specs.Ordering.{nat_cmp, as_partial_cmp};
ghost use Rattle.ir_names.specs.Number.{digit_at, digit_of, lead_of, value_of};

use rc_base::NoMemory;
use std::cmp::Ordering;
use std::marker::Model;

/// The lead of a number over itself.
const EVEN: u128 = 18_446_744_073_709_551_616;

/// The greatest lead that is told apart.
const MOST: u128 = 36_893_488_147_419_103_232;

/// Numbers of digits are kept as what they spell as long as those before the last digit spell less.
const MOST_SHORT: u64 = 1_152_921_504_606_846_976;

/// A number that digits of the text spell, or so many above that one. A short one is so many above that of no digits.
#[derive(Drop)]
pub struct Number<'s> {
    digits: &'s [u8],
    above: u64,
}

impl<'s> Model for Number<'s> {
    ghost use Rattle.std.specs.Prelude.{ℕ, ◌+◌};
    ghost use Rattle.std.specs.Coded.{coded_ℕ};
    ghost use Rattle.ir_names.specs.Number.{value_of};

    ghost Value = { ℕ };

    ghost coded = { coded_ℕ };

    ghost view = { λ number. value_of number.digits.now + number.above };
}

impl<'s> Number<'s> {
    pub fn zero() -> Self
        ensures { result ≡ 0 }
    {
        Number {
            digits: b"",
            above: 0,
        }
    }

    /// The number that the digits spell.
    pub fn of(digits: &'s [u8]) -> Self
        ensures { result ≡ value_of digits.now }
    {
        let rest = without_zeros(digits);
        match short_value(rest) {
            Some(above) => Number { digits: b"", above },
            None => Number {
                digits: rest,
                above: 0,
            },
        }
    }

    /// Where the number is likely to stand among numbers that rise from 0 without a gap.
    pub(crate) fn likely_place(&self) -> u64
        ensures { result ≤ self.now }
    {
        self.above
    }

    /// The same number again.
    pub fn again(&self) -> Self
        ensures { result ≡ self.now }
    {
        Number {
            digits: self.digits,
            above: self.above,
        }
    }

    /// The next number. A number is at most 2^64 - 1 above the digits that it is told by, so one that is further
    /// above is refused as want of memory: names that reach there would fill more memory than there is.
    pub fn next(&self) -> Result<Self, NoMemory>
        ensures { IfOk result (λ next. next ≡ self.now + 1) }
    {
        let Some(above) = self.above.checked_add(1) else {
            return Err(NoMemory);
        };
        Ok(Number {
            digits: self.digits,
            above,
        })
    }
}

impl PartialEq for Number<'_> {
    ghost eq = { nat_eq };

    ghost laws = { partial_equiv_from_equiv nat_eq_equiv };

    fn eq(&self, other: &Self) -> bool {
        self.cmp(other).is_eq()
    }
}

impl Eq for Number<'_> {
    ghost laws = { nat_eq_equiv };
}

impl PartialOrd for Number<'_> {
    ghost partial_cmp = { as_partial_cmp nat_cmp };

    ghost laws = { unsigned_po };

    fn partial_cmp(&self, other: &Self) -> Option<Ordering> {
        Some(self.cmp(other))
    }
}

impl Ord for Number<'_> {
    ghost cmp = { nat_cmp };

    ghost total = { nat_cmp_total };

    ghost matches_partial_cmp = { Prim.search (comparing, rules) };

    ghost matches_eq = { Prim.search (comparing, rules) };

    #[tactic(auto, using(crate::proofs::Numbers::lead_tells))]
    fn cmp(&self, other: &Self) -> Ordering {
        if self.digits.is_empty() && other.digits.is_empty() {
            return self.above.cmp(&other.above);
        }
        let lead = lead_of(self.digits, other.digits);
        (lead + self.above as u128).cmp(&(EVEN + other.above as u128))
    }
}

/// The digits from the first one on that isn't 0.
fn without_zeros(digits: &[u8]) -> &[u8]
    ensures { value_of result.now ≡ value_of digits.now }
{
    let mut rest = digits;
    while let [b'0', tail @ ..] = rest {
        rest = tail;
    }
    rest
}

/// The number that digits spell, where it is short.
fn short_value(digits: &[u8]) -> Option<u64>
    ensures { IfSome result (λ value. value ≡ value_of digits.now) }
{
    let mut value: u64 = 0;
    for byte in digits {
        if value >= MOST_SHORT {
            return None;
        }
        value = 10 * value + digit_of(*byte) as u64;
    }
    Some(value)
}

/// What a digit stands for.
fn digit_of(byte: u8) -> u8
    ensures value { result ≡ digit_of byte }
    ensures small { result ≤ 9 }
{
    byte.saturating_sub(b'0').min(9)
}

/// The digit with so many behind it, and 0 where there are fewer.
fn digit_at(digits: &[u8], behind: usize) -> u8
    ensures value { result ≡ digit_at digits.now behind }
    ensures small { result ≤ 9 }
{
    if behind < digits.len() {
        digit_of(digits[digits.len() - 1 - behind])
    } else {
        0
    }
}

/// The lead of a number with one digit more, where it was `lead` without it.
fn lead_with(lead: u128, digit: u8, other: u8) -> u128
    requires lead { lead ≤ 2 ^ 65 }
    requires digit { digit ≤ 9 }
    requires other { other ≤ 9 }
    ensures { result ≡ min (10 * lead + digit - (other + 9 * 2 ^ 64)) (2 ^ 65) }
{
    (10 * lead + digit as u128)
        .saturating_sub(other as u128 + 9 * EVEN)
        .min(MOST)
}

/// How far the number that `digits` spell is ahead of the one that `others` spell. Once the lead can't
/// change any more no further digit is read: so a short number is told from a long one at once.
fn lead_of(digits: &[u8], others: &[u8]) -> u128
    ensures { result ≡ lead_of (value_of digits.now) (value_of others.now) }
{
    let mut lead = EVEN;
    let mut behind = digits.len().max(others.len());
    while behind > 0 && 0 < lead && lead < MOST {
        behind -= 1;
        let digit = digit_at(digits, behind);
        let other = digit_at(others, behind);
        lead = lead_with(lead, digit, other);
    }
    lead
}
