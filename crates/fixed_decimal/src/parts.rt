//! The parts of a decimal text: the digits before its point and those behind it.

ghost use Rattle.std.specs.Prelude.{◌≡◌, ◌+◌, ◌++◌, ◌^◌, ◌<◌, ℕ, length, drop, Some, None, IfOk, IfErr, not, ◌==◌};
ghost use Rattle.std.specs.Prelude.{option_map, position};
ghost use Rattle.std.specs.Str.Parse.{AllDigits};
ghost use Rattle.fixed_decimal.specs.Decimal.{at_most, decimal_fault, first_decimals, fraction_digits, number_of};
ghost use Rattle.fixed_decimal.specs.Decimal.{whole_digits, zero_digit};

use crate::digits::{append_digits, append_zeros, digit_count};

/// The digits before the point and those behind it, or the place where the text stops being a
/// decimal text.
#[tactic(auto, unfolding(crate::specs::Decimal::decimal_fault))]
pub(crate) fn split(text: &[u8]) -> Result<(&[u8], &[u8]), u64>
    ensures is_decimal { IfOk result (λ parts. decimal_fault text.now ≡ None) }
    ensures whole { IfOk result (λ parts. parts.0.now ≡ whole_digits text.now) }
    ensures fraction { IfOk result (λ parts. parts.1.now ≡ fraction_digits text.now) }
    ensures whole_digits { IfOk result (λ parts. AllDigits 10 parts.0.now) }
    ensures fraction_digits { IfOk result (λ parts. AllDigits 10 parts.1.now) }
    ensures fault { IfErr result (λ place. decimal_fault text.now ≡ Some place) }
{
    let count = digit_count(text);
    if count == 0 {
        return Err(0);
    }
    if count == text.len() {
        return Ok((text, &text[count..]));
    }
    if text[count] != b'.' {
        return Err(count as u64);
    }
    let fraction = &text[count + 1..];
    let decimals = digit_count(fraction);
    if decimals == 0 || decimals < fraction.len() {
        return Err((count + 1 + decimals) as u64);
    }
    Ok((&text[..count], fraction))
}

/// The index of the first digit that isn't 0.
fn first_nonzero(digits: &[u8]) -> Option<usize>
    ensures { result ≡ position (λ digit. not (digit == zero_digit)) digits.now }
{
    digits.iter().position(|digit| *digit != b'0')
}

/// The place of the first digit behind the last decimal that isn't 0, where `whole` digits stand
/// before the point.
pub(crate) fn fine_place(whole: usize, fraction: &[u8], decimals: u32) -> Option<u64>
    requires { whole < 2 ^ 63 }
    ensures { result ≡ option_map (λ place. whole + 1 + decimals + place)
        (position (λ digit. not (digit == zero_digit)) (drop decimals fraction.now)) }
{
    let finer = fraction.get(decimals as usize..)?;
    let place = first_nonzero(finer)?;
    Some((whole + 1 + decimals as usize + place) as u64)
}

/// The number that the digits before the point and the first decimals spell, where it is at most
/// the limit.
pub(crate) fn units_of(whole: &[u8], fraction: &[u8], decimals: u32, limit: u64) -> Option<u64>
    requires whole { AllDigits 10 whole.now }
    requires fraction { AllDigits 10 fraction.now }
    ensures { result ≡ at_most limit (number_of (whole.now ++ first_decimals decimals fraction.now)) }
{
    let kept = fraction.len().min(decimals as usize);
    let number = append_digits(0, whole, limit)?;
    let number = append_digits(number, &fraction[..kept], limit)?;
    append_zeros(number, decimals - kept as u32, limit)
}
