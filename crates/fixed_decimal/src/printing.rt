//! Digits written from the last to the first, into a text that is turned round at the end.

ghost use Rattle.std.specs.Prelude.{◌≡◌, ◌++◌, ◌/◌, ◌^◌, IfOk, OnOk, reverse};
ghost use Rattle.std.specs.Fmt.{decimal};
ghost use Rattle.fixed_decimal.specs.DecimalTexts.{decimal_text, last_digits};

use crate::digits::last_digit;
use std::alloc::{AllocError, Global};

/// The digits of the greatest number of 64 bits.
const MAX_DIGITS: usize = 20;

/// Appends so many of a number's last digits, and gives the number without them.
pub(crate) fn push_last_digits(
    text: &mut Vec<u8>,
    number: u64,
    count: u32,
) -> Result<u64, AllocError>
    ensures rest { IfOk result (λ rest. rest ≡ number / 10 ^ count) }
    ensures digits { OnOk result (reverse text.new.items ≡ last_digits count number ++ reverse text.old.items) }
{
    let mut rest = number;
    for _ in 0..count {
        text.push(last_digit(rest))?;
        rest /= 10;
    }
    Ok(rest)
}

/// Appends all digits of a number.
pub(crate) fn push_digits(text: &mut Vec<u8>, number: u64) -> Result<(), AllocError>
    ensures { OnOk result (reverse text.new.items ≡ decimal number ++ reverse text.old.items) }
{
    let mut rest = number;
    while rest >= 10 {
        text.push(last_digit(rest))?;
        rest /= 10;
    }
    text.push(last_digit(rest))?;
    Ok(())
}

/// The decimal text of a number of units.
pub(crate) fn decimal_text(alloc: Global, units: u64, decimals: u32) -> Result<Vec<u8>, AllocError>
    ensures { IfOk result (λ text. text.items ≡ decimal_text decimals units) }
{
    let mut text = Vec::with_capacity(alloc, decimals as usize + 1 + MAX_DIGITS)?;
    let whole = push_last_digits(&mut text, units, decimals)?;
    text.push(b'.')?;
    push_digits(&mut text, whole)?;
    text.reverse();
    Ok(text)
}
