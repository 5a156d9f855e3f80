//! Digits, and the numbers that they spell.

ghost use Rattle.std.specs.Prelude.{◌≡◌, ◌↔◌, ◌+◌, ◌*◌, ◌%◌, ◌^◌, ◌≤◌, length, min, IfSome, IsNone};
ghost use Rattle.std.specs.Str.Parse.{AllDigits, digits_value_after};
ghost use Rattle.fixed_decimal.specs.Decimal.{digit_count, at_most, leading_digits, number_of, whole_number};
ghost use Rattle.fixed_decimal.specs.Decimal.{whole_within, zero_digit};
ghost use Rattle.fixed_decimal.specs.DecimalTexts.{IsDigits, IsLeadingDigits};

/// How many digits a text begins with.
pub(crate) fn digit_count(text: &[u8]) -> usize
    ensures count { result ≡ digit_count text.now }
    ensures within { result ≤ length text.now }
{
    text.iter().take_while(|byte| byte.is_ascii_digit()).count()
}

/// The digits that a text begins with, as many as there are.
pub fn leading_digits(text: &[u8]) -> &[u8]
    ensures digits { result.now ≡ leading_digits text.now }
    ensures number { AllDigits 10 result.now }
    ensures meaning { IsLeadingDigits result.now text.now }
{
    &text[..digit_count(text)]
}

/// The number that digits spell behind those of a number, where it is at most the limit.
pub(crate) fn append_digits(number: u64, digits: &[u8], limit: u64) -> Option<u64>
    requires { AllDigits 10 digits.now }
    ensures { result ≡ at_most limit (digits_value_after 10 number digits.now) }
{
    let mut value = number;
    for digit in digits {
        value = value
            .checked_mul(10)?
            .checked_add(u64::from(*digit - b'0'))?;
    }
    (value <= limit).then_some(value)
}

/// A number with so many zeros behind it, where that is at most the limit.
pub(crate) fn append_zeros(number: u64, zeros: u32, limit: u64) -> Option<u64>
    ensures { result ≡ at_most limit (number * 10 ^ zeros) }
{
    if number == 0 {
        return Some(0);
    }
    let value = number.checked_mul(10u64.checked_pow(zeros)?)?;
    (value <= limit).then_some(value)
}

/// Reads the number of a text of one or more digits. `None` where the text is empty, has another
/// byte, or spells a number above the limit. Leading zeros are accepted.
#[tactic(auto, unfolding(crate::specs::Decimal::whole_number))]
pub fn whole(text: &[u8], limit: u64) -> Option<u64>
    ensures value { result ≡ whole_number limit text.now }
    ensures some { IfSome result (λ number. IsDigits text.now × (number ≡ number_of text.now) × (number ≤ limit)) }
    ensures none { IsNone result ↔ ¬ (IsDigits text.now × (number_of text.now ≤ limit)) }
{
    if text.is_empty() || digit_count(text) < text.len() {
        return None;
    }
    append_digits(0, text, limit)
}

/// Reads the number of a text of one or more digits, from `low` to `high`. `None` where the text is
/// empty or has another byte, or its number is outside the range. Leading zeros are accepted.
pub fn whole_within(text: &[u8], low: u64, high: u64) -> Option<u64>
    ensures value { result ≡ whole_within low high text.now }
    ensures within { IfSome result (λ number. (low ≤ number) × (number ≤ high)) }
    ensures some { IfSome result (λ number. IsDigits text.now × (number ≡ number_of text.now)) }
    ensures none { IsNone result ↔ ¬ (IsDigits text.now × (low ≤ number_of text.now) × (number_of text.now ≤ high)) }
{
    let number = whole(text, high)?;
    (low <= number).then_some(number)
}

/// The number that digits of any length spell, or `most` where that is smaller. No digits spell 0.
pub fn capped_number(digits: &[u8], most: u64) -> u64
    requires { AllDigits 10 digits.now }
    ensures { result ≡ min (number_of digits.now) most }
{
    append_digits(0, digits, most).unwrap_or(most)
}

/// The byte of a number's last digit.
pub(crate) fn last_digit(number: u64) -> u8
    ensures { result ≡ zero_digit + number % 10 }
{
    b'0' + (number % 10) as u8
}
