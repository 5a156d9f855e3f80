//! Decimal numbers with a fixed number of decimals, as whole numbers of units, and their texts.
//!
//! A [`Fixed`] is seen by contracts as its number of units. The crate stands on `reader_answers` and
//! `thiserror`. The layers above read decimals by [`Fixed::read`] and [`Fixed::read_within`], whole numbers
//! by [`whole`] and [`whole_within`], up to a limit or in a range, and the digits that a text begins with by
//! [`leading_digits`] and [`capped_number`]. They print decimals by [`Fixed::print`].
#![tactic(auto)]

mod digits;
mod parts;
mod printing;
#[cfg(test)]
mod tests;

ghost use Rattle.std.specs.Prelude.{◌≡◌, ◌↔◌, ◌≤◌, ℕ, List, Result, Ok, IfOk, IfSome, IsNone};
ghost use Rattle.fixed_decimal.specs.Decimal.{decimal_within, read_decimal};
ghost use Rattle.fixed_decimal.specs.DecimalTexts.{DecimalReading, IsPlainDecimal, decimal_text};
ghost use Rattle.fixed_decimal.specs.declared.DecimalFault.{DecimalFault};

pub use digits::{capped_number, leading_digits, whole, whole_within};
use std::alloc::{AllocError, Global};
use std::marker::Model;
use thiserror::Error;

/// Why a text is refused as a decimal number.
#[derive(Clone, Copy, Debug, PartialEq, Eq, Error)]
pub enum DecimalFault {
    /// The text is no decimal text. The place is the first byte at which none can go on, or the
    /// length where the text ends too early.
    #[error("byte {place}: not a decimal number")]
    NotDecimal { place: u64 },
    /// A digit behind the last decimal isn't 0. The place is that of the first such digit.
    #[error("byte {place}: a digit behind the last decimal that isn't 0")]
    TooFine { place: u64 },
    /// The number of units is above the limit.
    #[error("the number is above its limit")]
    TooLarge,
}

/// A number of units of 10^-D, where D is from 1 to 18. A contract sees it as that number.
#[derive(Clone, Copy, Debug, PartialEq, Eq, PartialOrd, Ord)]
pub struct Fixed<const D: u32> {
    units: u64,
}

impl<const D: u32> Model for Fixed<D> {
    ghost use Rattle.std.specs.Prelude.{ℕ};

    ghost Value = { ℕ };

    ghost view = { λ fixed. fixed.units };

    ghost inverse = { λ value. record { units = value } };
}

impl<const D: u32> Fixed<D> {
    /// The number of so many units of 10^-D.
    pub fn of(units: u64) -> Self
        ensures { result ≡ units }
    {
        Self { units }
    }

    /// The number of units of 10^-D.
    pub fn units(self) -> u64
        ensures { result ≡ self.entry }
    {
        self.units
    }

    /// Reads a decimal text: digits, and then nothing or a point and digits. Leading zeros are
    /// accepted, and so are zeros behind the D-th decimal. The limit is in units of 10^-D. Of
    /// several faults the answer is the first in the order in which `DecimalFault` has them.
    #[tactic(auto, unfolding(crate::specs::Decimal::read_decimal, crate::specs::Decimal::fine_place))]
    pub fn read(text: &[u8], limit: u64) -> Result<Self, DecimalFault>
        ensures value { result ≡ read_decimal D limit text.now }

        // That is what the text is read as, and the only answer that it may be read as.
        ensures meaning { DecimalReading D limit text.now result }
        ensures only { (answer : Result ℕ DecimalFault) → DecimalReading D limit text.now answer → answer ≡ result }
        ensures within { IfOk result (λ fixed. fixed ≤ limit) }
    {
        let (whole, fraction) = parts::split(text).map_err(|place| DecimalFault::NotDecimal {
            place,
        })?;
        if let Some(place) = parts::fine_place(whole.len(), fraction, D) {
            return Err(DecimalFault::TooFine { place });
        }
        let units = parts::units_of(whole, fraction, D, limit).ok_or(DecimalFault::TooLarge)?;
        Ok(Self { units })
    }

    /// Reads a decimal text from `low` to `high`, in units of 10^-D. `None` where the text is no
    /// decimal text or too fine, or its number is outside the range.
    pub fn read_within(text: &[u8], low: u64, high: u64) -> Option<Self>
        ensures value { result ≡ decimal_within D low high text.now }
        ensures within { IfSome result (λ fixed. (low ≤ fixed) × (fixed ≤ high)) }
        ensures some { IfSome result (λ fixed. DecimalReading D high text.now (Ok fixed)) }
        ensures none { IsNone result ↔ ¬ ((units : ℕ) × (low ≤ units) × DecimalReading D high text.now (Ok units)) }
    {
        let fixed = Self::read(text, high).ok()?;
        (low <= fixed.units).then_some(fixed)
    }

    /// The decimal text of the number: the whole part without leading zeros, a point and exactly
    /// D digits. The only error is want of memory.
    pub fn print(self, alloc: Global) -> Result<Vec<u8>, AllocError>
        // What is printed.
        ensures text { IfOk result (λ text. text.items ≡ decimal_text D self.entry) }

        // It is read back as the number, and of the plain texts it alone is the number's.
        ensures reads_back { IfOk result (λ text. (limit : ℕ) →
            1 ≤ D → self.entry ≤ limit → read_decimal D limit text.items ≡ Ok self.entry) }
        ensures plain { IfOk result (λ text. 1 ≤ D → IsPlainDecimal D self.entry text.items) }
        ensures one_text { IfOk result (λ text. (other : List ℕ) →
            1 ≤ D → IsPlainDecimal D self.entry other → other ≡ text.items) }
    {
        let units = self.units();
        printing::decimal_text(alloc, units, D)
    }
}
