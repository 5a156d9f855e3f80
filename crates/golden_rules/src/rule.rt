//! A rule, of one of four kinds.

ghost use Rattle.std.specs.Prelude.{◌≡◌};

use element_table::Symbol;
use std::marker::Model;

/// At most so many rules.
pub const MAX_RULES: usize = 64;

/// At most so many triples of a group.
pub const MAX_TRIPLES: usize = 8;

/// The greatest end of a ratio's range, in thousandths: 1,000.
pub const MAX_RATIO: u64 = 1_000_000;

/// The greatest number of a triple.
pub const MAX_TRIPLE_NUMBER: u64 = 10_000;

/// The greatest absolute value of an end of a range of unsaturation.
pub const MAX_UNSATURATION: u64 = 100_000;

/// A rule. The count of a symbol is the number of all atoms of that element, labelled ones included.
#[derive(Debug, Drop)]
pub enum Rule {
    /// The sum of the valences over all n atoms is even, at least twice the greatest valence of an atom, and at least
    /// `2*(n - 1)`.
    Senior,
    /// Where the count of `second` isn't 0, the count of `first` is from `low` to `high` thousandths of it.
    Ratio {
        first: Symbol,
        second: Symbol,
        low: u32,
        high: u32,
    },
    /// Where the count of each triple's symbol is greater than its first number, each is less than its second number.
    Group(Triples),
    /// The degree of unsaturation, `2 + sum c_i*(v_i - 2)` over counts and valences, is from `low` to `high`.
    Unsaturation {
        low: i32,
        high: i32,
    },
}

/// A symbol of a group with its two numbers.
#[derive(Clone, Copy, Debug, PartialEq, Eq)]
pub struct Triple {
    /// The symbol of the element.
    pub symbol: Symbol,
    /// The group speaks of formulas whose count is greater than this number.
    pub above: u32,
    /// The count then has to be less than this number.
    pub below: u32,
}

/// The triples of a group. Contracts see their list.
#[derive(Debug, Drop)]
pub struct Triples {
    items: Vec<Triple>,
}

impl Model for Triples {
    ghost use Rattle.std.specs.Prelude.{List};
    ghost use Rattle.golden_rules.specs.declared.rule.Triple.{Triple};

    ghost Value = { List Triple };

    ghost view = { λ t. t.items.items };
}

impl Triples {
    /// The triples of a list.
    pub fn of(items: Vec<Triple>) -> Triples
        ensures { result ≡ items.items }
    {
        Triples { items }
    }

    /// The list of the triples.
    pub fn items(&self) -> &[Triple]
        ensures { result.now ≡ self.now }
    {
        &self.items
    }
}
