//! The members of a layer with their counts end to end and their enclosures. What is sorted are the enclosures, each
//! with the place where its counts begin; the counts stay where they are.

use crate::falling::sort_falling;
use crate::fewest::{fewest_lower, lower_total_above};
use isotopologue_sets::ElementAtoms;
use layered_envelope::{Layers, MemberRow};
use multinomial_bounds::Enclosure;
use std::alloc::{AllocError, Global};
use std::cmp::Ordering;
use std::marker::Model;

/// Isotopologues of some elements. The counts of all stand in one list, so that none has a list of its own.
#[derive(Drop)]
pub(crate) struct Members {
    /// How many isotopes each element has, and how many all have together.
    isotopes: Vec<usize>,
    width: usize,
    counts: Vec<u32>,
    rows: Vec<MemberRow>,
}

impl Model for Members {
    ghost use Rattle.std.specs.Prelude.{◌≡◌, List, map, sum};
    ghost use Rattle.isotopologue_sets.specs.Covers.{Member};
    ghost use Rattle.reaching_layer.specs.MemberRows.{row_member};

    ghost Value = { List Member };

    ghost view = { λ m. map (row_member m.isotopes.items m.counts.items) m.rows.items };

    ghost invariant = { λ m. m.width ≡ sum m.isotopes.items };
}

impl Members {
    ghost use Rattle.std.specs.Prelude.{◌≡◌, ◌<◌, ◌≤◌, All, IfOk, [], filter, length, map, nat_lt, slice_index_or, sum, sum_by, take};
    ghost use Rattle.std.specs.List.{concat};
    ghost use Rattle.sorted_lists.specs.SortedLists.{sorted_by};
    ghost use Rattle.isotopologue_sets.specs.Layers.{AreElements};
    ghost use Rattle.isotopologue_sets.specs.Covers.{Member, member_of, fewest, ordered_layer};
    ghost use Rattle.layered_envelope.specs.Layerings.{last_threshold};

    /// The members of the layer given last, in the cover's order.
    pub(crate) fn of_layer(
        alloc: Global,
        elements: &[ElementAtoms],
        layers: &Layers,
    ) -> Result<Members, AllocError>
        requires elements { AreElements elements.now }
        requires of_elements { layers.now.elements ≡ elements.now }
        requires given { 1 ≤ layers.now.given }
        ensures { IfOk result (λ members. members ≡
            map (member_of elements.now) (ordered_layer elements.now (last_threshold layers.now))) }
    {
        let isotopes: Vec<usize> = elements.iter().map(|e| e.weights().len()).collect(alloc)?;
        let width = total_of(&isotopes);
        let (counts, mut rows) = layers.gathered()?;
        sort_rows(&counts, width, &mut rows);
        Ok(Members {
            isotopes,
            width,
            counts,
            rows,
        })
    }

    /// How many there are.
    pub(crate) fn len(&self) -> usize
        ensures { result ≡ length self.now }
    {
        self.rows.len()
    }

    /// The counts of one, element after element.
    pub(crate) fn counts(&self, place: usize) -> &[u32]
        requires { place < length self.now }
        ensures { (d : Member) → result.now ≡ concat (slice_index_or self.now place d).counts }
    {
        row_counts(self.counts.as_slice(), self.width, self.rows[place])
    }

    /// The enclosure of one.
    pub(crate) fn enclosure(&self, place: usize) -> Enclosure
        requires { place < length self.now }
        ensures lo { (d : Member) → result.lo ≡ (slice_index_or self.now place d).lo }
        ensures hi { (d : Member) → result.hi ≡ (slice_index_or self.now place d).hi }
    {
        self.rows[place].enclosure
    }

    /// The least number of them, from the first on, whose lower bounds total at least the coverage, and the number of
    /// all where even these don't.
    pub(crate) fn fewest_lower(&self, coverage: u64) -> usize
        ensures { result ≡ fewest (λ n. sum (take n (map (λ m. m.lo) self.now))) coverage (length (map (λ m. m.lo) self.now)) }
    {
        fewest_lower(&self.rows, coverage)
    }

    /// What the lower bounds of those total whose upper bound is above a threshold.
    pub(crate) fn lower_total_above(&self, threshold: u64) -> u128
        ensures { result ≡ sum_by (λ m. m.lo) (filter (λ m. nat_lt threshold m.hi) self.now) }
    {
        lower_total_above(&self.rows, threshold)
    }

    /// Drops those whose upper bound isn't above a threshold.
    pub(crate) fn retain_above(&mut self, threshold: u64)
        ensures { self.new ≡ filter (λ m. nat_lt threshold m.hi) self.old }
    {
        self.rows.retain(|row| row.enclosure.hi > threshold);
    }

    /// The upper bounds of all, the greatest first.
    pub(crate) fn greatest_upper_bounds(&self, alloc: Global) -> Result<Vec<u64>, AllocError>
        ensures { IfOk result (λ bounds. bounds.items ≡ sorted_by (λ a b. nat_lt b a) (map (λ m. m.hi) self.now)) }
    {
        let mut bounds: Vec<u64> = self.rows.iter().map(|row| row.enclosure.hi).collect(alloc)?;
        sort_falling(&mut bounds);
        Ok(bounds)
    }
}

ghost use Rattle.std.specs.Prelude.{◌≡◌, ◌^◌, ◌<◌, sum};
ghost use Rattle.std.specs.List.Sorted.{IsPermutation, IsSortedBy};
ghost use Rattle.std.specs.Ordering.{is_lt};
ghost use Rattle.reaching_layer.specs.MemberRows.{row_counts, row_stands_before};

/// The counts of a row of so many.
fn row_counts(counts: &[u32], width: usize, row: MemberRow) -> &[u32]
    ensures { result.now ≡ row_counts counts.now width row }
{
    let rest = &counts[row.start.min(counts.len())..];
    &rest[..width.min(rest.len())]
}

/// Sorts rows by falling lower bound, ties in lexicographic order of their counts.
fn sort_rows(counts: &[u32], width: usize, rows: &mut Vec<MemberRow>)
    ensures same_rows { IsPermutation rows.old.items rows.new.items }
    ensures in_order { IsSortedBy (row_stands_before counts.now width) rows.new.items }
{
    rows.sort_unstable_by(|a, b| compared(counts, width, *a, *b));
}

/// How two rows stand in the cover's order. Only counts of equal lower bounds are looked at.
fn compared(counts: &[u32], width: usize, a: MemberRow, b: MemberRow) -> Ordering
    ensures { is_lt result ≡ row_stands_before counts.now width a b }
{
    if a.enclosure.lo != b.enclosure.lo {
        return b.enclosure.lo.cmp(&a.enclosure.lo);
    }
    row_counts(counts, width, a).cmp(row_counts(counts, width, b))
}

/// The sum of these numbers.
fn total_of(numbers: &[usize]) -> usize
    requires { sum numbers.now < 2 ^ 64 }
    ensures { result ≡ sum numbers.now }
{
    let mut total = 0;
    for number in numbers {
        total += *number;
    }
    total
}
