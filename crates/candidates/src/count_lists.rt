//! Count lists that are kept.
ghost use Rattle.std.specs.Prelude.{◌≡◌, ◌+◌, ◌<◌, ◌≤◌, ◌++◌, [], drop, get_or, length, take, All, OnOk};

use std::alloc::AllocError;
use std::marker::Model;

/// The most atoms of one item that a kept list may have.
const MAX_KEPT_COUNT: u32 = u16::MAX as u32;

/// Count lists of equal length, kept end to end in 2 bytes a count. They are seen as the list of these lists.
#[derive(Debug, Drop)]
pub struct CountLists {
    pub(crate) width: usize,
    pub(crate) many: usize,
    pub(crate) counts: Vec<u16>,
}

impl Model for CountLists {
    ghost use Rattle.std.specs.Prelude.{◌≡◌, ◌*◌, ℕ, List, length};
    ghost use Rattle.candidates.specs.KeptLists.{lists_in};

    ghost Value = { List (List ℕ) };

    ghost view = { λ lists. lists_in lists.many lists.width lists.counts.items };

    ghost invariant = { λ lists. length lists.counts.items ≡ lists.many * lists.width };
}

impl CountLists {
    /// How many lists there are.
    pub fn len(&self) -> usize
        ensures { result ≡ length self.now }
    {
        self.many
    }

    /// How many counts each list has.
    pub fn width(&self) -> usize
        ensures { All (λ counts. length counts ≡ result) self.now }
    {
        self.width
    }

    /// Writes the list at a place into `counts`, which has as many. Takes no memory.
    pub fn write_list(&self, place: usize, counts: &mut [u32])
        requires place { place < length self.now }
        requires length { length counts.old ≡ length (get_or self.now place []) }
        ensures { counts.new ≡ get_or self.now place [] }
    {
        let kept = self.counts.as_slice();
        write_counts(part_of(kept, place * self.width, self.width), counts);
    }
}

/// So many counts from a place on.
fn part_of(counts: &[u16], start: usize, many: usize) -> &[u16]
    requires { start + many ≤ length counts.now }
    ensures { result.now ≡ take many (drop start counts.now) }
{
    &counts[start..start + many]
}

/// Writes kept counts, one for each.
fn write_counts(kept: &[u16], counts: &mut [u32])
    requires { length counts.old ≡ length kept.now }
    ensures { counts.new ≡ kept.now }
{
    for (place, count) in kept.iter().enumerate() {
        counts[place] = u32::from(*count);
    }
}

/// Appends counts to those that are kept.
pub(crate) fn push_counts(kept: &mut Vec<u16>, counts: &[u32]) -> Result<(), AllocError>
    requires { All (λ count. count ≤ MAX_KEPT_COUNT) counts.now }
    ensures { OnOk result (kept.new.items ≡ kept.old.items ++ counts.now) }
{
    for count in counts {
        kept.push(*count as u16)?;
    }
    Ok(())
}
