//! Counts of one element's isotopes with their enclosure.

use multinomial_bounds::{Enclosure, MAX_ATOMS};
use std::marker::Model;

/// The most isotopes of an element.
pub const MAX_ISOTOPES: usize = 16;

/// A subisotopologue: counts of one element's isotopes with the enclosure of their probability. The counts stand in the
/// item itself, so that a list of them is one piece of memory.
#[derive(Drop)]
pub struct SubIso {
    counts: [u32; MAX_ISOTOPES],
    isotopes: usize,
    enclosure: Enclosure,
}

impl Model for SubIso {
    ghost use Rattle.std.specs.Prelude.{◌≤◌, take};
    ghost use Rattle.sub_isotopologues.specs.SubIsotopologues.{SubIsotopologue};

    ghost Value = { SubIsotopologue };

    ghost view = { λ s. record { counts = take s.isotopes s.counts; lo = s.enclosure.lo; hi = s.enclosure.hi } };

    ghost invariant = { λ s. s.isotopes ≤ 16 };
}

impl SubIso {
    ghost use Rattle.std.specs.Prelude.{◌≡◌, ◌≢◌, ◌<◌, ◌≤◌, length, slice_index};
    ghost use Rattle.sub_isotopologues.specs.Children.{moved};

    /// These counts, of at most 16 isotopes, with this enclosure.
    pub(crate) fn new(counts: &[u32], enclosure: Enclosure) -> SubIso
        requires { length counts.now ≤ MAX_ISOTOPES }
        ensures { result ≡ record { counts = counts.now; lo = enclosure.lo; hi = enclosure.hi } }
    {
        let mut room = [0; MAX_ISOTOPES];
        for (place, count) in counts.iter().enumerate() {
            room[place] = *count;
        }
        SubIso {
            counts: room,
            isotopes: counts.len(),
            enclosure,
        }
    }

    /// These counts where one isotope gains an atom that another one loses, with this enclosure.
    pub(crate) fn moved(counts: &[u32], gain: usize, lose: usize, enclosure: Enclosure) -> SubIso
        requires few_isotopes { length counts.now ≤ MAX_ISOTOPES }
        requires gain_within { gain < length counts.now }
        requires lose_within { lose < length counts.now }
        requires apart { gain ≢ lose }
        requires has_atom { 1 ≤ slice_index counts.now lose }
        requires room { slice_index counts.now gain ≤ MAX_ATOMS }
        ensures { result ≡ record { counts = moved counts.now gain lose; lo = enclosure.lo; hi = enclosure.hi } }
    {
        let mut item = SubIso::new(counts, enclosure);
        item.counts[lose] -= 1;
        item.counts[gain] += 1;
        item
    }

    /// The counts of the isotopes, by rising mass number.
    pub fn counts(&self) -> &[u32]
        ensures { result.now ≡ self.now.counts }
    {
        &self.counts[..self.isotopes]
    }

    /// The enclosure of their probability, in units of 10^-18.
    pub fn enclosure(&self) -> Enclosure
        ensures lo { result.lo ≡ self.now.lo }
        ensures hi { result.hi ≡ self.now.hi }
    {
        self.enclosure
    }
}
