//! An adduct.
ghost use Rattle.std.specs.Prelude.{◌≡◌, ◌*◌, ◌≤◌, pos, ◌*ℤ◌, unsigned_abs};
ghost use Rattle.element_table.specs.Limits.{max_electron_mass};
ghost use Rattle.element_table.specs.Elements.{IsTable};
ghost use Rattle.formula_text.specs.Masses.{HasItems};
ghost use Rattle.mass_scaling.specs.declared.limits.TheConstants.{MAX_COPIES, MAX_DIVISOR};
ghost use Rattle.mass_scaling.specs.Limits.{IsCharged, IsIonMass};
ghost use Rattle.adducts.specs.Adducts.{IsAdduct, divisor_of};
ghost use Rattle.adducts.specs.Ions.{shift_of};

use element_table::Table;
use formula_text::Parts;
use mass_scaling::Charged;
use std::alloc::AllocError;
use std::marker::Model;

/// What an ion has beside copies of a formula: atoms that are added and atoms that are lost, and a charge. Contracts
/// see these four.
#[derive(Debug, Drop)]
pub struct Adduct {
    copies: u32,
    added: Parts,
    lost: Parts,
    charge: i32,
}

impl Model for Adduct {
    ghost use Rattle.adducts.specs.Adducts.{AdductValue, IsAdduct};

    ghost Value = { AdductValue };

    ghost view = { λ a. record { copies = a.copies; added = a.added; lost = a.lost; charge = a.charge } };

    ghost invariant = { λ a. IsAdduct (record { copies = a.copies; added = a.added; lost = a.lost; charge = a.charge }) };
}

impl Adduct {
    /// The adduct of 1 to 4 copies and at most 30 charges.
    pub(crate) fn new(copies: u32, added: Parts, lost: Parts, charge: i32) -> Adduct
        requires some_copies { 1 ≤ copies }
        requires few_copies { copies ≤ MAX_COPIES }
        requires few_charges { unsigned_abs charge ≤ MAX_DIVISOR }
        ensures { result ≡ record { copies = copies; added = added; lost = lost; charge = charge } }
    {
        Adduct {
            copies,
            added,
            lost,
            charge,
        }
    }

    /// How many copies of the formula an ion has, 1 to 4.
    pub fn copies(&self) -> u32
        ensures copies { result ≡ self.now.copies }
        ensures adduct { IsAdduct self.now }
    {
        self.copies
    }

    /// The atoms that an ion has beside the copies.
    pub fn added(&self) -> &Parts
        ensures added { result.now ≡ self.now.added }
        ensures adduct { IsAdduct self.now }
    {
        &self.added
    }

    /// The atoms that an ion lacks.
    pub fn lost(&self) -> &Parts
        ensures lost { result.now ≡ self.now.lost }
        ensures adduct { IsAdduct self.now }
    {
        &self.lost
    }

    /// The charge of an ion, -30 to 30, and 0 for the neutral adduct alone.
    pub fn charge(&self) -> i32
        ensures charge { result ≡ self.now.charge }
        ensures adduct { IsAdduct self.now }
    {
        self.charge
    }

    /// The number of charges, 1 to 30, and 1 for the neutral adduct.
    pub fn divisor(&self) -> u32
        ensures divisor { result ≡ divisor_of self.now }
        ensures adduct { IsAdduct self.now }
    {
        self.charge.unsigned_abs().max(1)
    }

    /// What the adduct adds to the mass of the copies, in 10^-12 Da: the mass added, less the mass lost, less charge
    /// times electron. The table has each item.
    pub fn shift(&self, table: &Table) -> i128
        requires added_known { HasItems table.now self.now.added }
        requires lost_known { HasItems table.now self.now.lost }
        ensures shift { result ≡ shift_of table.now self.now }
        ensures in_range { IsIonMass result }
        ensures table { IsTable table.now }
    {
        let added = i128::from(self.added().mass(table));
        let lost = i128::from(self.lost().mass(table));
        added - lost - electron_mass(self.charge(), table.electron())
    }

    /// The ions of the adduct as a window of masses takes them. The table has each item.
    pub fn charged(&self, table: &Table) -> Charged
        requires added_known { HasItems table.now self.now.added }
        requires lost_known { HasItems table.now self.now.lost }
        ensures charged { IsCharged result }
        ensures fields { result ≡ record {
          copies = self.now.copies;
          divisor = divisor_of self.now;
          shift = shift_of table.now self.now;
        } }
        ensures adduct { IsAdduct self.now }
    {
        Charged {
            copies: self.copies(),
            divisor: self.divisor(),
            shift: self.shift(table),
        }
    }
}

/// The mass of as many electrons as a charge says, in 10^-12 Da.
fn electron_mass(charge: i32, electron: u64) -> i128
    requires few { unsigned_abs charge ≤ MAX_DIVISOR }
    requires light { electron ≤ max_electron_mass }
    ensures mass { result ≡ charge *ℤ pos electron }
    ensures small { unsigned_abs result ≤ MAX_DIVISOR * max_electron_mass }
{
    i128::from(charge) * i128::from(electron)
}

impl Clone for Adduct {
    ghost is_clone = { λ adduct copy. copy ≡ adduct };

    fn clone(&self) -> Result<Adduct, AllocError> {
        Ok(Adduct {
            copies: self.copies,
            added: self.added.clone()?,
            lost: self.lost.clone()?,
            charge: self.charge,
        })
    }
}
