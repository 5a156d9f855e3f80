//! The masses of an alphabet, as the search takes them.
ghost use Rattle.std.specs.Prelude.{◌≡◌, ◌<◌, ◌≤◌, ◌↔◌, IfOk, OnOk, IsErrOf};
ghost use Rattle.mass_scaling.specs.Masses.{AreMasses, base_of};

use mass_scaling::{MAX_BASE_MASS, Scale, ScaleFault, scale_of};
use residue_table::Residues;
use std::alloc::{AllocError, Global};
use std::marker::Model;

/// What the search for count lists knows of an alphabet: its masses, its scale, and the table of
/// residues of the scaled masses. It is seen as the masses of its symbols, in 10^-12 Da, falling or equal.
#[derive(Debug, Drop)]
pub struct Tables {
    pub(crate) masses: Vec<u64>,
    pub(crate) scale: Scale,
    pub(crate) residues: Residues,
}

impl Model for Tables {
    ghost use Rattle.std.specs.Prelude.{ℕ, List};
    ghost use Rattle.decompose.specs.Probes.{AreTables};

    ghost Value = { List ℕ };

    ghost view = { λ t. t.masses.items };

    ghost invariant = { λ t. AreTables t.masses.items t.scale t.residues };
}

impl Tables {
    /// The tables of an alphabet of these masses, in 10^-12 Da: 1 to 20 masses, falling or equal,
    /// each from 0.5 Da to 1,000,000 Da.
    ///
    /// `BaseTooHeavy` exactly where the last mass is above 400 Da.
    pub fn of(alloc: Global, masses: &[u64]) -> Result<Tables, ScaleFault>
        requires { AreMasses masses.now }
        ensures masses { IfOk result (λ t. t ≡ masses.now) }
        ensures light_enough { OnOk result (base_of masses.now ≤ MAX_BASE_MASS) }
        ensures too_heavy { IsErrOf result ScaleFault.BaseTooHeavy ↔ (MAX_BASE_MASS < base_of masses.now) }
    {
        let scale = scale_of(alloc, masses)?;
        let residues = Residues::build(alloc, scale.scaled())?;
        let masses = masses.to_vec(alloc)?;
        Ok(Tables {
            masses,
            scale,
            residues,
        })
    }
}
