//! The electrons that an ion lacks.
ghost use Rattle.std.specs.Prelude.{◌≡◌, ◌≤◌, unsigned_abs};
ghost use Rattle.element_table.specs.Elements.{IsTable};
ghost use Rattle.ranking.specs.Predictions.{electrons_of};

use element_table::Table;

/// The mass of as many electrons as a charge says, in 10^-12 Da.
pub(crate) fn electrons_of(table: &Table, charge: i32) -> i128
    requires { unsigned_abs charge ≤ 30 }
    ensures mass { result ≡ electrons_of table.now charge }
    ensures light { unsigned_abs result ≤ 30000000000 }
    ensures table { IsTable table.now }
{
    i128::from(charge) * i128::from(table.electron())
}
