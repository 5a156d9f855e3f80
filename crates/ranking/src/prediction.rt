//! The prediction of an ion.

use crate::electrons::electrons_of;
use element_table::Table;
use formula_text::Formula;
use isotopologue_text::{IsotopeMasses, elements_of};
use mass_scaling::Tolerance;
use peak_text::Peaks;
use prediction_score::Predicted;
use reaching_layer::{CoverFault, GrownLists, ReachingLayer, reaching_layer_with};
use std::alloc::{AllocError, Global};
use std::marker::Model;

/// The prediction of an ion: the members of its cover by the masses that a spectrum shows, and the cover's size and
/// bound.
#[derive(Debug, Drop)]
pub struct Prediction {
    size: u64,
    bound: u64,
    members: Vec<Predicted>,
}

impl Model for Prediction {
    ghost use Rattle.prediction_score.specs.Scores.{ArePredicted};
    ghost use Rattle.ranking.specs.Predictions.{PredictionEntries};

    ghost Value = { PredictionEntries };

    ghost view = { λ p. record { size = p.size; bound = p.bound; members = p.members.items } };

    ghost invariant = { λ p. ArePredicted p.members.items };
}

impl Prediction {
    ghost use Rattle.std.specs.Prelude.{◌≡◌};
    ghost use Rattle.prediction_score.specs.Scores.{ArePredicted};

    /// How many members the cover has.
    pub fn size(&self) -> u64
        ensures { result ≡ self.now.size }
    {
        self.size
    }

    /// A number such that no set of fewer isotopologues of the ion has the coverage.
    pub fn bound(&self) -> u64
        ensures { result ≡ self.now.bound }
    {
        self.bound
    }

    /// The members of the cover in its order. Their masses are from 1 to 9*10^18 and their lower bounds total at most
    /// 10^18.
    pub fn members(&self) -> &[Predicted]
        ensures members { result.now ≡ self.now.members }
        ensures predicted { ArePredicted self.now.members }
    {
        &self.members
    }
}

ghost use Rattle.std.specs.Prelude.{◌≡◌, ◌*◌, ◌^◌, ◌≤◌, All, IfOk, map, take, sum_by, unsigned_abs};
ghost use Rattle.reader_answers.specs.Answers.{Gives};
ghost use Rattle.multinomial_bounds.specs.Isotopologue.{IsIsotopologue};
ghost use Rattle.reaching_layer.specs.LayerAnswers.{is_memory};
ghost use Rattle.formula_text.specs.Formulas.{IsFormula};
ghost use Rattle.formula_text.specs.Masses.{HasItems};
ghost use Rattle.isotopologue_text.specs.Isotopologues.{formula_elements};
ghost use Rattle.prediction_score.specs.Scores.{ArePredicted, AreTerms, IsPredicted, score_of};
ghost use Rattle.ranking.specs.Predictions.{electrons_of, predicted_member, prediction_unless_too_many};

/// The prediction of an ion of a charge from -30 to 30 for a wanted coverage in units of 10^-18, from 1 to
/// 999,999 * 10^12: the members of the ion's cover, the mass of as many electrons as the charge says taken off each.
///
/// `TooMany` comes exactly where a layer has more than 1,048,576 members and none before it has the coverage; its
/// threshold is that of this layer. `Memory` comes for want of memory.
pub fn predict(
    alloc: Global,
    table: &Table,
    ion: &Formula,
    charge: i32,
    coverage: u64,
) -> Result<Prediction, CoverFault>
    requires known { HasItems table.now ion.now }
    requires few_charges { unsigned_abs charge ≤ 30 }
    requires some { 1 ≤ coverage }
    requires below_one { coverage ≤ 999999 * 10 ^ 12 }
    ensures prediction { Gives is_memory result
        (prediction_unless_too_many table.now ion.now charge coverage) }
    ensures predicted { IfOk result (λ p. ArePredicted p.members) }
{
    predict_with(
        alloc,
        table,
        ion,
        charge,
        coverage,
        &mut GrownLists::of_none(alloc),
    )
}

/// The same, which begins with the lists of elements that an earlier one kept, and keeps those of its own.
pub(crate) fn predict_with(
    alloc: Global,
    table: &Table,
    ion: &Formula,
    charge: i32,
    coverage: u64,
    kept: &mut GrownLists,
) -> Result<Prediction, CoverFault>
    requires known { HasItems table.now ion.now }
    requires few_charges { unsigned_abs charge ≤ 30 }
    requires some { 1 ≤ coverage }
    requires below_one { coverage ≤ 999999 * 10 ^ 12 }
    ensures prediction { Gives is_memory result
        (prediction_unless_too_many table.now ion.now charge coverage) }
    ensures predicted { IfOk result (λ p. ArePredicted p.members) }
{
    // An ion has 1 to 20,000 atoms, so each mass is in range.
    let _atoms = ion.atoms();
    let elements = elements_of(alloc, table, ion)?;
    let layer = reaching_layer_with(alloc, &elements, coverage, kept)?;
    Ok(Prediction {
        size: layer.size() as u64,
        bound: layer.bound() as u64,
        members: members_of(alloc, table, ion, charge, &layer)?,
    })
}

/// The members of the cover of an ion's elements, by the masses that a spectrum shows.
fn members_of(
    alloc: Global,
    table: &Table,
    ion: &Formula,
    charge: i32,
    layer: &ReachingLayer,
) -> Result<Vec<Predicted>, AllocError>
    requires formula { IsFormula ion.now }
    requires known { HasItems table.now ion.now }
    requires few_charges { unsigned_abs charge ≤ 30 }
    requires isotopologues { All (λ m. IsIsotopologue (formula_elements table.now ion.now) m.counts) layer.now.members }
    ensures members { IfOk result (λ members. members.items
        ≡ map (predicted_member table.now ion.now charge) (take layer.now.size layer.now.members)) }
    ensures masses { IfOk result (λ members. All IsPredicted members.items) }
{
    let masses = IsotopeMasses::of(alloc, table, ion)?;
    let electrons = electrons_of(table, charge);
    let mut members = Vec::with_capacity(alloc, layer.size())?;
    for place in 0..layer.size() {
        let counts = layer.counts(place);
        let mass = masses.mass(counts);
        let enclosure = layer.enclosure(place);
        members.push(Predicted {
            mass: i128::from(mass) - electrons,
            lo: enclosure.lo,
        })?;
    }
    Ok(members)
}

/// The score of a prediction against a peak list, with a divisor from 1 to 30, in units of 10^-18; smaller is better.
/// It fails only for want of memory.
pub fn score(
    alloc: Global,
    prediction: &Prediction,
    divisor: u32,
    peaks: &Peaks,
    tolerance: Tolerance,
) -> Result<u64, AllocError>
    requires { AreTerms divisor tolerance }
    ensures { IfOk result (λ score. score ≡ score_of peaks.now divisor tolerance prediction.now.members) }
{
    prediction_score::score(alloc, prediction.members(), divisor, peaks, tolerance)
}
