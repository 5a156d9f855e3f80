//! What holds of the formulas of a peak, as a law over definitions alone.
ghost use Rattle.std.specs.Prelude.{ℕ};
ghost use Rattle.candidates.specs.Grounds.{GroundValue};
ghost use Rattle.candidates.specs.PeakFormulas.{formulas_of_peak};
ghost use Rattle.peak_formulas.specs.PeakClaims.{AreAllOfPeak};

/// States which formulas a peak has, and does nothing. On whatever premises, the count lists of its candidates are exactly
/// those of formulas with an ion within tolerance of the m/z by its exact mass that meet the rules, and they stand in
/// lexicographic order, so that none stands twice.
pub fn peak_laws()
    ensures { (premises : GroundValue) (mz : ℕ) → AreAllOfPeak premises mz (formulas_of_peak premises mz) }
{}
