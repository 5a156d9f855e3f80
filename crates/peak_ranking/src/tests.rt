//! Turns of a worked peak list, and that calls succeed with ample memory.

use super::*;
use adducts::read_adduct;
use alphabet_text::read_alphabet;
use candidates::Ground;
use element_table::read_table;
use formula_text::{Formula, read_formula};
use golden_rules::Rules;
use mass_scaling::Tolerance;
use peak_text::Peaks;
use prediction_score::PeakOrder;
use std::alloc::Global;
use std::process::Abort;
use std::test::Fail;

const ELEMENTS: &[u8] = b"symbol,number,mass,abundance,valence
e-,0,0.000548579909,0,0
X,10,10,0.5,1
X,11,11,0.5,1
Y,10,10.00001,1,1
Z,10,10.00002,1,1
";

const COVERAGE: u64 = 900_000_000_000_000_000;

/// The candidates of a peak at 10 Da, which are X, Y and Z, and of one at 11 Da, which has none. The cover of X has two
/// members, the others have one; Y and Z have a better score than X.
fn ranking_of(
    rt: &impl Abort,
    alloc: Global,
    turn: u64,
    turns: Option<u64>,
) -> Result<PeakRanking, Fail> {
    assert!(rt; turn >= 1);
    let table = read_table(alloc, ELEMENTS)?;
    let alphabet = read_alphabet(alloc, &table, b"XYZ")?;
    let adduct = read_adduct(alloc, &table, b"M")?;
    let tolerance = Tolerance::Da { units: 30_000_000 };
    let premises = Ground::of(
        alloc,
        table,
        alphabet,
        adduct,
        tolerance,
        Rules::none(alloc),
    )?;
    let pairs = [(10_000_000_000_000, 1), (11_000_000_000_000, 3)];
    let peaks = Peaks::of(alloc, &pairs)?.expect(rt, "peaks");
    assert_eq!(rt; peaks.mz().len(), 2);
    Ok(PeakRanking::of(premises, peaks, (0, 2), COVERAGE, turn, turns))
}

/// The formulas of two texts.
fn formulas_of(alloc: Global, texts: [&[u8]; 2]) -> Result<Vec<Formula>, Fail> {
    let table = read_table(alloc, ELEMENTS)?;
    let mut formulas = Vec::new(alloc);
    for text in texts {
        formulas.push(read_formula(alloc, &table, text)?)?;
    }
    Ok(formulas)
}

fn expect_job(rt: &impl Abort, ranked: &RankedPeaks<'_>, job: usize, found: usize, is_done: bool) {
    assert!(rt; job < ranked.job_count());
    assert_eq!(rt; ranked.found(job).len(), found);
    assert_eq!(rt; ranked.is_done(job), is_done);
}

fn expect_counts(rt: &impl Abort, ranked: &RankedPeaks<'_>, candidates: u128, members: u128) {
    assert_eq!(rt; ranked.candidate_count(), candidates);
    assert_eq!(rt; ranked.member_count(), members);
}

fn expect_made(
    rt: &impl Abort,
    alloc: Global,
    ranked: &RankedPeaks<'_>,
    texts: [&[u8]; 2],
    found: u64,
    first: u64,
) -> Result<(), Fail> {
    let formulas = formulas_of(alloc, texts)?;
    assert_eq!(rt; formulas.len(), ranked.job_count());
    assert_eq!(rt; ranked.found_count(&formulas), found);
    assert_eq!(rt; ranked.first_count(alloc, &formulas)?, first);
    Ok(())
}

fn expect_tallies(rt: &impl Abort, alloc: Global, ranked: &RankedPeaks<'_>) -> Result<(), Fail> {
    expect_made(rt, alloc, ranked, [b"X", b"X"], 1, 0)?;
    expect_made(rt, alloc, ranked, [b"Y", b"X"], 1, 1)?;
    expect_made(rt, alloc, ranked, [b"X2", b"X"], 0, 0)
}

#[test]
fn peaks_are_ranked_in_turns(rt: HostRuntime) -> Result<(), Fail> {
    let alloc = rt.alloc();
    let ranking = ranking_of(&rt, alloc, 1, Some(3))?;
    let order = PeakOrder::of(alloc, ranking.peaks())?;
    let ranked = ranking.play(alloc, &order)?;
    expect_job(&rt, &ranked, 0, 2, false);
    expect_job(&rt, &ranked, 1, 0, true);
    expect_counts(&rt, &ranked, 2, 3);
    Ok(())
}

#[test]
fn made_formulas_are_found(rt: HostRuntime) -> Result<(), Fail> {
    let alloc = rt.alloc();
    let ranking = ranking_of(&rt, alloc, 64, None)?;
    let order = PeakOrder::of(alloc, ranking.peaks())?;
    let ranked = ranking.play(alloc, &order)?;
    expect_counts(&rt, &ranked, 3, 4);
    expect_tallies(&rt, alloc, &ranked)
}
