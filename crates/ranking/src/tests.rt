//! The ranking of a worked peak list, as a call and as a job, and the words of faults.

use super::*;
use adducts::read_adduct;
use alphabet_text::read_alphabet;
use candidates::Ground;
use element_table::{Table, read_table};
use formula_text::read_formula;
use golden_rules::read_rules;
use job_turns::Job;
use mass_scaling::Tolerance;
use peak_text::Peaks;
use prediction_score::PeakOrder;
use std::alloc::Global;
use std::process::Abort;
use std::test::Fail;

const ELEMENTS: &[u8] = b"symbol,number,mass,abundance,valence
e-,0,0.000548579909,0,0
X,10,10,0.5,1
X,11,11,0.5,1
Y,10,10.00001,1,1
Z,10,10.00002,1,1
";

const COVERAGE: u64 = 900_000_000_000_000_000;

/// The score of X, whose members at 10 and at 11 Da have 1/2 each, while of the intensities of their peaks 1/4 is at 10
/// and 3/4 at 11 Da.
const HALF: u64 = 500_000_000_000_000_000;

fn ground_of(alloc: Global) -> Result<Ground, Fail> {
    let table = read_table(alloc, ELEMENTS)?;
    let alphabet = read_alphabet(alloc, &table, b"XYZ")?;
    let adduct = read_adduct(alloc, &table, b"M")?;
    let rules = read_rules(alloc, &table, b"")?;
    let tolerance = Tolerance::Da { units: 30_000_000 };
    Ok(Ground::of(alloc, table, alphabet, adduct, tolerance, rules)?)
}

fn peaks_of(rt: &impl Abort, alloc: Global) -> Result<Peaks, Fail> {
    let pairs = [(10_000_000_000_000, 1), (11_000_000_000_000, 3)];
    Ok(Peaks::of(alloc, &pairs)?.expect(rt, "peaks"))
}

/// A candidate as it is to be ranked: its printed formula, its score, and how many members its cover has. No smaller set
/// has the coverage.
#[derive(Clone, Copy)]
struct Expected {
    text: &'static [u8],
    score: u64,
    members: u64,
}

const X: Expected = Expected {
    text: b"X",
    score: HALF,
    members: 2,
};

const Y: Expected = Expected {
    text: b"Y",
    score: 0,
    members: 1,
};

const Z: Expected = Expected {
    text: b"Z",
    score: 0,
    members: 1,
};

fn expect_ranked(rt: &impl Abort, ranked: &Ranked, expected: Expected) -> Result<(), Fail> {
    let printed = ranked.formula().print()?;
    assert_eq!(rt; printed.as_slice(), expected.text);
    assert_eq!(rt; ranked.score(), expected.score);
    assert_eq!(rt; ranked.size(), expected.members);
    assert_eq!(rt; ranked.bound(), expected.members);
    Ok(())
}

fn ranked_peak(
    rt: &impl Abort,
    alloc: Global,
    premises: &Ground,
    peaks: &Peaks,
) -> Result<Vec<Ranked>, Fail> {
    assert_eq!(rt; peaks.mz().len(), 2);
    Ok(rank(alloc, premises, peaks, 0, COVERAGE)?)
}

fn expect_ranking(rt: &impl Abort, alloc: Global, found: &[Ranked]) -> Result<(), Fail> {
    assert_eq!(rt; found.len(), 3);
    for (ranked, expected) in found.iter().zip([Y, Z, X]) {
        expect_ranked(rt, ranked, expected)?;
    }
    let places = in_places(alloc, found)?;
    assert_eq!(rt; places.as_slice(), [0, 1, 2].as_slice());
    Ok(())
}

#[test]
fn candidates_stand_by_score_and_ties_in_their_order(rt: HostRuntime) -> Result<(), Fail> {
    let alloc = rt.alloc();
    let premises = ground_of(alloc)?;
    let peaks = peaks_of(&rt, alloc)?;
    let found = ranked_peak(&rt, alloc, &premises, &peaks)?;
    expect_ranking(&rt, alloc, &found)
}

fn expect_next(rt: &impl Abort, job: &mut RankJob<'_>, expected: Expected) -> Result<(), Fail> {
    let ranked = job.next()?.ok_or("a candidate")?;
    expect_ranked(rt, &ranked, expected)
}

fn expect_end(rt: &impl Abort, job: &mut RankJob<'_>) -> Result<(), Fail> {
    assert!(rt; job.next()?.is_none());
    Ok(())
}

/// Takes all candidates of a job and two times more.
fn expect_all(rt: &impl Abort, job: &mut RankJob<'_>) -> Result<(), Fail> {
    expect_next(rt, job, X)?;
    expect_next(rt, job, Y)?;
    expect_next(rt, job, Z)?;
    expect_end(rt, job)?;
    expect_end(rt, job)
}

#[test]
fn a_job_gives_the_candidates_in_their_order(rt: HostRuntime) -> Result<(), Fail> {
    let alloc = rt.alloc();
    let premises = ground_of(alloc)?;
    let peaks = peaks_of(&rt, alloc)?;
    let order = PeakOrder::of(alloc, &peaks)?;
    assert_eq!(rt; peaks.mz().len(), 2);
    let mut job = RankJob::over(alloc, &premises, &order, 0, COVERAGE)?;
    expect_all(&rt, &mut job)
}

/// Takes all candidates of a job that shares lists.
fn expect_sharing<'t>(
    rt: &impl Abort,
    alloc: Global,
    premises: &'t Ground,
    order: &'t PeakOrder<'t>,
    lists: &'t SharedLists,
) -> Result<(), Fail> {
    assert_eq!(rt; order.peaks().mz().len(), 2);
    let mut job = RankJob::sharing(alloc, premises, order, lists, 0, COVERAGE)?;
    expect_all(rt, &mut job)
}

#[test]
fn jobs_that_share_lists_give_what_each_gives_alone(rt: HostRuntime) -> Result<(), Fail> {
    let alloc = rt.alloc();
    let premises = ground_of(alloc)?;
    let peaks = peaks_of(&rt, alloc)?;
    let order = PeakOrder::of(alloc, &peaks)?;
    let lists = SharedLists::new();
    expect_sharing(&rt, alloc, &premises, &order, &lists)?;
    expect_sharing(&rt, alloc, &premises, &order, &lists)?;
    lists.clear();
    expect_sharing(&rt, alloc, &premises, &order, &lists)
}

#[test]
fn a_fault_is_told_in_words(rt: HostRuntime) -> Result<(), Fail> {
    let alloc = rt.alloc();
    let table = read_table(alloc, ELEMENTS)?;
    let formula = read_formula(alloc, &table, b"X")?;
    for (fault, words) in [
        (
            RankFault::TooMany { peak: 3 },
            "peak 3 has more than 1,048,576 candidates",
        ),
        (
            RankFault::Layer { peak: 2, formula },
            "an ion of peak 2 has a layer of more than 1,048,576 members",
        ),
        (RankFault::Memory, "out of memory"),
    ] {
        assert_eq!(rt; fault.to_string(alloc)?.as_str(), words);
    }
    Ok(())
}
