//! Values that come from outside: the worked reports as JSON, and that each call succeeds with ample memory.
ghost use Rattle.std.specs.Prelude.{All, IsTrue, pos, ◌+ℤ◌};
ghost use Rattle.report_lines.specs.ReportLines.{IsPrintedMass, IsPrintedWith, cover_members};

use super::*;
use adducts::{ion_of, read_adduct};
use cover_certificate::{Cover, cover_of};
use element_table::read_table;
use formula_text::read_formula;
use std::alloc::Global;
use std::process::Abort;
use std::test::Fail;

const ALIKE: &[u8] = b"symbol,number,mass,abundance,valence
e-,0,0.000548579909,0,0
A,10,10,1,1
B,10,10.00001,1,1
";

const HALVES: &[u8] = b"symbol,number,mass,abundance,valence
e-,0,0.000548579909,0,0
X,10,10,0.5,1
X,11,11,0.5,1
";

#[test]
fn the_formulas_of_a_peak_are_those_of_the_worked_report(rt: HostRuntime) -> Result<(), Fail> {
    let alloc = rt.alloc();
    let table = read_table(alloc, ALIKE)?;
    let adduct = read_adduct(alloc, &table, b"M")?;
    assert!(rt; adduct.added().is_of(&table));
    assert!(rt; adduct.lost().is_of(&table));
    let first = read_formula(alloc, &table, b"A")?;
    assert!(rt; first.is_of(&table));
    let ion = ion_of(alloc, &first, &adduct)?;
    assert!(rt; ion.is_some());
    let second = read_formula(alloc, &table, b"B")?;
    assert!(rt; second.is_of(&table));
    let ion = ion_of(alloc, &second, &adduct)?;
    assert!(rt; ion.is_some());
    let formulas = [first, second];
    let mut report = Report::decompose(alloc);
    report.add_peak(alloc, &table, &adduct, 10_000_000_000_000, &formulas)?;
    let text = json_text(alloc, &report)?;
    let expected = b"{\"peaks\":[{\"formulas\":[{\"delta\":\"0\",\"formula\":\"A\",\
        \"ion\":\"10.000000000000\",\"mass\":\"10.000000000000\"},{\"delta\":\"10000000\",\
        \"formula\":\"B\",\"ion\":\"10.000010000000\",\"mass\":\"10.000010000000\"}],\
        \"mz\":\"10.000000000000\",\"peak\":1}]}\n";
    assert_eq!(rt; text.as_slice(), expected.as_slice());
    Ok(())
}

#[test]
fn a_report_of_no_peak_is_an_empty_list(rt: HostRuntime) -> Result<(), Fail> {
    let alloc = rt.alloc();
    let text = json_text(alloc, &Report::decompose(alloc))?;
    assert_eq!(rt; text.as_slice(), b"{\"peaks\":[]}\n".as_slice());
    Ok(())
}

/// Whether a mass is one that is printed, as each is that fits 64 bits.
fn is_printed(mass: u64) -> bool
    ensures { IsTrue result → IsPrintedMass (pos mass +ℤ pos 0) }
{
    mass <= u64::MAX
}

/// Whether the masses of a cover's members are printed.
fn are_printed(cover: &Cover) -> bool
    ensures { IsTrue result → All (IsPrintedWith (pos 0)) (cover_members cover.now) }
{
    let (members, _) = cover.layer().split_at(cover.size() as usize);
    members.iter().all(|member| is_printed(member.mass()))
}

#[test]
fn a_cover_is_that_of_the_worked_report(rt: HostRuntime) -> Result<(), Fail> {
    let alloc = rt.alloc();
    let table = read_table(alloc, HALVES)?;
    let formula = read_formula(alloc, &table, b"X2")?;
    assert!(rt; formula.is_of(&table));
    let cover = cover_of(alloc, &table, &formula, 500_000_000_000_000_000)?;
    assert!(rt; are_printed(&cover));
    let text = json_text(alloc, &Report::envelope(alloc, &cover, 0)?)?;
    let expected = b"{\"bound\":1,\"coverage\":\"500000000000000000\",\"formula\":\"X2\",\
        \"isotopologues\":[{\"hi\":\"500000000000000000\",\
        \"isotopologue\":\"[10X][11X]\",\"lo\":\"500000000000000000\",\
        \"mass\":\"21.000000000000\"}],\"size\":1,\"threshold\":\"250000000000000000\"}\n";
    assert_eq!(rt; text.as_slice(), expected.as_slice());
    Ok(())
}

#[test]
fn jobs_without_a_turn_are_open(rt: HostRuntime) -> Result<(), Fail> {
    let alloc = rt.alloc();
    let mut report = Report::rank(alloc);
    report.add_job(alloc, 1, 10_000_000_000_000, false, &[])?;
    report.add_job(alloc, 2, 20_000_000_000_000, false, &[])?;
    let text = json_text(alloc, &report)?;
    let expected = b"{\"jobs\":[{\"count\":0,\"done\":false,\"mz\":\"10.000000000000\",\"peak\":1,\
        \"places\":[]},{\"count\":0,\"done\":false,\"mz\":\"20.000000000000\",\"peak\":2,\
        \"places\":[]}]}\n";
    assert_eq!(rt; text.as_slice(), expected.as_slice());
    Ok(())
}

#[test]
fn lines_of_jobs_are_those_of_the_worked_report(rt: HostRuntime) -> Result<(), Fail> {
    let alloc = rt.alloc();
    let mut report = rank_head(alloc, 2)?;
    report.extend_from_slice(&rank_text(alloc, 1, 10_000_000_000_000, false, &[])?)?;
    report.extend_from_slice(&rank_text(alloc, 2, 20_000_000_000_000, true, &[])?)?;
    let expected = b"rank 2
job 1 10.000000000000 open 0
job 2 20.000000000000 done 0
";
    assert_eq!(rt; report.as_slice(), expected.as_slice());
    Ok(())
}
