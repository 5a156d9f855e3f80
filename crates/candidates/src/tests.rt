//! The candidates of peaks, with ample memory.
ghost use Rattle.std.specs.Prelude.{◌≡◌, ◌<◌, All};
ghost use Rattle.alphabet_text.specs.Alphabets.{IsEntryOf};

use super::*;
use adducts::read_adduct;
use alphabet_text::{Alphabet, read_alphabet};
use element_table::{Table, read_table};
use formula_text::{Formula, read_formula};
use golden_rules::{Rules, read_rules};
use mass_scaling::{MAX_DA, MAX_MZ, Tolerance};
use outside_ports::Steps;
use std::alloc::Global;
use std::marker::Brand;
use std::process::Abort;
use std::sync::ledger::{Blank, Ledger};
use std::test::Fail;

const ELEMENTS: &[u8] = b"symbol,number,mass,abundance,valence
e-,0,0.000548579909,0,0
H,1,1.00782503223,0.999885,1
C,12,12,0.9893,4
C,13,13.00335483507,0.0107,4
O,16,15.99491461957,0.99757,2
A,10,10,1,1
B,10,10.00001,1,1
Na,23,22.989769282,1,1
";

/// A case: the alphabet, the adduct, the rules, the m/z, the tolerance in Da, and the candidates as they are printed.
#[derive(Drop)]
struct Case {
    alphabet: &'static [u8],
    adduct: &'static [u8],
    rules: &'static [u8],
    mz: u64,
    da: u64,
    formulas: &'static [&'static [u8]],
}

fn ground_of(alloc: Global, case: &Case) -> Result<Ground, Fail> {
    let table = read_table(alloc, ELEMENTS)?;
    ground_over(alloc, table, case)
}

fn ground_over(alloc: Global, table: Table, case: &Case) -> Result<Ground, Fail> {
    let alphabet = read_alphabet(alloc, &table, case.alphabet)?;
    ground_with(alloc, table, alphabet, case)
}

fn ground_with(alloc: Global, table: Table, alphabet: Alphabet, case: &Case) -> Result<Ground, Fail>
    requires { All (IsEntryOf table) alphabet }
{
    let adduct = read_adduct(alloc, &table, case.adduct)?;
    let rules = read_rules(alloc, &table, case.rules)?;
    let tolerance = Tolerance::Da {
        units: case.da.min(MAX_DA),
    };
    Ok(Ground::of(alloc, table, alphabet, adduct, tolerance, rules)?)
}

/// The candidates of a peak, whose m/z must be one that a peak may have.
fn started<'t>(
    rt: &impl Abort,
    alloc: Global,
    premises: &'t Ground,
    mz: u64,
) -> Result<Candidates<'t>, Fail> {
    assert!(rt; mz >= 1);
    assert!(rt; mz <= MAX_MZ);
    Ok(Candidates::start(alloc, premises, mz)?)
}

/// The candidates of a peak after a token.
fn resumed<'t>(
    rt: &impl Abort,
    alloc: Global,
    premises: &'t Ground,
    mz: u64,
    token: &Formula,
) -> Result<Candidates<'t>, Fail> {
    assert!(rt; mz >= 1);
    assert!(rt; mz <= MAX_MZ);
    Ok(Candidates::resume(alloc, premises, mz, token)?)
}

fn next_of<L: Ledger>(
    candidates: &mut Candidates<'_>,
    steps: &mut Steps<L>,
) -> Result<Option<Formula>, Fail> {
    Ok(candidates.next(steps)?)
}

fn advances<L: Ledger>(candidates: &mut Candidates<'_>, steps: &mut Steps<L>) -> bool {
    candidates.advance(steps)
}

fn has_more<L: Ledger>(
    candidates: &mut Candidates<'_>,
    limit: u64,
    steps: &mut Steps<L>,
) -> Result<bool, Fail> {
    Ok(candidates.has_more_than(limit, steps)?)
}

/// The formula that must be there, with its printed text.
fn expect_formula(rt: &impl Abort, found: Option<Formula>, text: &[u8]) -> Result<Formula, Fail> {
    let formula = found.ok_or("a formula")?;
    let printed = formula.print()?;
    assert_eq!(rt; printed.as_slice(), text);
    Ok(formula)
}

/// The token that must be there, with its printed text.
fn expect_token(
    rt: &impl Abort,
    candidates: &Candidates<'_>,
    text: &[u8],
) -> Result<Formula, Fail> {
    expect_formula(rt, candidates.token()?, text)
}

fn expect_same_token(
    rt: &impl Abort,
    candidates: &Candidates<'_>,
    token: &Formula,
) -> Result<(), Fail> {
    let again = candidates.token()?.ok_or("a token")?;
    assert_eq!(rt; again.items(), token.items());
    Ok(())
}

fn expect_no_token(rt: &impl Abort, candidates: &Candidates<'_>) -> Result<(), Fail> {
    assert!(rt; candidates.token()?.is_none());
    Ok(())
}

fn expect_end<L: Ledger>(
    rt: &impl Abort,
    candidates: &mut Candidates<'_>,
    steps: &mut Steps<L>,
) -> Result<(), Fail> {
    assert!(rt; next_of(candidates, steps)?.is_none());
    Ok(())
}

/// Whether no candidate comes after a token. It is the token of what goes on after it, too.
fn is_last<L: Ledger>(
    rt: &impl Abort,
    alloc: Global,
    premises: &Ground,
    mz: u64,
    token: &Formula,
    steps: &mut Steps<L>,
) -> Result<bool, Fail> {
    let mut rest = resumed(rt, alloc, premises, mz, token)?;
    expect_same_token(rt, &rest, token)?;
    Ok(next_of(&mut rest, steps)?.is_none())
}

/// Takes the next candidate and the token after it, and compares their printed texts.
fn expect_next<L: Ledger>(
    rt: &impl Abort,
    candidates: &mut Candidates<'_>,
    text: &[u8],
    steps: &mut Steps<L>,
) -> Result<Formula, Fail> {
    expect_formula(rt, next_of(candidates, steps)?, text)?;
    expect_token(rt, candidates, text)
}

/// Takes all candidates of a case, with the token after each, and compares their printed texts.
fn expect_all<L: Ledger>(
    rt: &impl Abort,
    alloc: Global,
    case: &Case,
    premises: &Ground,
    steps: &mut Steps<L>,
) -> Result<(), Fail> {
    let mut candidates = started(rt, alloc, premises, case.mz)?;
    expect_no_token(rt, &candidates)?;
    let mut was_last = case.formulas.is_empty();
    for text in case.formulas {
        assert!(rt; !was_last);
        let token = expect_next(rt, &mut candidates, text, steps)?;
        was_last = is_last(rt, alloc, premises, case.mz, &token, steps)?;
    }
    assert!(rt; was_last);
    expect_end(rt, &mut candidates, steps)?;
    expect_end(rt, &mut candidates, steps)
}

fn expect_with<L: Ledger>(
    rt: &impl Abort,
    alloc: Global,
    case: &Case,
    premises: &Ground,
    blank: Blank,
) -> Result<(), Fail>
    requires name { blank.name ≡ L.name }
    requires parts { blank.parts ≡ L.parts }
    requires some { 0 < blank.parts }
{
    let mut steps = Steps::<L>::new(blank);
    expect_all(rt, alloc, case, premises, &mut steps)
}

fn expect_formulas(rt: &impl Abort, alloc: Global, case: &Case) -> Result<(), Fail> {
    let premises = ground_of(alloc, case)?;
    expect_with::<Brand>(rt, alloc, case, &premises, Blank::new(1))
}

const CASES: &[Case] = &[
    Case {
        alphabet: b"CHO",
        adduct: b"M",
        rules: b"",
        mz: 180_063_388_104_180,
        da: 0,
        formulas: &[b"C6H12O6"],
    },
    Case {
        alphabet: b"AB",
        adduct: b"M",
        rules: b"",
        mz: 10_000_000_000_000,
        da: 10_000_000,
        formulas: &[b"A", b"B"],
    },
    Case {
        alphabet: b"CHO",
        adduct: b"M",
        rules: b"",
        mz: 1_000_000_000_000,
        da: 2_000_000_000_000,
        formulas: &[b"H", b"H2"],
    },
    Case {
        alphabet: b"CHO",
        adduct: b"M",
        rules: b"senior",
        mz: 1_000_000_000_000,
        da: 2_000_000_000_000,
        formulas: &[b"H2"],
    },
    Case {
        alphabet: b"CHO",
        adduct: b"[M-H2O+H]+",
        rules: b"",
        mz: 29_038_576_581_241,
        da: 40_000_000_000,
        formulas: &[b"C2H6O", b"CH2O2"],
    },
    Case {
        alphabet: b"C0-1H3-9",
        adduct: b"[M-H]-",
        rules: b"",
        mz: 1_000_000_000_000,
        da: 0,
        formulas: &[],
    },
];

#[test]
fn the_formulas_of_a_peak_come_in_order(rt: HostRuntime) -> Result<(), Fail> {
    for case in CASES {
        expect_formulas(&rt, rt.alloc(), case)?;
    }
    Ok(())
}

/// Appends the line of the next candidate, which must be there.
fn push_next_line<L: Ledger>(
    rt: &impl Abort,
    candidates: &mut Candidates<'_>,
    report: &mut Vec<u8>,
    steps: &mut Steps<L>,
) -> Result<(), Fail> {
    assert!(rt; advances(candidates, steps));
    candidates.push_line(report)?;
    Ok(())
}

fn push_lines<L: Ledger>(
    rt: &impl Abort,
    candidates: &mut Candidates<'_>,
    report: &mut Vec<u8>,
    steps: &mut Steps<L>,
) -> Result<(), Fail> {
    assert!(rt; has_more(candidates, 1, steps)?);
    assert!(rt; !has_more(candidates, 2, steps)?);
    for _ in 0..2 {
        push_next_line(rt, candidates, report, steps)?;
    }
    assert!(rt; !advances(candidates, steps));
    assert!(rt; !has_more(candidates, 0, steps)?);
    Ok(())
}

/// Counts two candidates, and appends their lines.
fn push_two_lines<L: Ledger>(
    rt: &impl Abort,
    candidates: &mut Candidates<'_>,
    report: &mut Vec<u8>,
    blank: Blank,
) -> Result<(), Fail>
    requires name { blank.name ≡ L.name }
    requires parts { blank.parts ≡ L.parts }
    requires some { 0 < blank.parts }
{
    let mut steps = Steps::<L>::new(blank);
    push_lines(rt, candidates, report, &mut steps)
}

fn kept_of<L: Ledger>(
    rt: &impl Abort,
    alloc: Global,
    premises: &Ground,
    mz: u64,
    most: usize,
    steps: &mut Steps<L>,
) -> Result<Option<CountLists>, Fail> {
    let mut candidates = started(rt, alloc, premises, mz)?;
    Ok(candidates.keep(most, steps)?)
}

/// The counts are those of O, C and H.
fn expect_two_lists(rt: &impl Abort, alloc: Global, kept: &CountLists) -> Result<(), Fail> {
    assert_eq!(rt; kept.len(), 2);
    assert_eq!(rt; kept.width(), 3);
    for place in 0..kept.len() {
        let mut counts = vec![in alloc; 0; kept.width()]?;
        kept.write_list(place, &mut counts);
        assert_eq!(rt; counts.as_slice(), [0, 0, place as u32 + 1].as_slice());
    }
    Ok(())
}

/// Keeps two candidates, H and H2, of which one is too many at first.
fn keep_two<L: Ledger>(
    rt: &impl Abort,
    alloc: Global,
    premises: &Ground,
    mz: u64,
    blank: Blank,
) -> Result<(), Fail>
    requires name { blank.name ≡ L.name }
    requires parts { blank.parts ≡ L.parts }
    requires some { 0 < blank.parts }
{
    let mut steps = Steps::<L>::new(blank);
    assert!(rt; kept_of(rt, alloc, premises, mz, 1, &mut steps)?.is_none());
    let kept = kept_of(rt, alloc, premises, mz, 2, &mut steps)?.ok_or("two lists")?;
    expect_two_lists(rt, alloc, &kept)
}

const LINES: &[u8] = b"formula H 1.007825032230 1.007825032230 7825032230
formula H2 2.015650064460 2.015650064460 1015650064460
";

fn expect_two_lines(
    rt: &impl Abort,
    alloc: Global,
    premises: &Ground,
    mz: u64,
) -> Result<(), Fail> {
    let mut candidates = started(rt, alloc, premises, mz)?;
    let mut report = Vec::new(alloc);
    candidates.push_line(&mut report)?;
    push_two_lines::<Brand>(rt, &mut candidates, &mut report, Blank::new(1))?;
    assert_eq!(rt; report.as_slice(), LINES);
    Ok(())
}

fn expect_two_kept(rt: &impl Abort, alloc: Global, premises: &Ground, mz: u64) -> Result<(), Fail> {
    keep_two::<Brand>(rt, alloc, premises, mz, Blank::new(1))
}

const TWO_HYDROGENS: &Case = &Case {
    alphabet: b"CHO",
    adduct: b"M",
    rules: b"",
    mz: 1_000_000_000_000,
    da: 2_000_000_000_000,
    formulas: &[],
};

#[test]
fn candidates_are_counted_and_printed_one_by_one(rt: HostRuntime) -> Result<(), Fail> {
    let premises = ground_of(rt.alloc(), TWO_HYDROGENS)?;
    expect_two_lines(&rt, rt.alloc(), &premises, TWO_HYDROGENS.mz)?;
    expect_two_kept(&rt, rt.alloc(), &premises, TWO_HYDROGENS.mz)
}

const MANY_ATOMS: &Case = &Case {
    alphabet: b"A1-10000B",
    adduct: b"M",
    rules: b"",
    mz: 10_000_000_000_000,
    da: 10_000_000,
    formulas: &[],
};

const TOKENS: &[(&[u8], bool)] = &[
    (b"A", true),
    (b"A10000", true),
    (b"AB10000", true),
    (b"B", false),
    (b"AH", false),
];

fn is_token(alloc: Global, premises: &Ground, text: &[u8]) -> Result<bool, Fail> {
    let formula = read_formula(alloc, premises.table(), text)?;
    Ok(Candidates::resume(alloc, premises, 10_000_000_000_000, &formula).is_ok())
}

#[test]
fn a_formula_of_the_box_is_a_token_and_no_other(rt: HostRuntime) -> Result<(), Fail> {
    let premises = ground_of(rt.alloc(), MANY_ATOMS)?;
    for (text, is_token_text) in TOKENS {
        assert_eq!(&rt; is_token(rt.alloc(), &premises, text)?, *is_token_text);
    }
    Ok(())
}
