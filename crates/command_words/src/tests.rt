//! What no clause says: which answers the words of users get, with ample memory.

use super::*;
use std::alloc::Global;
use std::process::Abort;

/// Words with spaces between them.
fn answer(rt: &impl Abort, alloc: Global, text: &str) -> Result<Request, WordsFault> {
    let mut words = Vec::new(alloc);
    for word in text.split(' ') {
        words
            .push(word.to_string(alloc).expect(rt, "a word"))
            .expect(rt, "words");
    }
    request_of(alloc, &words)
}

/// A name or a text that may be absent.
fn text_or_dash(word: &Option<Word>) -> &str {
    match word {
        Some(word) => word.text().as_str(),
        None => "-",
    }
}

/// The fields of a request, one after another.
fn shown(rt: &impl Abort, alloc: Global, request: &Request) -> String {
    let text = match request {
        Request::Decompose {
            table,
            mass,
            peaks,
            tolerance,
            alphabet,
            adduct,
            rules,
            limit,
            after,
            json,
        } => format!(in alloc;
            "{} {mass:?} {} {tolerance:?} {} {} {} {limit:?} {} {json}",
            table.text(),
            text_or_dash(peaks),
            alphabet.text(),
            adduct.text(),
            rules.text(),
            text_or_dash(after)
        ),
        Request::Envelope {
            table,
            tracer,
            adduct,
            formula,
            coverage,
            certificate,
            json,
        } => format!(in alloc;
            "{} {} {} {} {coverage} {certificate} {json}",
            table.text(),
            text_or_dash(tracer),
            adduct.text(),
            formula.text()
        ),
        Request::Rank {
            table,
            tracer,
            peaks,
            tolerance,
            alphabet,
            adduct,
            rules,
            coverage,
            peak,
            turn,
            turns,
            json,
        } => format!(in alloc;
            "{} {} {} {tolerance:?} {} {} {} {coverage} {peak:?} {turn} {turns:?} {json}",
            table.text(),
            text_or_dash(tracer),
            peaks.text(),
            alphabet.text(),
            adduct.text(),
            rules.text()
        ),
        Request::Generate { table, number } => format!(in alloc; "{} {number}", table.text()),
        Request::Check {
            table,
            tracer,
            certificate,
        } => format!(in alloc;
            "{} {} {}",
            table.text(),
            text_or_dash(tracer),
            certificate.text()
        ),
    };
    text.expect(rt, "a text")
}

/// The words are a request of these fields.
fn asks(rt: &impl Abort, alloc: Global, words: &str, fields: &str) -> bool {
    match answer(rt, alloc, words) {
        Ok(request) => shown(rt, alloc, &request).as_str() == fields,
        Err(_) => false,
    }
}

fn expect_fields(rt: &impl Abort, alloc: Global, words: &str, fields: &str) {
    assert!(rt; asks(rt, alloc, words, fields));
}

/// The words make no request, and it is no value that is refused.
fn is_refused(given: Result<Request, WordsFault>) -> bool {
    matches!(given, Err(WordsFault::Words))
}

fn expect_refused(rt: &impl Abort, alloc: Global, words: &str) {
    assert!(rt; is_refused(answer(rt, alloc, words)));
}

/// The value of the option of this number is outside its range.
fn expect_told(rt: &impl Abort, alloc: Global, words: &str, number: u32) {
    let given = answer(rt, alloc, words);
    assert!(rt; matches!(given, Err(WordsFault::Value { option }) if option == number));
}

const ORDERED_FIELDS: &str =
    "t.csv Some(12000000000000) - Da { units: 500000000000 } CHO M none None - false";

const ORDERS: &[&str] = &[
    "decompose --table t.csv --mass 12 --da 0.5 --alphabet CHO",
    "decompose --alphabet CHO --da 0.5 --mass 12 --table t.csv",
    "decompose --mass=12 --table=t.csv --alphabet=CHO --da=0.5",
    "decompose --mass 12.000 --alphabet=CHO --table t.csv --da=0.500000000000000",
    "decompose --rules none --table t.csv --mass 12 --da 0.5 --adduct=M --alphabet CHO",
];

#[test]
fn the_options_of_decompose_stand_in_each_order_and_form(rt: HostRuntime) {
    for row in ORDERS {
        expect_fields(&rt, rt.alloc(), row, ORDERED_FIELDS);
    }
}

const OPTION_FIELDS: &[(&str, &str)] = &[
    (
        "decompose --table t --peaks p.csv --ppm 2 --alphabet C --adduct [M+H]+ --rules golden",
        "t None p.csv Ppm { thousandths: 2000 } C [M+H]+ golden None - false",
    ),
    (
        "decompose --table t --mass 1 --ppm-calc 0.001 --alphabet C --limit 7 --after C2",
        "t Some(1000000000000) - PpmCalculated { thousandths: 1 } C M none Some(7) C2 false",
    ),
    (
        "envelope --coverage=0.9 --formula C6H12O6 --table t.csv",
        "t.csv - M C6H12O6 900000000000000000 false false",
    ),
    (
        "envelope --tracer r.csv --adduct [M-H]- --coverage=0.9 --formula C6H12O6 --table t.csv",
        "t.csv r.csv [M-H]- C6H12O6 900000000000000000 false false",
    ),
    (
        "envelope --certificate --coverage=0.9 --formula C6H12O6 --table t.csv",
        "t.csv - M C6H12O6 900000000000000000 true false",
    ),
    (
        "envelope --coverage 0.9 --formula true --table t.csv --certificate",
        "t.csv - M true 900000000000000000 true false",
    ),
    (
        "rank --table t --peaks p --ppm 2 --alphabet CH --coverage 0.9",
        "t - p Ppm { thousandths: 2000 } CH M none 900000000000000000 None 64 None false",
    ),
    (
        "rank --turns 0 --turn 7 --peak 3 --table t --tracer=r --peaks p --da 1 --alphabet C --coverage=0.5 --rules=g",
        "t r p Da { units: 1000000000000 } C M g 500000000000000000 Some(3) 7 Some(0) false",
    ),
    (
        "decompose --json --table t --mass 1 --da 0 --alphabet C",
        "t Some(1000000000000) - Da { units: 0 } C M none None - true",
    ),
    (
        "envelope --coverage=0.9 --formula C --table t --json",
        "t - M C 900000000000000000 false true",
    ),
    (
        "rank --table t --peaks p --ppm 2 --alphabet C --json --coverage 0.9",
        "t - p Ppm { thousandths: 2000 } C M none 900000000000000000 None 64 None true",
    ),
    ("generate --table t --number 1", "t 1"),
    ("check --table t --certificate c.txt", "t - c.txt"),
    (
        "check --certificate=true --tracer r.csv --table t",
        "t r.csv true",
    ),
];

#[test]
fn each_option_gives_its_field_and_defaults_the_others(rt: HostRuntime) {
    for (words, fields) in OPTION_FIELDS {
        expect_fields(&rt, rt.alloc(), words, fields);
    }
}

const EQUALS_SIGNS: &[(&str, &str)] = &[
    (
        "envelope --table=a=b --formula X --coverage 0.5",
        "a=b - M X 500000000000000000 false false",
    ),
    (
        "envelope --table a=b --formula =X= --coverage 0.5",
        "a=b - M =X= 500000000000000000 false false",
    ),
    (
        "envelope --table==a --formula=X-y --coverage=0.5",
        "=a - M X-y 500000000000000000 false false",
    ),
];

#[test]
fn a_value_may_hold_an_equals_sign_and_is_cut_at_the_first(rt: HostRuntime) {
    for (words, fields) in EQUALS_SIGNS {
        expect_fields(&rt, rt.alloc(), words, fields);
    }
}

const NO_REQUESTS: &[&str] = &[
    "",
    "rank",
    "ranks --table t --peaks p --ppm 2 --alphabet CH --coverage 0.9",
    "rank --table t --peaks p --ppm 2 --alphabet CH --coverage 0.9 --mass 1",
    "rank --table t --peaks p --ppm 2 --alphabet CH --coverage 0.9 --limit 1",
    "generate --table t --number -1",
    "generate --table t --number 1 --ppm 2",
    "Decompose --table t --mass 1 --da 0 --alphabet C",
    "decompose",
    "decompose --table t --mass 1 --da 0",
    "decompose --table t --mass 1 --da 0 --alphabet",
    "decompose --table t --mass 1 --da 0 --alphabet=",
    "decompose --table t --mass= --da 0 --alphabet C",
    "decompose --table t --mass  --da 0 --alphabet C",
    "decompose --table t --mass -1 --da 0 --alphabet C",
    "decompose --table t --mass=-1 --da 0 --alphabet C",
    "decompose --table t --mass --da 0 --alphabet C",
    "envelope --table=a --formula=--x --coverage 0.5",
    "decompose --table t --mass 1 --da 0 --alphabet C x",
    "decompose x --table t --mass 1 --da 0 --alphabet C",
    "decompose --table t --mass 1 --da 0 --alphabet C --",
    "decompose -- --table t --mass 1 --da 0 --alphabet C",
    "decompose --table t --mass 1 --da 0 --alphabet C -h",
    "decompose --table t --mass 1 --da 0 --alphabet C --help",
    "decompose --table t --mass 1 --da 0 --alphabet C --version",
    "decompose --help",
    "decompose -h",
    "--help",
    "help",
    "decompose --tab t --mass 1 --da 0 --alphabet C",
    "decompose --Table t --mass 1 --da 0 --alphabet C",
    "decompose -table t --mass 1 --da 0 --alphabet C",
    "decompose --table t --mass 1 --da 0 --alphabet C --unknown x",
    "decompose --table t --mass 1 --da 0 --alphabet C --formula X",
    "decompose --table t --mass 1 --da 0 --alphabet C --tracer r",
    "envelope --table t --formula X --coverage 0.5 --mass 1",
    "decompose --table t --mass 1 --mass 1 --da 0 --alphabet C",
    "decompose --table t --mass 1 --da 0 --alphabet C --mass=2",
    "decompose --mass=2 --table t --mass=1 --da 0 --alphabet C",
    "envelope --table t --formula X --coverage 0.5 --certificate c",
    "envelope --table t --formula X --coverage 0.5 --certificate=c",
    "envelope --table t --formula X --coverage 0.5 --certificate=true",
    "envelope --table t --formula X --coverage 0.5 --certificate=",
    "envelope --table t --formula X --certificate --coverage 0.5 --certificate",
    "envelope --table t --formula --certificate --coverage 0.5",
    "check --table t --certificate",
    "check --table t --certificate c --coverage 0.5",
    "check --table t --certificate c --json",
    "generate --table t --number 1 --json",
    "rank --table t --peaks p --ppm 2 --alphabet CH --coverage 0.9 --json=true",
    "decompose --table t --mass 1 --da 0 --alphabet C --json --json",
];

#[test]
fn words_that_make_no_request_are_refused(rt: HostRuntime) {
    for row in NO_REQUESTS {
        expect_refused(&rt, rt.alloc(), row);
    }
    let none = Vec::new(rt.alloc());
    assert!(rt; is_refused(request_of(rt.alloc(), &none)));
}

const APART: &[&str] = &[
    "decompose --table t --da 0 --alphabet C",
    "decompose --table t --mass 1 --peaks p --da 0 --alphabet C",
    "decompose --table t --mass 1 --alphabet C",
    "decompose --table t --mass 1 --ppm 1 --da 0.1 --alphabet C",
    "decompose --table t --mass 1 --ppm 1 --ppm 1 --alphabet C",
    "decompose --table t --mass 1 --ppm 1 --ppm-calc 1 --alphabet C",
    "decompose --table t --mass 1 --da 1 --ppm-calc 1 --alphabet C",
    "decompose --table t --mass 1 --ppm 1 --da 1 --ppm-calc 1 --alphabet C",
    "decompose --mass 1 --da 0 --alphabet C",
    "decompose --table t --peaks p --da 0 --alphabet C --limit 1",
    "decompose --table t --peaks p --da 0 --alphabet C --after C",
    "envelope --table t --formula X",
    "envelope --table t --coverage 0.5",
    "envelope --table t --formula X --coverage 0.5 --certificate --json",
    "envelope --json --table t --formula X --coverage 0.5 --certificate",
    "check --table t",
    "check --certificate c",
    "rank --table t --ppm 2 --alphabet CH --coverage 0.9",
    "rank --table t --peaks p --alphabet CH --coverage 0.9",
    "rank --table t --peaks p --ppm 2 --da 1 --alphabet CH --coverage 0.9",
    "rank --table t --peaks p --ppm 2 --coverage 0.9",
    "rank --table t --peaks p --ppm 2 --alphabet CH",
    "generate --table t",
    "generate --number 1",
    "decompose --table t --mass 99999 --da 99999 --ppm 99999 --alphabet C",
    "decompose --table t --peaks p --da 0 --alphabet C --limit 0",
];

#[test]
fn options_that_do_not_go_together_are_refused(rt: HostRuntime) {
    for row in APART {
        expect_refused(&rt, rt.alloc(), row);
    }
}

const OUTSIDE: &[(&str, u32)] = &[
    ("decompose --table t --mass 0 --da 0 --alphabet C", 3),
    ("decompose --table t --mass 0.000 --da 0 --alphabet C", 3),
    (
        "decompose --table t --mass 20000.000000000001 --da 0 --alphabet C",
        3,
    ),
    (
        "decompose --table t --mass 0.0000000000001 --da 0 --alphabet C",
        3,
    ),
    ("decompose --table t --mass 1e3 --da 0 --alphabet C", 3),
    ("decompose --table t --mass +1 --da 0 --alphabet C", 3),
    (
        "decompose --table t --mass 1 --ppm 1000.001 --alphabet C",
        5,
    ),
    ("decompose --table t --mass 1 --ppm 0.0001 --alphabet C", 5),
    (
        "decompose --table t --mass 1 --da 10.000000000001 --alphabet C",
        6,
    ),
    ("decompose --table t --mass 1 --da x --alphabet C", 6),
    (
        "decompose --table t --mass 1 --ppm-calc 1000.001 --alphabet C",
        7,
    ),
    ("decompose --da 11 --alphabet C --mass 0 --table t", 3),
    (
        "decompose --limit 0 --da 11 --alphabet C --mass 1 --table t",
        6,
    ),
    (
        "decompose --table t --mass 1 --da 0 --alphabet C --limit 0",
        13,
    ),
    (
        "decompose --table t --mass 1 --da 0 --alphabet C --limit 1048577",
        13,
    ),
    (
        "decompose --table t --mass 1 --da 0 --alphabet C --limit 1.0",
        13,
    ),
    ("envelope --table t --formula X --coverage 0", 12),
    ("envelope --table t --formula X --coverage 0.9999991", 12),
    ("envelope --table t --formula X --coverage 1", 12),
    (
        "envelope --table t --formula X --coverage 0.1234567890123456789",
        12,
    ),
    (
        "rank --table t --peaks p --da 0 --alphabet C --coverage 0.5 --peak 0",
        15,
    ),
    (
        "rank --table t --peaks p --da 0 --alphabet C --coverage 0.5 --peak 10001",
        15,
    ),
    (
        "rank --table t --peaks p --da 0 --alphabet C --coverage 0.5 --turn 0",
        16,
    ),
    (
        "rank --table t --peaks p --da 0 --alphabet C --coverage 0.5 --turn 1048577",
        16,
    ),
    (
        "rank --table t --peaks p --da 0 --alphabet C --coverage 0.5 --turns 1000001",
        17,
    ),
    ("generate --table t --number 2147483648", 19),
    ("generate --table t --number x", 19),
];

#[test]
fn the_first_value_outside_its_range_is_told(rt: HostRuntime) {
    for (words, number) in OUTSIDE {
        expect_told(&rt, rt.alloc(), words, *number);
    }
}

const RANGE_ENDS: &[(&str, &str)] = &[
    (
        "decompose --table t --mass 0.000000000001 --da 0 --alphabet C --limit 1",
        "t Some(1) - Da { units: 0 } C M none Some(1) - false",
    ),
    (
        "decompose --table t --mass 20000 --da 10 --alphabet C --limit 1048576",
        "t Some(20000000000000000) - Da { units: 10000000000000 } C M none Some(1048576) - false",
    ),
    (
        "decompose --table t --peaks p --ppm 0 --alphabet C",
        "t None p Ppm { thousandths: 0 } C M none None - false",
    ),
    (
        "decompose --table t --peaks p --ppm-calc 1000 --alphabet C",
        "t None p PpmCalculated { thousandths: 1000000 } C M none None - false",
    ),
    (
        "envelope --table t --formula X --coverage 0.999999",
        "t - M X 999999000000000000 false false",
    ),
    (
        "envelope --table t --formula X --coverage 0.000000000000000001",
        "t - M X 1 false false",
    ),
    (
        "rank --table t --peaks p --ppm 0 --alphabet C --coverage 0.5 --peak 1 --turn 1 --turns 0",
        "t - p Ppm { thousandths: 0 } C M none 500000000000000000 Some(1) 1 Some(0) false",
    ),
    (
        "rank --table t --peaks p --ppm 0 --alphabet C --coverage 0.5 --peak 10000 --turn 1048576 --turns 1000000",
        "t - p Ppm { thousandths: 0 } C M none 500000000000000000 Some(10000) 1048576 Some(1000000) false",
    ),
    ("generate --table t --number 0", "t 0"),
    ("generate --table t --number 2147483647", "t 2147483647"),
];

#[test]
fn values_at_the_ends_of_their_ranges_are_read(rt: HostRuntime) {
    for (words, fields) in RANGE_ENDS {
        expect_fields(&rt, rt.alloc(), words, fields);
    }
}

fn expect_many_refused(rt: &impl Abort, alloc: Global) {
    let mut words = Vec::new(alloc);
    for _ in 0..5000 {
        let word = "x".to_string(alloc).expect(rt, "a word");
        words.push(word).expect(rt, "words");
    }
    assert!(rt; is_refused(request_of(alloc, &words)));
}

fn expect_long_read(rt: &impl Abort, alloc: Global) {
    let name = "n".repeat(alloc, 100_000).expect(rt, "a long name");
    let text = format!(in alloc; "envelope --table {name} --formula={name} --coverage 0.5").expect(
        rt, "words",
    );
    let fields = format!(in alloc; "{name} - M {name} 500000000000000000 false false").expect(
        rt, "fields",
    );
    expect_fields(rt, alloc, text.as_str(), fields.as_str());
}

#[test]
fn many_and_long_words_are_read(rt: HostRuntime) {
    expect_many_refused(&rt, rt.alloc());
    expect_long_read(&rt, rt.alloc());
}

const OPTION_NAMES: &[&str] = &[
    "--table",
    "--tracer",
    "--mass",
    "--peaks",
    "--ppm",
    "--da",
    "--ppm-calc",
    "--alphabet",
    "--adduct",
    "--rules",
    "--formula",
    "--coverage",
    "--limit",
    "--after",
    "--peak",
    "--turn",
    "--turns",
    "--certificate",
    "--number",
    "--json",
];

fn expect_note(rt: &impl Abort, alloc: Global, fault: &WordsFault, note: &str) {
    assert!(rt; fault.words(alloc).expect(rt, "a text").as_str() == note);
}

fn expect_word_copied(rt: &impl Abort, alloc: Global) {
    let word = Word::of("t.csv".to_string(alloc).expect(rt, "a text"));
    let copy = word.clone().expect(rt, "a copy");
    assert!(rt; copy.text().as_str() == "t.csv");
}

#[test]
fn options_are_named_as_they_are_written(rt: HostRuntime) {
    for (place, name) in OPTION_NAMES.iter().enumerate() {
        if place < OPTION_COUNT as usize {
            assert!(rt; option_name(place as u32 + 1) == *name);
        }
    }
    assert!(rt; option_name(0).is_empty() && option_name(OPTION_COUNT + 1).is_empty());
    expect_note(&rt, rt.alloc(), &WordsFault::Words, "words");
    expect_note(
        &rt,
        rt.alloc(),
        &WordsFault::Value { option: 13 },
        "value: --limit",
    );
    expect_note(&rt, rt.alloc(), &WordsFault::Memory, "memory");
    expect_word_copied(&rt, rt.alloc());
}
