//! Values that come from outside: the certificates of worked examples, and that they are read again.

use super::*;
use element_table::read_table;
use formula_text::read_formula;
use std::alloc::Global;
use std::process::Abort;
use std::test::Fail;

const TABLE: &[u8] = b"symbol,number,mass,abundance,valence
e-,0,0.000548579909,0,0
X,10,10,0.5,1
X,11,11,0.5,1
";

/// Writes the certificate of a formula's cover, which is to be this text, and reads it again.
fn expect(
    rt: &impl Abort,
    alloc: Global,
    formula: &[u8],
    coverage: u64,
    text: &[u8],
) -> Result<(), Fail> {
    let table = read_table(alloc, TABLE)?;
    let formula = read_formula(alloc, &table, formula)?;
    assert!(rt; formula.is_of(&table));
    assert!(rt; coverage >= 1);
    assert!(rt; coverage <= 999_999_000_000_000_000);
    let cover = cover_of(alloc, &table, &formula, coverage)?;
    let written = write_certificate(alloc, &cover)?;
    assert_eq!(rt; written.as_slice(), text);
    let read = read_certificate(alloc, &table, &written)?;
    assert_eq!(rt; read.size(), cover.size());
    assert_eq!(rt; read.lines().len(), cover.layer().len());
    Ok(())
}

#[test]
fn covers_have_certificates(rt: HostRuntime) -> Result<(), Fail> {
    let alloc = rt.alloc();
    expect(
        &rt,
        alloc,
        b"X2",
        500_000_000_000_000_000,
        b"isoform certificate 1
formula X2
coverage 500000000000000000
size 1
bound 1
threshold 250000000000000000
cover [10X][11X]
end
",
    )?;
    expect(
        &rt,
        alloc,
        b"[11X]6",
        500_000_000_000_000_000,
        b"isoform certificate 1
formula [11X]6
coverage 500000000000000000
size 1
bound 1
threshold 500000000000000000
cover -
end
",
    )?;
    Ok(())
}

#[test]
fn further_members_of_the_layer_are_not_marked(rt: HostRuntime) -> Result<(), Fail> {
    let alloc = rt.alloc();
    expect(
        &rt,
        alloc,
        b"X2",
        750_000_000_000_000_000,
        b"isoform certificate 1
formula X2
coverage 750000000000000000
size 2
bound 2
threshold 125000000000000000
cover [10X][11X]
cover [11X]2
layer [10X]2
end
",
    )?;
    Ok(())
}
