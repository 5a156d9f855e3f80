//! What no clause says: that files are read with ample memory, and that they are read as the format is described.

use super::*;
use std::alloc::{AllocError, Global};
use std::process::Abort;
use std::test::Fail;

/// The words of the fault of a peak file, none where it is read.
fn words_of(alloc: Global, text: &str) -> Result<String, AllocError> {
    match read_peaks(alloc, text.as_bytes()).err() {
        None => Ok(String::new(alloc)),
        Some(fault) => fault.words(alloc),
    }
}

/// A peak file of so many equal peaks, and of these records behind them.
fn file_of(alloc: Global, count: u32, records: &str) -> Result<String, AllocError> {
    let mut text = String::from_str(alloc, "mz,intensity\n")?;
    for _ in 0..count {
        text.push_str("203.0526,125000\n")?;
    }
    text.push_str(records)?;
    Ok(text)
}

/// Compares the columns of a peak file with what they should be.
fn expect_columns(
    rt: &impl Abort,
    alloc: Global,
    text: &str,
    mz: &[u64],
    intensity: &[u64],
) -> Result<(), Fail> {
    let peaks = read_peaks(alloc, text.as_bytes())?;
    assert_eq!(rt; peaks.mz(), mz);
    assert_eq!(rt; peaks.intensity(), intensity);
    Ok(())
}

#[test]
fn the_columns_are_those_of_the_file(rt: HostRuntime) -> Result<(), Fail> {
    let alloc = rt.alloc();
    expect_columns(&rt, alloc, "mz,intensity\n", &[], &[])?;
    expect_columns(
        &rt,
        alloc,
        "mz,intensity\r\n203.0526,125000\r\n",
        &[203_052_600_000_000],
        &[125_000_000_000],
    )?;
    // Peaks need no order, and two may be equal.
    expect_columns(
        &rt,
        alloc,
        "\u{feff} mz ,\"intensity\"\n71.9353,400\n69.93825, 0.000001\t\n071.93530,400.0",
        &[71_935_300_000_000, 69_938_250_000_000, 71_935_300_000_000],
        &[400_000_000, 1, 400_000_000],
    )
}

#[test]
fn the_first_fault_is_told_with_its_record(rt: HostRuntime) -> Result<(), Fail> {
    let alloc = rt.alloc();
    for text in [
        "",
        "10,100\n",
        "mz\n",
        "mz,intensity,x\n",
        "intensity,mz\n",
        "Mz,intensity\n",
        "\u{feff}\u{feff}mz,intensity\n",
    ] {
        assert_eq!(rt; words_of(alloc, text)?.as_str(), "record 1: header");
    }
    for (records, expected) in [
        ("10\n", "record 2: field count"),
        ("10,1,\n", "record 2: field count"),
        (" \n", "record 2: field count"),
        ("0,1\n", "record 2: mz"),
        ("0.0000000000001,1\n", "record 2: mz"),
        ("0.000000000001,1\n", ""),
        ("20000.000000000000000,1\n", ""),
        ("20000.000000000001,1\n", "record 2: mz"),
        ("-1,1\n", "record 2: mz"),
        ("1e2,1\n", "record 2: mz"),
        ("x,y\n", "record 2: mz"),
        ("1,y\n", "record 2: intensity"),
        ("1,\n", "record 2: intensity"),
        ("1,0\n", ""),
        ("1,1000000000000\n", ""),
        ("1,1000000000000.000001\n", "record 2: intensity"),
        ("1,0.0000001\n", "record 2: intensity"),
        ("1,1\r\n\r\n1,1\n1\n0,1\n", "record 4: field count"),
        ("1,1\n1,z\n0,1\n", "record 3: intensity"),
    ] {
        let words = words_of(alloc, &file_of(alloc, 0, records)?)?;
        assert!(rt; words.as_str() == expected, "{records:?}: {words}");
    }
    Ok(())
}

#[test]
fn the_10_001st_peak_is_too_many_behind_faults_of_its_own(rt: HostRuntime) -> Result<(), Fail> {
    let alloc = rt.alloc();
    let most = file_of(alloc, 10_000, "")?;
    assert_eq!(rt; read_peaks(alloc, most.as_bytes())?.mz().len(), 10_000);
    for (record, expected) in [
        ("1,1\n", "record 10002: too many"),
        ("0,1\n", "record 10002: mz"),
        ("1\n", "record 10002: field count"),
        ("1,1\n1\n", "record 10002: too many"),
    ] {
        let text = file_of(alloc, 10_000, record)?;
        assert_eq!(rt; words_of(alloc, &text)?.as_str(), expected);
    }
    Ok(())
}

#[test]
fn pairs_are_peaks_within_the_limits(rt: HostRuntime) -> Result<(), Fail> {
    let alloc = rt.alloc();
    for (mz, intensity, is_peak) in [
        (10_000_000_000_000, 1, true),
        (0, 1, false),
        (1, 0, true),
        (20_000_000_000_000_000, 1_000_000_000_000_000_000, true),
        (20_000_000_000_000_001, 1, false),
        (1, 1_000_000_000_000_000_001, false),
    ] {
        let peaks = Peaks::of(alloc, &[(2, 3), (mz, intensity)])?;
        assert_eq!(rt; peaks.is_some(), is_peak);
        if let Some(peaks) = peaks {
            assert_eq!(rt; peaks.mz(), [2, mz].as_slice());
            assert_eq!(rt; peaks.intensity(), [3, intensity].as_slice());
        }
    }
    let one = Peaks::of(alloc, &[(10_000_000_000_000, 1)])?;
    assert_eq!(rt; one.map(|peaks| peaks.mz().len()), Some(1));
    assert!(rt; Peaks::of(alloc, &[(0, 1)])?.is_none());
    let none = Peaks::of(alloc, &[])?;
    assert_eq!(rt; none.map(|peaks| peaks.mz().len()), Some(0));
    let mut pairs = Vec::new(alloc);
    for _ in 0..10_000 {
        pairs.push((1, 1))?;
    }
    assert!(rt; Peaks::of(alloc, &pairs)?.is_some());
    pairs.push((1, 1))?;
    assert!(rt; Peaks::of(alloc, &pairs)?.is_none());
    Ok(())
}
