//! Rows of whole runs: the words of a run, what fails in it, and what it must answer over a shelf of files.
use crate::run;
use outside_ports::{MemoryShelf, MemorySink};
use std::alloc::{AllocError, Global};
use std::process::Abort;

pub const ELEMENTS: &[u8] = b"symbol,number,mass,abundance,valence
e-,0,0.000548579909,0,0
H,1,1.00782503223,0.999885,1
H,2,2.01410177812,0.000115,1
C,12,12,0.9893,4
C,13,13.00335483507,0.0107,4
N,14,14.00307400443,0.99636,3
N,15,15.00010889888,0.00364,3
O,16,15.99491461957,0.99757,2
O,17,16.99913175650,0.00038,2
O,18,17.99915961286,0.00205,2
Na,23,22.989769282,1,1
Cl,35,34.968852682,0.7576,1
Cl,37,36.965902602,0.2424,1
";

pub const AB: &[u8] =
    b"symbol,number,mass,abundance,valence\ne-,0,0.000548579909,0,0\nA,10,10,1,1\nB,10,10.00001,1,1\n";

/// Four symbols of half a Da, of which seven atoms make 120 formulas and 200 make 1,373,701.
pub const LIGHT: &[u8] =
    b"symbol,number,mass,abundance,valence\ne-,0,0.0005,0,0\nA,1,0.5,1,1\nB,1,0.5,1,1\nC,1,0.5,1,1\nD,1,0.5,1,1\n";

/// Two isotopes of equal weight, and three; one of an element whose second isotope doesn't occur.
pub const EQUAL: &[u8] = b"symbol,number,mass,abundance,valence
e-,0,0.000548579909,0,0
X,10,10,0.5,1
X,11,11,0.5,1
Y,20,20,0.3,2
Y,21,21,0.3,2
Y,22,22,0.3,2
V,30,30,0.25,1
V,31,31,0,1
V,32,32,0.75,1
";

/// How many bytes a sink of a run has room for.
const ROOM: u64 = 16_384;

/// What fails in a run.
#[derive(Clone, Copy)]
pub enum Failing {
    Nothing,
    /// The fetch of this number.
    Fetch(u64),
    /// The put of this number to the output, once it took so many bytes.
    Put { call: u64, taken: u64 },
    /// The note, of which so many bytes are taken.
    Note { taken: u64 },
}

/// The words of a run, which stand between blanks, what fails in it, and what it must answer.
#[derive(Clone, Copy)]
pub struct Row {
    pub words: &'static str,
    pub failing: Failing,
    pub status: u8,
    pub out: &'static [u8],
    pub note: &'static [u8],
}

/// A row that is answered by a report.
pub fn report(words: &'static str, out: &'static [u8]) -> Row {
    Row {
        words,
        failing: Failing::Nothing,
        status: 0,
        out,
        note: b"",
    }
}

/// A row that is refused.
pub fn refused(words: &'static str, status: u8, note: &'static [u8]) -> Row {
    Row {
        words,
        failing: Failing::Nothing,
        status,
        out: b"",
        note,
    }
}

/// How a run ended.
#[derive(Drop)]
pub struct RunEnd {
    pub status: u8,
    pub out: MemorySink,
    pub notes: MemorySink,
}

/// The words of a text, which stand between blanks. Two blanks have an empty word between them.
pub fn words_of(alloc: Global, text: &str) -> Result<Vec<String>, AllocError> {
    let mut words = Vec::new(alloc);
    for word in text.split(' ') {
        words.push(String::from_str(alloc, word)?)?;
    }
    Ok(words)
}

/// A shelf of these files, each with its name.
pub fn shelf_of(alloc: Global, files: &[(&str, &[u8])]) -> Result<MemoryShelf, AllocError> {
    let mut shelf = MemoryShelf::new(alloc);
    for (name, bytes) in files {
        shelf.add(String::from_str(alloc, *name)?, bytes.to_vec(alloc)?)?;
    }
    Ok(shelf)
}

/// Runs the words over a shelf of these files.
pub fn run_over(
    alloc: Global,
    files: &[(&str, &[u8])],
    words: &str,
    failing: Failing,
) -> Result<RunEnd, AllocError> {
    let words = words_of(alloc, words)?;
    let mut shelf = shelf_of(alloc, files)?;
    let mut out = MemorySink::new(alloc, ROOM)?;
    let mut notes = MemorySink::new(alloc, ROOM)?;
    match failing {
        Failing::Nothing => {}
        Failing::Fetch(call) => shelf.fail_at(call)?,
        Failing::Put { call, taken } => out.fail_at(call, taken)?,
        Failing::Note { taken } => notes.fail_at(1, taken)?,
    }
    let status = run(alloc, &words, &mut shelf, &mut out, &mut notes);
    Ok(RunEnd { status, out, notes })
}

/// Runs each row over a shelf of these files, and compares what it answers.
pub fn check_rows(
    rt: &impl Abort,
    alloc: Global,
    files: &[(&str, &[u8])],
    rows: &[Row],
) -> Result<(), AllocError> {
    for row in rows {
        let end = run_over(alloc, files, row.words, row.failing)?;
        assert!(rt; end.status == row.status, "{}", row.words);
        assert!(rt; end.out.bytes() == row.out, "{}", row.words);
        assert!(rt; end.notes.bytes() == row.note, "{}", row.words);
    }
    Ok(())
}
