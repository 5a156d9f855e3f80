//! What no clause says: that files are read with ample memory, and that they are read as the format
//! is described.

use super::*;
use std::alloc::{AllocError, Global};
use std::process::Abort;
use std::test::Fail;

const HEADER: &str = "symbol,number,mass,abundance,valence\n";

const ELECTRON: &str = "e-,0,0.000548579909,0,0\n";

/// A table of two elements with equal abundances.
const X_TABLE: &str = "symbol,number,mass,abundance,valence
e-,0,0.000548579909,0,0
X,10,10,0.5,1
X,11,11,0.5,1
Y,20,20,0.3,2
Y,21,21,0.3,2
Y,22,22,0.3,2
";

/// The table of a text.
fn table_of(alloc: Global, text: &str) -> Result<Table, TableFault> {
    read_table(alloc, text.as_bytes())
}

/// The element of a symbol, where the table has it.
fn element<'a>(table: &'a Table, symbol: &[u8]) -> Option<&'a Element> {
    table.element(Symbol::of(symbol)?)
}

/// The words of the fault of a table file, none where it is read.
fn table_words(alloc: Global, text: &str) -> Result<String, AllocError> {
    match table_of(alloc, text).err() {
        None => Ok(String::new(alloc)),
        Some(fault) => fault.words(alloc),
    }
}

/// The words of the fault of a tracer file over a table, none where it is read.
fn tracer_words(alloc: Global, table: &Table, text: &str) -> Result<String, AllocError> {
    match table.traced(text.as_bytes()).err() {
        None => Ok(String::new(alloc)),
        Some(fault) => fault.words(alloc),
    }
}

/// Compares the words of each file that has these records behind the header and the electron's record.
fn expect_behind(rt: &impl Abort, alloc: Global, cases: &[(&str, &str)]) -> Result<(), AllocError> {
    for (records, expected) in cases {
        let text = format!(in alloc; "{HEADER}{ELECTRON}{records}")?;
        let words = table_words(alloc, &text)?;
        assert!(rt; words.as_str() == *expected, "{records:?}: {words}");
    }
    Ok(())
}

#[test]
fn the_first_fault_of_a_file_is_told_with_its_record(rt: HostRuntime) -> Result<(), Fail> {
    let alloc = rt.alloc();
    let whole_files = [
        ("", "record 1: header"),
        (ELECTRON, "record 1: header"),
        ("symbol,number,mass,abundance\n", "record 1: header"),
        (
            "symbol,number,mass,abundance9,valence\n",
            "record 1: header",
        ),
        (HEADER, "no electron"),
        ("symbol,number,mass,abundance12,valence\n", "no electron"),
    ];
    for (text, expected) in whole_files {
        assert!(rt; table_words(alloc, text)?.as_str() == expected, "{text:?}");
    }
    let cases = [
        ("", ""),
        ("H,1,1.0078250322300,1,1\n", ""),
        ("H,1,1.0078250322301,1,1\n", "record 3: mass"),
        ("H,001,01.00,01.0000000000,01\n", ""),
        ("\"H\", 1\t,1,1,\"1\"\r\nHe,4,4,1,0", ""),
        (" \"H\",1,1,1,1\n", "record 3: symbol"),
        ("H,1,1,1\n", "record 3: field count"),
        ("H,1,1,1,1,\n", "record 3: field count"),
        (" \n", "record 3: field count"),
        ("\n\nh,1,1,1,1\n", "record 3: symbol"),
        ("Abcd,1,1,1,1\n", "record 3: symbol"),
        ("e,0,0.0005,0,0\n", "record 3: symbol"),
        ("H,0,1,1,1\n", "record 3: mass number"),
        ("H,401,1,1,1\n", "record 3: mass number"),
        ("H,+1,1,1,1\n", "record 3: mass number"),
        ("H,400,400,1,8\n", ""),
        ("H,1,1.,1,1\n", "record 3: mass"),
        ("H,1,1,1,9\n", "record 3: valence"),
        ("h,0,0,2,9\n", "record 3: symbol"),
        ("H,0,0,2,9\n", "record 3: mass number"),
        ("H,1,1,1,1\nH,2,2,0,2\n", "record 4: valence"),
        ("H,1,1,1,1\nH,01,1,1,1\n", "record 4: repeated"),
        ("H,1,1,1,1\nH,1,1,1,2\n", "record 4: valence"),
        ("H,1,1,1,1\nC,1,1,1,4\nH,1,1,1,1\n", "record 5: repeated"),
        ("e-,00,0.0005,0.000,0\n", "record 3: repeated"),
        ("e-,0,0.0005,0,1\n", "record 3: valence"),
        ("e-,1,0.0005,0,0\n", "record 3: mass number"),
        ("e-,0,0.001000000001,0,0\n", "record 3: mass"),
        ("e-,0,0.0005,0.1,0\n", "record 3: abundance"),
    ];
    expect_behind(&rt, alloc, cases.as_slice())?;
    Ok(())
}

/// So many records of elements, or of isotopes of one element.
fn records_of(alloc: Global, elements: u8, isotopes: u8) -> Result<String, AllocError> {
    let mut records = String::new(alloc);
    for count in 0..elements {
        records.push(char::from(b'A' + count / 26))?;
        records.push(char::from(b'a' + count % 26))?;
        records.push_str(",10,10,1,1\n")?;
    }
    for count in 0..isotopes {
        let number = 30 + u64::from(count);
        write!(records, "Z,{number},{number},0.05,1\n")?;
    }
    Ok(records)
}

#[test]
fn each_limit_is_met_and_not_passed(rt: HostRuntime) -> Result<(), Fail> {
    let alloc = rt.alloc();
    let most_elements = records_of(alloc, 120, 0)?;
    let more_elements = records_of(alloc, 121, 0)?;
    let most_isotopes = records_of(alloc, 0, 16)?;
    let more_isotopes = records_of(alloc, 0, 17)?;
    let cases = [
        ("H,1,0.5,1,1\n", ""),
        ("H,1,400,1,1\n", ""),
        ("H,1,0.499999999999,1,1\n", "record 3: mass"),
        ("H,1,400.000000000001,1,1\n", "record 3: mass"),
        ("H,1,1,1,1\n", ""),
        ("H,1,1,0.0000000010,1\n", ""),
        ("H,1,1,1.000000001,1\n", "record 3: abundance"),
        ("H,1,1,0.0000000001,1\n", "record 3: abundance"),
        (most_elements.as_str(), ""),
        (more_elements.as_str(), "record 123: too many elements"),
        (most_isotopes.as_str(), ""),
        (more_isotopes.as_str(), "record 19: too many isotopes"),
        ("H,1,1,1,1\nX,12,12,0,4\nX,13,13,0.0,4\n", "no weight: X"),
    ];
    expect_behind(&rt, alloc, cases.as_slice())?;
    Ok(())
}

#[test]
fn the_example_tables_are_read(rt: HostRuntime) -> Result<(), Fail> {
    let alloc = rt.alloc();
    let elements = format!(in alloc;
        "{HEADER}{ELECTRON}H,1,1.00782503223,0.999885,1
H,2,2.01410177812,0.000115,1
C,12,12,0.9893,4
C,13,13.00335483507,0.0107,4
N,14,14.00307400443,0.99636,3
N,15,15.00010889888,0.00364,3
O,16,15.99491461957,0.99757,2
O,17,16.99913175650,0.00038,2
O,18,17.99915961286,0.00205,2
P,31,30.97376199842,1,5
S,32,31.9720711744,0.9499,6
S,33,32.9714589098,0.0075,6
S,34,33.967867004,0.0425,6
S,36,35.96708071,0.0001,6
Na,23,22.989769282,1,1
Cl,35,34.968852682,0.7576,1
Cl,37,36.965902602,0.2424,1
"
    )?;
    let two = format!(in alloc; "{HEADER}{ELECTRON}A,10,10,1,1\nB,10,10.00001,1,1\n")?;
    let isotopes = records_of(alloc, 0, 16)?;
    let z = format!(in alloc; "{HEADER}{ELECTRON}{isotopes}")?;
    let fine = "symbol,number,mass,abundance12,valence
e-,0,0.000548579909,0,0
Q,1,1,0.000000000001,1
Q,2,2,0.999999999999,1
";
    // Of each table the number of elements, and of its last element the isotopes, the reference isotope and the total.
    let cases = [
        (elements.as_str(), 8, 2, 35, 1_000_000_000_000),
        (two.as_str(), 2, 1, 10, 1_000_000_000_000),
        (X_TABLE, 2, 3, 20, 900_000_000_000),
        (z.as_str(), 1, 16, 30, 800_000_000_000),
        (fine, 1, 2, 2, 1_000_000_000_000),
    ];
    for (text, elements, isotopes, reference, total) in cases {
        let table = table_of(alloc, text)?;
        assert_eq!(rt; table.electron(), 548_579_909);
        assert_eq!(rt; table.elements().len(), elements);
        let last = table.elements().last().ok_or("no element")?;
        assert_eq!(rt; last.isotopes().len(), isotopes);
        assert_eq!(rt; last.reference().number, reference);
        assert_eq!(rt; last.total(), total);
    }
    Ok(())
}

#[test]
fn a_table_has_the_values_of_its_file(rt: HostRuntime) -> Result<(), Fail> {
    let alloc = rt.alloc();
    let text = "\u{feff}symbol,number,mass,abundance,valence\r
O,18,17.99915961286,0.00205,2\r
H,1,1.00782503223,0.999885,1\r
O,16,15.99491461957,0.99757,2\r
e-,0,0.000548579909,0,0\r
H,2,2.01410177812,0.000115,1\r
O,17,16.99913175650,0.00038,2\r
";
    let table = table_of(alloc, text)?;
    let elements = table.elements();
    assert_eq!(rt; elements.len(), 2);
    let oxygen = &elements[0];
    assert_eq!(rt; oxygen.symbol().to_string(alloc)?.as_str(), "O");
    assert_eq!(rt; oxygen.valence(), 2);
    assert_eq!(rt; oxygen.reference().number, 16);
    let expected = [
        Isotope {
            number: 16,
            mass: 15_994_914_619_570,
            weight: 997_570_000_000,
        },
        Isotope {
            number: 17,
            mass: 16_999_131_756_500,
            weight: 380_000_000,
        },
        Isotope {
            number: 18,
            mass: 17_999_159_612_860,
            weight: 2_050_000_000,
        },
    ];
    assert_eq!(rt; oxygen.isotopes(), expected.as_slice());
    assert!(rt; oxygen.isotope(15).is_none());
    let hydrogen = Symbol::of(b"H").ok_or("H")?;
    assert_eq!(rt;
        table.element(hydrogen).map(|element| element.valence()),
        Some(1)
    );
    let carbon = Symbol::of(b"C").ok_or("C")?;
    assert!(rt; table.element(carbon).is_none());
    Ok(())
}

#[test]
fn weights_are_in_one_unit_in_both_versions(rt: HostRuntime) -> Result<(), Fail> {
    let alloc = rt.alloc();
    let cases = [
        ("abundance", "0.000000001", 1_000),
        ("abundance12", "0.000000001", 1_000),
        ("abundance", "0.25", 250_000_000_000),
        ("abundance12", "0.250000000001", 250_000_000_001),
        ("abundance12", "1.0", FULL_ABUNDANCE),
        ("abundance", "1", FULL_ABUNDANCE),
    ];
    for (name, abundance, weight) in cases {
        let text = format!(in alloc;
            "symbol,number,mass,{name},valence\n{ELECTRON}Q,1,1,{abundance},1\n"
        )?;
        let table = table_of(alloc, &text)?;
        let isotope = element(&table, b"Q").ok_or("Q")?.isotope(1);
        assert_eq!(rt; isotope.map(|isotope| isotope.weight), Some(weight));
    }
    Ok(())
}

#[test]
fn a_tracer_replaces_the_weights_of_the_elements_that_it_names(
    rt: HostRuntime,
) -> Result<(), Fail> {
    let alloc = rt.alloc();
    let table = table_of(alloc, X_TABLE)?.clone()?;
    let traced = table.traced(
        b"symbol,number,abundance12\nX,10,0.25\nX,11,0.75\nY,21,0.000000000001\n",
    )?;
    let x = element(&traced, b"X").ok_or("X")?;
    let y = element(&traced, b"Y").ok_or("Y")?;
    let cases = [
        (x, 10, 250_000_000_000),
        (x, 11, 750_000_000_000),
        (y, 20, 0),
        (y, 21, 1),
        (y, 22, 0),
    ];
    for (element, number, weight) in cases {
        let isotope = element.isotope(number);
        assert_eq!(rt; isotope.map(|isotope| isotope.weight), Some(weight));
    }
    assert_eq!(rt; x.reference().number, 10);
    assert_eq!(rt; y.reference().mass, 20_000_000_000_000);
    assert_eq!(rt; y.total(), 1);
    assert_eq!(rt; traced.electron(), table.electron());
    let same = table.traced(b"symbol,number,abundance12\n")?;
    let y = element(&same, b"Y").ok_or("Y")?;
    assert_eq!(rt; y.total(), 900_000_000_000);
    Ok(())
}

#[test]
fn the_first_fault_of_a_tracer_is_told_with_its_record(rt: HostRuntime) -> Result<(), Fail> {
    let alloc = rt.alloc();
    let table = table_of(alloc, X_TABLE)?;
    let headers = [
        "",
        "symbol,number,abundance\n",
        "symbol,number,abundance12,x\n",
        "X,10,1\n",
    ];
    for header in headers {
        assert_eq!(rt;
            tracer_words(alloc, &table, header)?.as_str(),
            "record 1: header"
        );
    }
    let cases = [
        ("X,12,1\n", "record 2: mass number"),
        ("X,10,0\n", "no weight: X"),
        ("Y,20,0\nX,10,0\n", "no weight: X"),
        ("X,10\n", "record 2: field count"),
        ("X,10,1\nX,11,1,1\n", "record 3: field count"),
        ("Z,10,2\n", "record 2: symbol"),
        ("e-,0,0\n", "record 2: symbol"),
        ("X,x,2\n", "record 2: mass number"),
        ("X,20,2\n", "record 2: mass number"),
        ("X,10,1.000000000001\n", "record 2: abundance"),
        ("X,10,0.0000000000001\n", "record 2: abundance"),
        ("X,10,1\nY,20,1\nX,010,1\n", "record 4: repeated"),
        ("X,10,0\nX,10,0\n", "record 3: repeated"),
        ("\"X\" , 10,1.0\r\n\nY,20,0\nY,22,1", ""),
    ];
    for (records, expected) in cases {
        let text = format!(in alloc; "symbol,number,abundance12\n{records}")?;
        let words = tracer_words(alloc, &table, &text)?;
        assert!(rt; words.as_str() == expected, "{records:?}: {words}");
    }
    Ok(())
}
