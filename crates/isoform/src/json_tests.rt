//! Whole runs over a shelf of small files whose reports are asked for in JSON.
use crate::rows::{AB, ELEMENTS, Failing, Row, check_rows, refused, report};
use std::test::Fail;

/// The files of each run, with their names.
const FILES: [(&str, &[u8]); 5] = [
    ("elements.csv", ELEMENTS),
    ("ab.csv", AB),
    (
        "x.csv",
        b"symbol,number,mass,abundance,valence\ne-,0,0.0005,0,0\nX,10,10,0.5,1\nX,11,11,0.5,1\n",
    ),
    ("empty.csv", b"mz,intensity\n"),
    ("two.csv", b"mz,intensity\n10,100\n20,50\n"),
];

#[test]
fn reports_are_one_line_of_json(rt: HostRuntime) -> Result<(), Fail> {
    let rows = [
        report(
            "decompose --table ab.csv --mass 10 --ppm 1 --alphabet AB --json",
            b"{\"peaks\":[{\"formulas\":[\
              {\"delta\":\"0\",\"formula\":\"A\",\"ion\":\"10.000000000000\",\"mass\":\"10.000000000000\"},\
              {\"delta\":\"10000000\",\"formula\":\"B\",\"ion\":\"10.000010000000\",\"mass\":\"10.000010000000\"}\
              ],\"mz\":\"10.000000000000\",\"peak\":1}]}\n",
        ),
        // A page, and a peak without formulas behind one that has some.
        report(
            "decompose --json --table ab.csv --mass 10 --ppm 1 --alphabet AB --limit 1 --after A",
            b"{\"peaks\":[{\"formulas\":[\
              {\"delta\":\"10000000\",\"formula\":\"B\",\"ion\":\"10.000010000000\",\"mass\":\"10.000010000000\"}\
              ],\"mz\":\"10.000000000000\",\"peak\":1}]}\n",
        ),
        report(
            "decompose --table ab.csv --peaks two.csv --da 0 --alphabet A0-1 --json",
            b"{\"peaks\":[{\"formulas\":[\
              {\"delta\":\"0\",\"formula\":\"A\",\"ion\":\"10.000000000000\",\"mass\":\"10.000000000000\"}\
              ],\"mz\":\"10.000000000000\",\"peak\":1},\
              {\"formulas\":[],\"mz\":\"20.000000000000\",\"peak\":2}]}\n",
        ),
        report(
            "decompose --table elements.csv --peaks empty.csv --ppm 5 --adduct [M+H]+ --alphabet CHNO --json",
            b"{\"peaks\":[]}\n",
        ),
        report(
            "envelope --table x.csv --formula X2 --coverage 0.5 --json",
            b"{\"bound\":1,\"coverage\":\"500000000000000000\",\"formula\":\"X2\",\"isotopologues\":[\
              {\"hi\":\"500000000000000000\",\"isotopologue\":\"[10X][11X]\",\"lo\":\"500000000000000000\",\
              \"mass\":\"21.000000000000\"}],\"size\":1,\"threshold\":\"250000000000000000\"}\n",
        ),
        report(
            "rank --table ab.csv --peaks two.csv --ppm 1 --alphabet AB --coverage 0.9 --turns 0 --json",
            b"{\"jobs\":[{\"count\":0,\"done\":false,\"mz\":\"10.000000000000\",\"peak\":1,\"places\":[]},\
              {\"count\":0,\"done\":false,\"mz\":\"20.000000000000\",\"peak\":2,\"places\":[]}]}\n",
        ),
        report(
            "rank --table ab.csv --peaks two.csv --ppm 1 --alphabet AB --coverage 0.9 --peak 1 --json",
            b"{\"jobs\":[{\"count\":2,\"done\":true,\"mz\":\"10.000000000000\",\"peak\":1,\"places\":[\
              {\"bound\":1,\"formula\":\"A\",\"place\":1,\"score\":\"0\",\"size\":1},\
              {\"bound\":1,\"formula\":\"B\",\"place\":2,\"score\":\"0\",\"size\":1}]}]}\n",
        ),
        refused(
            "envelope --table x.csv --formula X2 --coverage 0.5 --certificate --json",
            2,
            b"isoform: words\n",
        ),
        refused(
            "envelope --table x.csv --formula X2 --coverage 0.5 --json=yes",
            2,
            b"isoform: words\n",
        ),
    ];
    check_rows(&rt, rt.alloc(), FILES.as_slice(), &rows)?;
    Ok(())
}

#[test]
fn a_report_in_json_is_put_at_once(rt: HostRuntime) -> Result<(), Fail> {
    let words = "decompose --table ab.csv --peaks empty.csv --ppm 1 --alphabet AB --json";
    let rows = [
        Row {
            words,
            failing: Failing::Put { call: 1, taken: 3 },
            status: 8,
            out: b"{\"p",
            note: b"isoform: write fault\n",
        },
        // There is no second put that might fail.
        Row {
            words: "rank --table ab.csv --peaks two.csv --ppm 1 --alphabet AB --coverage 0.9 --turns 0 --peak 2 --json",
            failing: Failing::Put { call: 2, taken: 0 },
            status: 0,
            out: b"{\"jobs\":[{\"count\":0,\"done\":false,\"mz\":\"20.000000000000\",\"peak\":2,\"places\":[]}]}\n",
            note: b"",
        },
    ];
    check_rows(&rt, rt.alloc(), FILES.as_slice(), &rows)?;
    Ok(())
}
