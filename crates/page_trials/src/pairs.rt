//! Pages of pairs.
use crate::show::show_pairs;
use std::io;

/// Tells what each of the pages gives, by the name of its case.
fn show_all(rt: &HostRuntime, cases: &[(&str, &str)]) -> io::Result<()> {
    for (case, page) in cases {
        show_pairs(rt, case, page.as_bytes())?;
    }
    Ok(())
}

pub(crate) fn read(rt: &HostRuntime) -> io::Result<()> {
    let cases = [
        (
            "plain",
            "%%MatrixMarket matrix coordinate pattern general\n3 2 2\n1 2\n3 1\n",
        ),
        (
            "no pairs",
            "%%MatrixMarket matrix coordinate pattern general\n0 0 0\n",
        ),
        (
            "no last line feed",
            "%%MatrixMarket matrix coordinate pattern general\n3 2 1\n1 2",
        ),
        (
            "carriage returns",
            "%%MatrixMarket matrix coordinate pattern general\r\n3 2 1\r\n1 2\r\n",
        ),
        (
            "letters and tabs",
            "%%MatrixMarket\tMATRIX Coordinate pattern GENERAL\n 3\t2 1 \n1\t2\n",
        ),
        (
            "comments and blank lines",
            "%%MatrixMarket matrix coordinate pattern general\n% a note\n\n \t\n3 2 1\n\n1 2\n\n",
        ),
    ];
    show_all(rt, &cases)
}

pub(crate) fn refused(rt: &HostRuntime) -> io::Result<()> {
    headers(rt)?;
    sizes(rt)?;
    entries(rt)
}

fn headers(rt: &HostRuntime) -> io::Result<()> {
    let cases = [
        ("empty page", ""),
        (
            "another kind",
            "%%MatrixMarket matrix array integer general\n1 1\n1\n",
        ),
        (
            "header after a blank",
            " %%MatrixMarket matrix coordinate pattern general\n0 0 0\n",
        ),
        (
            "header in small letters",
            "%%matrixmarket matrix coordinate pattern general\n0 0 0\n",
        ),
        (
            "header with a word more",
            "%%MatrixMarket matrix coordinate pattern general x\n0 0 0\n",
        ),
    ];
    show_all(rt, &cases)
}

fn sizes(rt: &HostRuntime) -> io::Result<()> {
    let cases = [
        (
            "no size line",
            "%%MatrixMarket matrix coordinate pattern general\n% note\n\n",
        ),
        (
            "two sizes",
            "%%MatrixMarket matrix coordinate pattern general\n3 2\n",
        ),
        (
            "ten digits",
            "%%MatrixMarket matrix coordinate pattern general\n0000000003 2 0\n",
        ),
        (
            "200 rows",
            "%%MatrixMarket matrix coordinate pattern general\n200 200 0\n",
        ),
        (
            "201 rows",
            "%%MatrixMarket matrix coordinate pattern general\n201 200 0\n",
        ),
        (
            "201 columns",
            "%%MatrixMarket matrix coordinate pattern general\n200 201 0\n",
        ),
        (
            "more pairs than places",
            "%%MatrixMarket matrix coordinate pattern general\n2 2 5\n",
        ),
    ];
    show_all(rt, &cases)
}

fn entries(rt: &HostRuntime) -> io::Result<()> {
    let cases = [
        (
            "one number",
            "%%MatrixMarket matrix coordinate pattern general\n3 2 1\n1\n",
        ),
        (
            "comment among entries",
            "%%MatrixMarket matrix coordinate pattern general\n3 2 1\n% note\n1 2\n",
        ),
        (
            "row 0",
            "%%MatrixMarket matrix coordinate pattern general\n3 2 1\n0 1\n",
        ),
        (
            "column 3 of 2",
            "%%MatrixMarket matrix coordinate pattern general\n3 2 1\n1 3\n",
        ),
        (
            "pair twice",
            "%%MatrixMarket matrix coordinate pattern general\n3 2 2\n1 2\n1 2\n",
        ),
        (
            "too few",
            "%%MatrixMarket matrix coordinate pattern general\n3 2 2\n1 2\n\n",
        ),
        (
            "one too many",
            "%%MatrixMarket matrix coordinate pattern general\n3 2 1\n1 2\nnot numbers\n",
        ),
    ];
    show_all(rt, &cases)
}
