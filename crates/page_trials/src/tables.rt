//! Pages of a table, and priorities from them.
use crate::show::{show_priorities, show_table};
use page_text::fault::Page;
use pages::table_pages::Columns;
use priority_pages::reading::{read_houses, read_numbers};
use std::io;

pub(crate) fn read(rt: &HostRuntime) -> io::Result<()> {
    let cases = [
        (
            "one column",
            Columns::One,
            "%%MatrixMarket matrix array integer general\n3 1\n1\n65535\n0\n",
        ),
        (
            "two columns",
            Columns::Two,
            "%%MatrixMarket matrix array integer general\n2 2\n1\n2\n3\n4",
        ),
        (
            "no rows",
            Columns::One,
            "%%MatrixMarket matrix array integer general\n0 1\n",
        ),
    ];
    for (case, columns, page) in cases {
        show_table(rt, case, columns, page.as_bytes())?;
    }
    Ok(())
}

pub(crate) fn refused(rt: &HostRuntime) -> io::Result<()> {
    let cases = [
        (
            "pairs for a table",
            "%%MatrixMarket matrix coordinate pattern general\n0 0 0\n",
        ),
        (
            "columns other than wanted",
            "%%MatrixMarket matrix array integer general\n1 2\n",
        ),
        (
            "401 rows",
            "%%MatrixMarket matrix array integer general\n401 1\n",
        ),
        (
            "table too short",
            "%%MatrixMarket matrix array integer general\n5 1\n",
        ),
        (
            "two values in a line",
            "%%MatrixMarket matrix array integer general\n2 1\n1 2\n",
        ),
        (
            "value over 65,535",
            "%%MatrixMarket matrix array integer general\n1 1\n65536\n",
        ),
        (
            "too few values",
            "%%MatrixMarket matrix array integer general\n2 1\n1",
        ),
        (
            "a value too many",
            "%%MatrixMarket matrix array integer general\n1 1\n1\n2\n",
        ),
    ];
    for (case, page) in cases {
        show_table(rt, case, Columns::One, page.as_bytes())?;
    }
    Ok(())
}

pub(crate) fn priorities(rt: &HostRuntime) -> io::Result<()> {
    numbers(rt)?;
    houses(rt)
}

fn numbers(rt: &HostRuntime) -> io::Result<()> {
    let cases = [
        (
            "numbers 1 and 255",
            "%%MatrixMarket matrix array integer general\n2 1\n1\n255\n",
        ),
        (
            "number 0",
            "%%MatrixMarket matrix array integer general\n2 1\n1\n0\n",
        ),
        (
            "number 256",
            "%%MatrixMarket matrix array integer general\n1 1\n256\n",
        ),
    ];
    for (case, page) in cases {
        show_priorities(rt, case, Page::Programmes, page.as_bytes(), read_numbers)?;
    }
    Ok(())
}

fn houses(rt: &HostRuntime) -> io::Result<()> {
    let cases = [
        (
            "classes 0 and 3",
            "%%MatrixMarket matrix array integer general\n2 2\n0\n3\n520\n0\n",
        ),
        (
            "class 4",
            "%%MatrixMarket matrix array integer general\n1 2\n4\n0\n",
        ),
        (
            "521 weeks",
            "%%MatrixMarket matrix array integer general\n1 2\n0\n521\n",
        ),
    ];
    for (case, page) in cases {
        show_priorities(rt, case, Page::Slots, page.as_bytes(), read_houses)?;
    }
    Ok(())
}
