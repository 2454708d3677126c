//! Written pages.
use page_writer::PageText;
use pages::table_pages::Columns;
use std::io;
use std::str::from_utf8;

/// Prints a page as it stands.
fn show(rt: &HostRuntime, case: &str, page: &PageText) -> io::Result<()> {
    println!(rt; "{case}:")?;
    match from_utf8(page.as_bytes()) {
        Ok(text) => print!(rt; "{text}"),
        Err(_) => println!(rt; "not text"),
    }
}

pub(crate) fn written(rt: &HostRuntime) -> io::Result<()> {
    let Ok(mut page) = PageText::new(rt.alloc()) else {
        return println!(rt; "written: no memory");
    };
    page.write_plan(2, &[0, 1, 2]);
    show(rt, "plan", &page)?;
    page.write_plan(0, &[]);
    show(rt, "empty plan", &page)?;
    page.write_table(Columns::One, &[1, 1, 1, 0, 0]);
    show(rt, "certificate", &page)?;
    page.write_table(Columns::Two, &[0, 3, 520, 10, 7]);
    show(rt, "two columns", &page)
}
