//! How a case is told.
use grid::Grid;
use page_text::fault::{Fault, Page};
use pages::pair_pages::read_pairs;
use pages::table_pages::{Columns, read_table};
use priority_pages::room::PriorityRoom;
use source::PairSource;
use std::io;

/// Tells a refusal as programs do.
pub(crate) fn show_fault(rt: &HostRuntime, case: &str, fault: Fault) -> io::Result<()> {
    let number = fault.refusal.number();
    let page = fault.page.file_name();
    let line = fault.line;
    println!(rt; "{case}: refused {number} {page} {line}")
}

/// Reads a page of pairs, and tells its sizes and the first pair of its first programme.
pub(crate) fn show_pairs(rt: &HostRuntime, case: &str, bytes: &[u8]) -> io::Result<()> {
    let Ok(mut grid) = Grid::new(rt.alloc(), 1, 1) else {
        return println!(rt; "{case}: no memory");
    };
    match read_pairs(&mut grid, Page::Pairs, bytes) {
        Ok(()) => {
            let rows = grid.programmes();
            let columns = grid.slots();
            let first = grid.first_slot(1, 1).unwrap_or(0);
            println!(rt; "{case}: {rows} by {columns}, first slot of 1 is {first}")
        }
        Err(fault) => show_fault(rt, case, fault),
    }
}

/// Reads a page of a table into four places, and tells its rows and the places.
pub(crate) fn show_table(
    rt: &HostRuntime,
    case: &str,
    columns: Columns,
    bytes: &[u8],
) -> io::Result<()> {
    let mut table = [9u16; 4];
    match read_table(&mut table, columns, Page::Proof, bytes) {
        Ok(rows) => {
            let [a, b, c, d] = table;
            println!(rt; "{case}: {rows} rows, {a} {b} {c} {d}")
        }
        Err(fault) => show_fault(rt, case, fault),
    }
}

/// Reads the priorities of a page of a table by `read`, and tells how many there are.
pub(crate) fn show_priorities<P, F>(
    rt: &HostRuntime,
    case: &str,
    page: Page,
    bytes: &[u8],
    read: F,
) -> io::Result<()>
where
    P: Drop,
    F: Fn(PriorityRoom<P>, &mut [u16], Page, &[u8]) -> Result<Vec<P>, Fault>,
    requires { F.IsAlwaysCallable read }
{
    let mut table = [0u16; 4];
    let Ok(room) = PriorityRoom::<P>::new(rt.alloc()) else {
        return println!(rt; "{case}: no memory");
    };
    match read(room, &mut table, page, bytes) {
        Ok(priorities) => {
            let many = priorities.len();
            println!(rt; "{case}: {many} priorities")
        }
        Err(fault) => show_fault(rt, case, fault),
    }
}
