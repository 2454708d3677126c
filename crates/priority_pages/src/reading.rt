//! Reads the priorities of a page, of any kind.
ghost use Rattle.std.specs.Prelude.{◌≡◌, ◌*◌, ◌≤◌, map, length};
ghost use Rattle.refusal.specs.Limits.{side};
ghost use Rattle.pages.specs.Stages.{given};
ghost use Rattle.pages.specs.TablePages.{read_table};
ghost use Rattle.priority_pages.specs.PriorityPages.{number_of, house_of, kind_rows, read_priorities, values_left, read_numbers, numbers_left, read_houses, houses_left};

use crate::kinds::PagePriority;
use crate::room::PriorityRoom;
use page_text::fault::{Fault, Page, Place};
use pages::table_pages::read_table;
use priority::house::House;
use priority::number::Number;
use refusal::Refusal;
use refusal::tables::entry;

/// The priorities of the first `rows` rows of the table.
#[tactic(auto, using(crate::proofs::Rows::made_step, crate::proofs::Rows::made_all))]
fn make_priorities<P: PagePriority + Copy>(
    room: PriorityRoom<P>,
    table: &[u16],
    rows: usize,
) -> Result<Vec<P>, Refusal>
    requires { rows ≤ 2 * side }
    ensures { given (λ list. map P.made_of list.items) result ≡ kind_rows P.fits P.numbers table.now rows }
{
    let PriorityRoom { mut priorities } = room;
    for number in 1..=rows {
        let first = entry(0, table, number);
        let second = entry(0, table, rows + number);
        priorities.push_reserved(P::of_row(first, second)?);
    }
    Ok(priorities)
}

/// Reads a page of priorities through the supplied table. Numbers that make no priority of the kind
/// give 11 with line 0. After a refusal the table is all 0.
pub fn read_priorities<P: PagePriority + Copy>(
    room: PriorityRoom<P>,
    table: &mut [u16],
    page: Page,
    bytes: &[u8],
) -> Result<Vec<P>, Fault>
    ensures answer { given (λ list. map P.made_of list.items) result ≡ read_priorities (kind_rows P.fits P.numbers) P.columns (length table.old) page bytes.now }
    ensures after { table.new ≡ values_left (length table.old) (read_table P.columns (length table.old) page bytes.now) (read_priorities (kind_rows P.fits P.numbers) P.columns (length table.old) page bytes.now) }
{
    let rows = read_table(table, P::columns(), page, bytes)?;
    let made = make_priorities(room, table, rows);
    if made.is_err() {
        table.fill(0);
    }
    made.map_err(|refusal| Place { page, line: 0 }.fault(refusal))
}

/// Reads a page of priorities of the number kind, through the supplied table. A number outside 1 to 255
/// gives 11 with line 0. After a refusal the table is all 0.
pub fn read_numbers(
    room: PriorityRoom<Number>,
    table: &mut [u16],
    page: Page,
    bytes: &[u8],
) -> Result<Vec<Number>, Fault>
    ensures answer { given (λ list. map number_of list.items) result ≡ read_numbers (length table.old) page bytes.now }
    ensures after { table.new ≡ numbers_left (length table.old) page bytes.now }
{
    read_priorities(room, table, page, bytes)
}

/// Reads a page of priorities of the house kind, through the supplied table. A class outside 0 to 3 or weeks
/// outside 0 to 520 give 11 with line 0. After a refusal the table is all 0.
pub fn read_houses(
    room: PriorityRoom<House>,
    table: &mut [u16],
    page: Page,
    bytes: &[u8],
) -> Result<Vec<House>, Fault>
    ensures answer { given (λ list. map house_of list.items) result ≡ read_houses (length table.old) page bytes.now }
    ensures after { table.new ≡ houses_left (length table.old) page bytes.now }
{
    read_priorities(room, table, page, bytes)
}
