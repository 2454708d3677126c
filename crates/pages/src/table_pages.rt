//! Pages of a table, read into a table of 16-bit numbers that the caller supplies.
ghost use Rattle.std.specs.Prelude.{◌≡◌, ◌-◌, length};
ghost use Rattle.pages.specs.Stages.{given};
ghost use Rattle.pages.specs.TablePages.{width, Lent, lent_of, Sheet as Shown, sheet_of, table_format, read_table, table_left};
ghost use Rattle.pages.specs.PageLaws.{ReadsTable, FirstFault};

use crate::content::{Content, read_into};
use page_text::fault::{Fault, Page};
use page_text::line::PageKind;
use page_text::words::numbers;
use refusal::Refusal;
use refusal::limits::SIDE;

/// How many columns a table has.
#[derive(Clone, Copy)]
pub enum Columns {
    One,
    Two,
}

impl Columns {
    /// The number of columns.
    pub fn count(self) -> usize
        ensures { result ≡ width self }
    {
        match self {
            Columns::One => 1,
            Columns::Two => 2,
        }
    }
}

/// A table in the caller's places, and how far it is read: its rows, and how many of its values stand there.
#[derive(Drop)]
pub(crate) struct Sheet<'a> {
    columns: Columns,
    table: &'a mut [u16],
    rows: usize,
    filled: usize,
}

impl Content for Sheet<'_> {
    ghost Shown = { Shown };

    ghost shown = { sheet_of };

    ghost Fixed = { Lent };

    ghost fixed = { lent_of };

    ghost format = { λ lent. table_format lent.columns lent.room };

    ghost room = { λ sheet. length sheet.table.now - sheet.filled };

    fn kind(&self) -> PageKind {
        PageKind::Table
    }

    fn clear(&mut self) {
        self.rows = 0;
        self.filled = 0;
        self.table.fill(0);
    }

    fn take_size(&mut self, line: &[u8]) -> Result<usize, Refusal> {
        let sizes = numbers::<2>(line).ok_or(Refusal::SizeLine)?;
        let [rows, width] = sizes.map(|number| number as usize);
        if rows > 2 * SIDE || width != self.columns.count() {
            return Err(Refusal::SizeLimit);
        }
        if rows * width > self.table.len() {
            return Err(Refusal::TableTooShort);
        }
        self.rows = rows;
        self.filled = 0;
        Ok(rows * width)
    }

    fn take_entry(&mut self, line: &[u8]) -> Result<(), Refusal> {
        let [value] = numbers::<1>(line).ok_or(Refusal::EntryLine)?;
        if value > 65_535 {
            return Err(Refusal::EntryRange);
        }
        self.table[self.filled] = value as u16;
        self.filled += 1;
        Ok(())
    }
}

/// Reads a page of a table into the places of `table` and tells its rows; unused places become 0.
/// After a refusal the table is all 0.
pub fn read_table(
    table: &mut [u16],
    columns: Columns,
    page: Page,
    bytes: &[u8],
) -> Result<usize, Fault>
    ensures answer { result ≡ given (λ sheet. sheet.rows) (read_table columns (length table.old) page bytes.now) }
    ensures after { table.new ≡ table_left (length table.old) (read_table columns (length table.old) page bytes.now) }
    ensures entries { ReadsTable columns (length table.old) bytes.now result table.new }
    ensures first { FirstFault (table_format columns (length table.old)) page bytes.now result }
{
    let mut sheet = Sheet {
        columns,
        table,
        rows: 0,
        filled: 0,
    };
    read_into(&mut sheet, page, bytes)?;
    Ok(sheet.rows)
}
