//! The page of a table, as of a certificate.
ghost use Rattle.std.specs.Prelude.{◌≡◌, ◌+◌, ◌*◌, ◌≤◌, [], ◌++◌, length};
ghost use Rattle.std.specs.List.{flat_map};
ghost use Rattle.page_text.specs.Limits.{page_limit};
ghost use Rattle.page_writer.specs.Texts.{text_of};
ghost use Rattle.page_writer.specs.TablePage.{value_line, table_page, TableBack};

use crate::PageText;
use pages::table_pages::Columns;
use refusal::limits::SIDE;

impl PageText {
    /// Adds a line for each value.
    fn push_values(&mut self, values: &[u16])
        requires { length (text_of self.old) + 10 * length values.now ≤ page_limit }
        ensures text { text_of self.new ≡ text_of self.old ++ flat_map value_line values.now }
        ensures longer { length (text_of self.new) ≤ length (text_of self.old) + 10 * length values.now }
    {
        for value in values {
            self.push_line(*value as usize, &[]);
        }
    }

    /// Writes the page of a table into an empty text.
    fn put_table(&mut self, columns: Columns, values: &[u16])
        requires { text_of self.old ≡ [] }
        ensures text { text_of self.new ≡ table_page columns values.now }
        ensures back { TableBack columns values.now (text_of self.new) }
    {
        let width = columns.count();
        let rows = (values.len() / width).min(2 * SIDE);
        self.push(b"%%MatrixMarket matrix array integer general\n");
        self.push_line(rows, &[width]);
        self.push_values(&values[0..rows * width]);
    }

    /// Writes the page of a table whose values are handed column by column. At most twice `SIDE` rows are
    /// written, and no row that the values do not fill. The page reads back as the same table.
    pub fn write_table(&mut self, columns: Columns, values: &[u16])
        ensures text { text_of self.new ≡ table_page columns values.now }
        ensures back { TableBack columns values.now (text_of self.new) }
    {
        self.clear();
        self.put_table(columns, values);
    }
}
