//! The page of a plan.
ghost use Rattle.std.specs.Prelude.{◌≡◌, ◌+◌, ◌*◌, ◌≤◌, [], ◌++◌, count_by, length, Ok};
ghost use Rattle.std.specs.List.{flat_map};
ghost use Rattle.refusal.specs.Limits.{side};
ghost use Rattle.refusal.specs.Counting.{within};
ghost use Rattle.page_text.specs.Limits.{page_limit};
ghost use Rattle.page_text.specs.declared.fault.Page.{Page};
ghost use Rattle.pages.specs.PairPages.{read_pairs};
ghost use Rattle.page_writer.specs.Texts.{text_of};
ghost use Rattle.page_writer.specs.PlanPage.{places, pair_line, plan_page, plan_pairs};

use crate::PageText;
use refusal::limits::{Num, SIDE, is_within};

/// How many of the programmes have a slot within the columns.
fn count_places(columns: usize, slot_of: &[Num]) -> usize
    ensures { result ≡ count_by (within columns) slot_of.now }
{
    let slots = slot_of.iter();
    slots
        .filter(|slot| is_within(columns, **slot as usize))
        .count()
}

impl PageText {
    /// Adds a line for each of the programmes that has a slot within the columns.
    fn push_places(&mut self, columns: usize, slot_of: &[Num])
        requires room { length (text_of self.old) + 20 * length slot_of.now ≤ page_limit }
        requires rows { length slot_of.now ≤ side }
        requires columns { columns ≤ side }
        ensures text { text_of self.new ≡ text_of self.old ++ flat_map pair_line (places columns slot_of.now (length slot_of.now)) }
        ensures longer { length (text_of self.new) ≤ length (text_of self.old) + 20 * length slot_of.now }
    {
        for (i, slot) in slot_of.iter().enumerate() {
            let slot = *slot as usize;
            if is_within(columns, slot) {
                self.push_line(i + 1, &[slot]);
            }
        }
    }

    /// Writes the page of a plan into an empty text.
    fn put_plan(&mut self, slots: Num, slot_of: &[Num])
        requires { text_of self.old ≡ [] }
        ensures text { text_of self.new ≡ plan_page slots slot_of.now }
        ensures back { (page : Page) → read_pairs page (text_of self.new) ≡ Ok (plan_pairs slots slot_of.now) }
    {
        let rows = slot_of.len().min(SIDE);
        let columns = (slots as usize).min(SIDE);
        let slot_of = &slot_of[0..rows];
        self.push(b"%%MatrixMarket matrix coordinate pattern general\n");
        self.push_line(rows, &[columns, count_places(columns, slot_of)]);
        self.push_places(columns, slot_of);
    }

    /// Writes the page of a plan, told as the slot of each programme or 0. At most `SIDE` programmes and
    /// slots are written, and a slot beyond the count as none. The page reads back as the same plan.
    pub fn write_plan(&mut self, slots: Num, slot_of: &[Num])
        ensures text { text_of self.new ≡ plan_page slots slot_of.now }
        ensures back { (page : Page) → read_pairs page (text_of self.new) ≡ Ok (plan_pairs slots slot_of.now) }
    {
        self.clear();
        self.put_plan(slots, slot_of);
    }
}
