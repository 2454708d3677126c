//! What a page is read into, and the reading of a page into it.
ghost use Rattle.std.specs.Prelude.{◌≡◌, ℕ, ◌+◌, ◌<◌, ◌≤◌, IfOk, OnOk, OnErr};
ghost use Rattle.page_text.specs.Limits.{page_limit};
ghost use Rattle.page_text.specs.Faults.{told};
ghost use Rattle.pages.specs.Stages.{reading, next_line, given, Format, step, read_page};
ghost use Rattle.pages.specs.PageLaws.{FirstFault};

use crate::stages::{PageReader, Task};
use page_text::fault::{Fault, Page, Place};
use page_text::limits::PAGE_LIMIT;
use page_text::line::PageKind;
use page_text::lines::Lines;
use refusal::Refusal;

/// What a page is read into: it is emptied, takes the size line, and then takes the entries one by one.
pub(crate) trait Content {
    /// What it holds, in the words of the definitions.
    ghost Shown: { Type 0 };

    ghost shown: { Self → Shown };

    /// What a read leaves as it is, and the format that it makes.
    ghost Fixed: { Type 0 };

    ghost fixed: { Self → Fixed };

    ghost format: { Fixed → Format Shown };

    /// For how many entries more there is room.
    ghost room: { Self → ℕ };

    /// The kind of page that it takes.
    fn kind(&self) -> PageKind
        ensures { result ≡ (format (fixed self.now)).kind };

    /// Empties it.
    fn clear(&mut self)
        ensures fresh { shown self.new ≡ (format (fixed self.old)).fresh }
        ensures fixed { fixed self.new ≡ fixed self.old };

    /// Takes the sizes of a size line, and tells how many entries follow.
    fn take_size(&mut self, line: &[u8]) -> Result<usize, Refusal>
        ensures sized { given (λ entries. (entries, shown self.new)) result ≡ (format (fixed self.old)).sized (shown self.old) line.now }
        ensures room { IfOk result (λ entries. entries ≤ room self.new) }
        ensures fixed { fixed self.new ≡ fixed self.old };

    /// Takes an entry line.
    fn take_entry(&mut self, line: &[u8]) -> Result<(), Refusal>
        requires { 0 < room self.old }
        ensures entered { given (λ _. shown self.new) result ≡ (format (fixed self.old)).entered (shown self.old) line.now }
        ensures room { OnOk result (room self.old ≤ room self.new + 1) }
        ensures fixed { fixed self.new ≡ fixed self.old };
}

/// Takes the next line of the page.
fn take_line<C: Content>(reader: &mut PageReader, content: &mut C, line: &[u8]) -> Result<(), Fault>
    requires line { reader.old.place.line < page_limit }
    requires kind { reader.old.kind ≡ (C.format (C.fixed content.old)).kind }
    requires room { reader.old.left ≤ C.room content.old }
    ensures step { given (λ _. (reading reader.new, C.shown content.new)) result ≡ told (next_line reader.old.place) (step (C.format (C.fixed content.old)) (reading reader.old, C.shown content.old) line.now) }
    ensures place { reader.new.place ≡ next_line reader.old.place }
    ensures kind { reader.new.kind ≡ reader.old.kind }
    ensures room { OnOk result (reader.new.left ≤ C.room content.new) }
    ensures fixed { C.fixed content.new ≡ C.fixed content.old }
{
    let task = reader.take_line(line)?;
    let place = reader.place;
    match task {
        Task::Skip => Ok(()),
        Task::Size => {
            reader.left = content
                .take_size(line)
                .map_err(|refusal| place.fault(refusal))?;
            Ok(())
        }
        Task::Entry => content
            .take_entry(line)
            .map_err(|refusal| place.fault(refusal)),
    }
}

/// Reads the page into the emptied content.
fn fill<C: Content>(content: &mut C, page: Page, bytes: &[u8]) -> Result<(), Fault>
    ensures answer { given (λ _. C.shown content.new) result ≡ read_page (C.format (C.fixed content.old)) page bytes.now }
    ensures fixed { C.fixed content.new ≡ C.fixed content.old }
{
    content.clear(); // unused places stay so
    if bytes.len() > PAGE_LIMIT {
        return Err(Place { page, line: 0 }.fault(Refusal::PageTooLong));
    }
    let mut reader = PageReader::new(content.kind(), page);
    for line in Lines::of(bytes) {
        take_line(&mut reader, content, line)?;
    }
    reader.finish()
}

/// Reads the page into the content, which is empty after a refusal.
pub(crate) fn read_into<C: Content>(content: &mut C, page: Page, bytes: &[u8]) -> Result<(), Fault>
    ensures answer { given (λ _. C.shown content.new) result ≡ read_page (C.format (C.fixed content.old)) page bytes.now }
    ensures after { OnErr result (C.shown content.new ≡ (C.format (C.fixed content.old)).fresh) }
    ensures first { FirstFault (C.format (C.fixed content.old)) page bytes.now result }
    ensures fixed { C.fixed content.new ≡ C.fixed content.old }
{
    let read = fill(content, page, bytes);
    if read.is_err() {
        content.clear();
    }
    read
}
