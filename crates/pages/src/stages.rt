//! Where the reading of a page stands, and how the next line is taken.
ghost use Rattle.std.specs.Prelude.{◌≡◌, ◌+◌, ◌<◌, IfOk};
ghost use Rattle.page_text.specs.Limits.{page_limit};
ghost use Rattle.page_text.specs.Faults.{told};
ghost use Rattle.pages.specs.Stages.{reading, next_line, starting, header_taken, entry_taken, taken_line, spent, given, ending};

use page_text::fault::{Fault, Page, Place};
use page_text::limits::LINE_LIMIT;
use page_text::line::{LineKind, PageKind, is_header, line_kind};
use refusal::Refusal;

/// The stages of a page: which line is awaited.
#[derive(Clone, Copy)]
pub(crate) enum Stage {
    Header,
    Size,
    Entries,
}

/// What is left to do with a line that was taken.
#[derive(Clone, Copy)]
pub(crate) enum Task {
    /// Nothing: it was the header, a comment or a blank line.
    Skip,
    /// It is the size line.
    Size,
    /// It is an entry.
    Entry,
}

/// Where the reading of a page stands.
#[derive(Clone, Copy)]
pub(crate) struct PageReader {
    pub(crate) kind: PageKind,
    pub(crate) place: Place,
    pub(crate) stage: Stage,
    /// How many entries are still awaited.
    pub(crate) left: usize,
}

impl PageReader {
    pub(crate) fn new(kind: PageKind, page: Page) -> PageReader
        ensures reading { reading result ≡ starting }
        ensures kind { result.kind ≡ kind }
        ensures place { result.place ≡ record { page = page; line = 0 } }
    {
        PageReader {
            kind,
            place: Place { page, line: 0 },
            stage: Stage::Header,
            left: 0,
        }
    }

    /// Takes the next line as the stage and the line's kind say, and moves on.
    pub(crate) fn take_line(&mut self, line: &[u8]) -> Result<Task, Fault>
        requires { self.old.place.line < page_limit }
        ensures taken { given (λ task. (task, reading self.new)) result ≡ told (next_line self.old.place) (taken_line self.old.kind (reading self.old) line.now) }
        ensures place { self.new.place ≡ next_line self.old.place }
        ensures kind { self.new.kind ≡ self.old.kind }
        ensures left { IfOk result (λ task. self.new.left + spent task ≡ self.old.left) }
    {
        self.place.line += 1;
        if line.len() > LINE_LIMIT {
            return Err(self.place.fault(Refusal::LineTooLong));
        }
        match (self.stage, line_kind(line)) {
            (Stage::Header, _) => self.take_header(line),
            (Stage::Size, LineKind::Text) => {
                self.stage = Stage::Entries;
                Ok(Task::Size)
            }
            (Stage::Entries, LineKind::Comment | LineKind::Text) => self.take_entry(),
            (Stage::Size, _) | (Stage::Entries, LineKind::Blank) => Ok(Task::Skip),
        }
    }

    fn take_header(&mut self, line: &[u8]) -> Result<Task, Fault>
        ensures taken { given (λ task. (task, reading self.new)) result ≡ told self.old.place (header_taken self.old.kind self.old.left line.now) }
        ensures place { self.new.place ≡ self.old.place }
        ensures kind { self.new.kind ≡ self.old.kind }
        ensures left { IfOk result (λ task. self.new.left + spent task ≡ self.old.left) }
    {
        if !is_header(line, self.kind) {
            return Err(self.place.fault(Refusal::Header));
        }
        self.stage = Stage::Size;
        Ok(Task::Skip)
    }

    fn take_entry(&mut self) -> Result<Task, Fault>
        ensures taken { given (λ task. (task, reading self.new)) result ≡ told self.old.place (entry_taken (reading self.old)) }
        ensures place { self.new.place ≡ self.old.place }
        ensures kind { self.new.kind ≡ self.old.kind }
        ensures left { IfOk result (λ task. self.new.left + spent task ≡ self.old.left) }
    {
        if self.left == 0 {
            return Err(self.place.fault(Refusal::EntryCount));
        }
        self.left -= 1;
        Ok(Task::Entry)
    }

    /// Whether anything is missing, once the lines are taken.
    pub(crate) fn finish(self) -> Result<(), Fault>
        ensures { result ≡ told self.place (ending self.stage self.left tt) }
    {
        match (self.stage, self.left) {
            (Stage::Header, _) => Err(self.place.fault(Refusal::Header)),
            (Stage::Size, _) => Err(self.place.fault(Refusal::SizeLine)),
            (Stage::Entries, 0) => Ok(()),
            (Stage::Entries, _) => Err(self.place.fault(Refusal::EntryCount)),
        }
    }
}
