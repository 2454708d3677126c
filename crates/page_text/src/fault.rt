//! Which page is refused, at which line, and why.
ghost use Rattle.std.specs.Prelude.{◌≡◌};
ghost use Rattle.page_text.specs.Faults.{file_name, fault_at};

use refusal::Refusal;

/// The pages that the programs read, each a file.
#[derive(Clone, Copy, PartialEq, Eq, Debug)]
pub enum Page {
    /// The allowed pairs.
    Pairs,
    /// The priorities of the programmes.
    Programmes,
    /// The priorities of the slots.
    Slots,
    /// A plan.
    Plan,
    /// A certificate.
    Proof,
}

impl Page {
    /// The name of the page's file.
    pub fn file_name(self) -> &'static str
        ensures { result.now ≡ file_name self }
    {
        match self {
            Page::Pairs => "pairs.mtx",
            Page::Programmes => "programmes.mtx",
            Page::Slots => "slots.mtx",
            Page::Plan => "plan.mtx",
            Page::Proof => "proof.mtx",
        }
    }
}

/// Why a page is refused, and where: line 0 stands for the page as a whole.
#[derive(Clone, Copy, PartialEq, Eq, Debug)]
pub struct Fault {
    pub refusal: Refusal,
    pub line: usize,
    pub page: Page,
}

/// A line of a page; line 0 stands for the page as a whole.
#[derive(Clone, Copy)]
pub struct Place {
    pub page: Page,
    pub line: usize,
}

impl Place {
    /// The fault of a refusal at this place.
    pub fn fault(self, refusal: Refusal) -> Fault
        ensures { result ≡ fault_at self refusal }
    {
        Fault {
            refusal,
            line: self.line,
            page: self.page,
        }
    }
}
