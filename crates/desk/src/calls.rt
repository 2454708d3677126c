//! The calls of a week as values, and what they are answered.
ghost use Rattle.std.specs.Prelude.{◌≡◌};
ghost use Rattle.desk.specs.declared.calls.Unserved.TheVariants.{Refused};

use filing::Wanted;
use page_writer::PageText;
use refusal::Refusal;
use refusal::limits::Num;

/// A question about a week, open or handed over.
#[derive(Drop)]
pub enum Question<P> {
    /// The slot in which the programme runs.
    SlotOf(Num),
    /// The programme that runs in the slot.
    ProgrammeIn(Num),
    /// The score digit at a priority.
    Digit(P),
    /// The tally at a priority.
    Tally(P),
    /// The stored certificate, to be written over the start of the table.
    Certificate(Vec<u16>),
    /// Whether the plan passes with the certificate handed in.
    Judge(Vec<u16>),
    /// Whether the plan passes with the certificate that is stored.
    JudgeStored,
}

/// A call of a week over sources S, priorities P and edits of the kind E.
#[derive(Drop)]
pub enum Call<S, P, E> {
    /// Brings a source and the priorities of both sides.
    Load(S, Vec<P>, Vec<P>),
    /// Edits the week.
    Edit(E),
    /// Asks it.
    Ask(Question<P>),
    /// Writes a page of it into the text.
    Write(Wanted, PageText),
    /// Hands it over.
    HandOver,
    /// Opens it again.
    Reopen,
}

/// What a call that is served is answered.
#[derive(Drop)]
pub enum Answer {
    /// A load, an edit, a hand over or a reopen was accepted.
    Done,
    /// The slot, or none.
    Slot(Option<Num>),
    /// The programme, or none.
    Programme(Option<Num>),
    /// The score digit.
    Digit(usize),
    /// The programmes placed, and the slots filled.
    Tally((usize, usize)),
    /// The table with the certificate written over its start.
    Certificate(Vec<u16>),
    /// Whether the plan passes.
    Verdict(bool),
    /// The page.
    Page(PageText),
}

/// Why a call is not served. Nothing changed then.
#[derive(Clone, Copy, PartialEq, Eq, Debug)]
pub enum Unserved {
    /// The call is refused.
    Refused(Refusal),
    /// The week as it stands, open or handed over, has no such call.
    NotOffered,
}

impl From<Refusal> for Unserved {
    ghost from_gives = { λ refusal unserved. unserved ≡ Refused refusal };

    fn from(refusal: Refusal) -> Unserved {
        Unserved::Refused(refusal)
    }
}

/// What a call comes to.
pub type Served = Result<Answer, Unserved>;
