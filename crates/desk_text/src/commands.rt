//! What an operator's line asks for.
ghost use Rattle.std.specs.Prelude.{◌≡◌};
ghost use Rattle.desk_text.specs.declared.commands.Unread.TheVariants.{Refused};

use plan::Member;
use priority::number::Number;
use refusal::Refusal;
use refusal::limits::Num;

/// A command of the operator, with priorities P.
#[derive(Clone, Copy)]
pub enum Command<P> {
    /// `bar I S`: takes a pair out of the allowed ones.
    Bar(Num, Num),
    /// `lift I S`: puts a pair into the allowed ones.
    Lift(Num, Num),
    /// `rank programme I P`, `rank slot S P`: sets a priority.
    Rank(Member, P),
    /// `withdraw programme I`, `withdraw slot S`: marks one as absent.
    Withdraw(Member),
    /// `restore programme I`, `restore slot S`: marks one as present again.
    Restore(Member),
    /// `slot of I`: the slot in which the programme runs.
    SlotOf(Num),
    /// `programme in S`: the programme that runs in the slot.
    ProgrammeIn(Num),
    /// `tally P`: the tally at the priority.
    Tally(P),
    /// `digit P`: the score digit at the priority.
    Digit(P),
    /// `certificate`: the stored certificate.
    Certificate,
    /// `judge`: whether the plan passes with the stored certificate.
    Judge,
    /// `hand over`: hands the week over.
    HandOver,
    /// `reopen`: opens it again.
    Reopen,
    /// `plan page`: the page of the plan.
    PlanPage,
    /// `certificate page`: the page of the certificate.
    CertificatePage,
}

/// Why a line gives no command.
#[derive(Clone, Copy, PartialEq, Eq, Debug)]
pub enum Unread {
    /// It is refused: its priority is none.
    Refused(Refusal),
    /// It is not understood.
    NotUnderstood,
}

impl From<Refusal> for Unread {
    ghost from_gives = { λ refusal unread. unread ≡ Refused refusal };

    fn from(refusal: Refusal) -> Unread {
        Unread::Refused(refusal)
    }
}

/// What a line asks for: a command, or nothing where it is blank or begins with `#`.
pub type Order = Result<Option<Command<Number>>, Unread>;
