//! The desk's call for a command.
ghost use Rattle.std.specs.Prelude.{IfOk};
ghost use Rattle.desk_text.specs.Calls.{Asked, PageAsked};

use crate::commands::Command;
use desk::calls::{Call, Question};
use desk::edits::{Edit, OpenEdit};
use filing::Wanted;
use page_writer::PageText;
use priority::number::Number;
use std::alloc::{AllocError, Global};

/// A call of an operator: of an open source, with priorities of the number kind.
pub type OperatorCall<S> = Call<S, Number, OpenEdit<Number>>;

/// The call for a page, with room for it.
fn page_call<S>(heap: Global, wanted: Wanted) -> Result<OperatorCall<S>, AllocError>
    ensures { IfOk result (λ call. PageAsked wanted call) }
{
    let text = PageText::new(heap).map_err(|_| AllocError)?;
    Ok(Call::Write(wanted, text))
}

/// The call for a command. A certificate is asked for in a table of that many places.
pub fn call_of<S>(
    heap: Global,
    command: Command<Number>,
    places: usize,
) -> Result<OperatorCall<S>, AllocError>
    ensures { IfOk result (λ call. Asked places command call) }
{
    match command {
        Command::Bar(programme, slot) => Ok(Call::Edit(OpenEdit::Bar(programme, slot))),
        Command::Lift(programme, slot) => Ok(Call::Edit(OpenEdit::Lift(programme, slot))),
        Command::Rank(who, priority) => Ok(Call::Edit(OpenEdit::Plain(Edit::Rank(who, priority)))),
        Command::Withdraw(who) => Ok(Call::Edit(OpenEdit::Plain(Edit::Withdraw(who)))),
        Command::Restore(who) => Ok(Call::Edit(OpenEdit::Plain(Edit::Restore(who)))),
        Command::SlotOf(programme) => Ok(Call::Ask(Question::SlotOf(programme))),
        Command::ProgrammeIn(slot) => Ok(Call::Ask(Question::ProgrammeIn(slot))),
        Command::Tally(priority) => Ok(Call::Ask(Question::Tally(priority))),
        Command::Digit(priority) => Ok(Call::Ask(Question::Digit(priority))),
        Command::Certificate => {
            let table = vec![in heap; 0; places]?;
            Ok(Call::Ask(Question::Certificate(table)))
        }
        Command::Judge => Ok(Call::Ask(Question::JudgeStored)),
        Command::HandOver => Ok(Call::HandOver),
        Command::Reopen => Ok(Call::Reopen),
        Command::PlanPage => page_call(heap, Wanted::Plan),
        Command::CertificatePage => page_call(heap, Wanted::Certificate),
    }
}
