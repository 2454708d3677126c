//! Reading an operator's line.
ghost use Rattle.std.specs.Prelude.{◌≡◌, IfOk};
ghost use Rattle.refusal.specs.Refusals.{refusal_of, first_refusal};
ghost use Rattle.priority.specs.Kinds.{number_refusals};
ghost use Rattle.page_text.specs.Bytes.{words, numbers as numbers_of};
ghost use Rattle.desk_text.specs.Forms.{count_of};
ghost use Rattle.desk_text.specs.Orders.{said, command_said, named, form_order, two, form_arguments, first_order, to_skip, order_in};

use crate::commands::{Command, Order, Unread};
use crate::forms::{Arguments, FORMS, Form};
use page_text::words::{Words, after_name, numbers};
use plan::Member;
use priority::number::Number;
use refusal::Refusal;
use refusal::limits::Num;

/// The number of a programme or slot. One that no programme or slot can have is read as 0.
fn number_of(number: u32) -> Num
    ensures { result ≡ named number }
{
    Num::try_from(number).unwrap_or(0)
}

/// The priority of that number, or refusal 11.
fn priority_of(number: u32) -> Result<Number, Refusal>
    ensures answer { refusal_of result ≡ first_refusal (number_refusals number) }
    ensures value { IfOk result (λ p. p.value ≡ number) }
{
    let value = u16::try_from(number).map_err(|_| Refusal::ValueRange)?;
    Number::new(value)
}

/// The numbers of a text that is so many whole numbers and nothing else, with 0 for one that is not there.
fn end_numbers(text: &[u8], arguments: Arguments) -> Option<(u32, u32)>
    ensures { result ≡ two (numbers_of (count_of arguments) (words text.now)) }
{
    match arguments {
        Arguments::None => {
            let [] = numbers::<0>(text)?;
            Some((0, 0))
        }
        Arguments::One => {
            let [only] = numbers::<1>(text)?;
            Some((only, 0))
        }
        Arguments::Two => {
            let [first, second] = numbers::<2>(text)?;
            Some((first, second))
        }
    }
}

/// The numbers of a line of this form, or none where it is of another.
fn form_numbers(line: &[u8], form: Form) -> Option<(u32, u32)>
    ensures { result ≡ form_arguments form (words line.now) }
{
    let rest = after_name(line, form.name().as_bytes())?;
    end_numbers(rest, form.arguments())
}

/// What a form asks for with its numbers.
fn form_command(form: Form, first: u32, second: u32) -> Result<Command<Number>, Refusal>
    ensures { command_said result ≡ form_order form first second }
{
    let number = number_of(first);
    let command = match form {
        Form::Bar => Command::Bar(number, number_of(second)),
        Form::Lift => Command::Lift(number, number_of(second)),
        Form::RankProgramme => Command::Rank(Member::Programme(number), priority_of(second)?),
        Form::RankSlot => Command::Rank(Member::Slot(number), priority_of(second)?),
        Form::WithdrawProgramme => Command::Withdraw(Member::Programme(number)),
        Form::WithdrawSlot => Command::Withdraw(Member::Slot(number)),
        Form::RestoreProgramme => Command::Restore(Member::Programme(number)),
        Form::RestoreSlot => Command::Restore(Member::Slot(number)),
        Form::SlotOf => Command::SlotOf(number),
        Form::ProgrammeIn => Command::ProgrammeIn(number),
        Form::Tally => Command::Tally(priority_of(first)?),
        Form::Digit => Command::Digit(priority_of(first)?),
        Form::Certificate => Command::Certificate,
        Form::Judge => Command::Judge,
        Form::HandOver => Command::HandOver,
        Form::Reopen => Command::Reopen,
        Form::PlanPage => Command::PlanPage,
        Form::CertificatePage => Command::CertificatePage,
    };
    Ok(command)
}

/// What the first of the forms asks for that the line has.
fn first_order(forms: &[Form], line: &[u8]) -> Order
    ensures { said result ≡ first_order forms.now (words line.now) }
{
    for form in forms {
        if let Some((first, second)) = form_numbers(line, *form) {
            return Ok(Some(form_command(*form, first, second)?));
        }
    }
    Err(Unread::NotUnderstood)
}

/// Whether nothing is to be done with the line: it is blank, or begins with `#`.
fn is_to_skip(line: &[u8]) -> bool
    ensures { result ≡ to_skip line.now }
{
    line.first() == Some(&b'#') || Words::of(line).next().is_none()
}

/// What a line asks for.
pub fn read_order(line: &[u8]) -> Order
    ensures { said result ≡ order_in line.now }
{
    if is_to_skip(line) {
        return Ok(None);
    }
    first_order(&FORMS, line)
}
