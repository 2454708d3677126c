//! The lines that the operator is told, without their line feeds.
ghost use Rattle.std.specs.Prelude.{◌≡◌, Some, IfOk, string_bytes};
ghost use Rattle.std.specs.List.{flat_map};
ghost use Rattle.std.specs.Fmt.{WritesOnOk};
ghost use Rattle.desk.specs.Told.{told};
ghost use Rattle.desk_text.specs.Answers.{spaced, answer_line, unread_line};

use crate::commands::Unread;
use desk::calls::{Answer, Served, Unserved};
use std::alloc::{AllocError, Global};
use std::fmt;

/// Shows what a call comes to as the line that is told. A page is told by its name, and its text is for
/// the program to write.
#[derive(Clone, Copy)]
pub struct AnswerLine<'a>(pub &'a Served);

/// Writes each entry after a space.
fn write_entries<W: fmt::Write>(f: &mut fmt::Formatter<W>, entries: &[u16]) -> fmt::Result
    ensures { WritesOnOk W.write_str_gives f.old result (flat_map spaced entries.now) f.new }
{
    for entry in entries {
        write!(f, " {entry}")?;
    }
    Ok(())
}

impl fmt::Display for AnswerLine<'_> {
    ghost output = { λ line. Some (answer_line (told line.0.now)) };

    fn fmt<W: fmt::Write>(&self, f: &mut fmt::Formatter<W>) -> fmt::Result {
        match self.0 {
            Ok(Answer::Done) => f.write_str("done"),
            Ok(Answer::Slot(Some(slot))) => write!(f, "slot {slot}"),
            Ok(Answer::Slot(None)) => f.write_str("no slot"),
            Ok(Answer::Programme(Some(programme))) => write!(f, "programme {programme}"),
            Ok(Answer::Programme(None)) => f.write_str("no programme"),
            Ok(Answer::Digit(digit)) => write!(f, "digit {digit}"),
            Ok(Answer::Tally((programmes, slots))) => write!(f, "tally {programmes} {slots}"),
            Ok(Answer::Certificate(entries)) => {
                f.write_str("certificate")?;
                write_entries(f, entries)
            }
            Ok(Answer::Verdict(true)) => f.write_str("accepted"),
            Ok(Answer::Verdict(false)) => f.write_str("rejected"),
            Ok(Answer::Page(_)) => f.write_str("page"),
            Err(Unserved::Refused(refusal)) => write!(f, "refused {}", refusal.number()),
            Err(Unserved::NotOffered) => f.write_str("not offered"),
        }
    }
}

impl fmt::Display for Unread {
    ghost output = { λ unread. Some (unread_line unread) };

    fn fmt<W: fmt::Write>(&self, f: &mut fmt::Formatter<W>) -> fmt::Result {
        match self {
            Unread::Refused(refusal) => write!(f, "refused {}", refusal.number()),
            Unread::NotUnderstood => f.write_str("not understood"),
        }
    }
}

/// The line of what a call comes to. Nothing of it is told before all of it is made.
pub fn answer_text(heap: Global, answer: &Served) -> Result<String, AllocError>
    ensures { IfOk result (λ text. string_bytes text ≡ answer_line (told answer.now)) }
{
    format!(in heap; "{}", AnswerLine(answer))
}

/// The line that is told where no call is made.
pub fn unread_text(heap: Global, unread: Unread) -> Result<String, AllocError>
    ensures { IfOk result (λ text. string_bytes text ≡ unread_line unread) }
{
    format!(in heap; "{unread}")
}
