//! The questions of a week, open or handed over, and the pages of one that is handed over.
ghost use Rattle.std.specs.Prelude.{◌≡◌, ℕ, Bool, List};
ghost use Rattle.plan.specs.Held.{held};
ghost use Rattle.plan.specs.Parts.{ranked, whole_refusals};
ghost use Rattle.week.specs.Sheets.{plan_in, certificate_in};
ghost use Rattle.filing.specs.Filed.{page_of};
ghost use Rattle.desk.specs.Ledger.{account, in_order};
ghost use Rattle.desk.specs.Told.{told, or_refused, page};
ghost use Rattle.desk.specs.Moments.{judged, answer_question};
ghost use Rattle.desk.specs.Desks.{sheet_of};

use crate::calls::{Answer, Question, Served};
use crate::standing::Standing;
use filing::{ENTRIES, Wanted, write_page};
use judge::judge;
use page_writer::PageText;
use plan::Plan;
use plan::parts::Parts;
use priority::Priority;
use source::PairSource;
use week::FiledWeek;

/// Whether the plan passes with the certificate.
fn judge_with<S: PairSource, P: Priority + Copy>(
    plan: &Plan,
    parts: &Parts<S, P>,
    certificate: &[u16],
) -> Served
    ensures { (possible : ℕ → ℕ → Bool) (stored : List ℕ) → told result ≡ judged P.Priority.reaches (account (S.PairSource.pairs parts.now.source.now) possible (ranked parts.now.programmes.now) (ranked parts.now.slots.now) (held plan.now).attendance) (held plan.now).slot_of stored certificate.now }
{
    Ok(Answer::Verdict(judge(plan, parts, certificate)?))
}

/// Whether the plan passes with the stored certificate.
fn judge_stored<S: PairSource, P: Priority + Copy>(
    standing: &Standing,
    parts: &Parts<S, P>,
) -> Served
    ensures { (possible : ℕ → ℕ → Bool) → told result ≡ judged P.Priority.reaches (account (S.PairSource.pairs parts.now.source.now) possible (ranked parts.now.programmes.now) (ranked parts.now.slots.now) (plan_in (sheet_of standing.now)).attendance) (plan_in (sheet_of standing.now)).slot_of (certificate_in (sheet_of standing.now)) (certificate_in (sheet_of standing.now)) }
{
    let mut entries = [0; ENTRIES];
    standing.certificate(parts, &mut entries)?;
    let stored = standing.stored();
    let count = stored.programmes().len() + stored.slots().len();
    judge_with(standing.plan(), parts, &entries[0..count])
}

/// Answers a question about a week and its parts.
pub(crate) fn ask<S: PairSource, P: Priority + Copy>(
    standing: &Standing,
    parts: &Parts<S, P>,
    question: Question<P>,
) -> Served
    ensures { (possible : ℕ → ℕ → Bool) → told result ≡ answer_question P.Priority.reaches (account (S.PairSource.pairs parts.now.source.now) possible (ranked parts.now.programmes.now) (ranked parts.now.slots.now) (plan_in (sheet_of standing.now)).attendance) (plan_in (sheet_of standing.now)).slot_of (certificate_in (sheet_of standing.now)) question }
{
    let plan = standing.plan();
    match question {
        Question::SlotOf(programme) => Ok(Answer::Slot(plan.slot_of(parts, programme)?)),
        Question::ProgrammeIn(slot) => Ok(Answer::Programme(plan.programme_in(parts, slot)?)),
        Question::Digit(priority) => Ok(Answer::Digit(plan.digit(parts, &priority)?)),
        Question::Tally(priority) => Ok(Answer::Tally(plan.tally(parts, &priority)?)),
        Question::Certificate(mut table) => {
            standing.certificate(parts, &mut table)?;
            Ok(Answer::Certificate(table))
        }
        Question::Judge(certificate) => judge_with(plan, parts, &certificate),
        Question::JudgeStored => judge_stored(standing, parts),
    }
}

/// Writes the page wanted into the text.
pub(crate) fn page_answer<S: PairSource, P: Priority + Copy>(
    week: &FiledWeek,
    parts: &Parts<S, P>,
    wanted: Wanted,
    mut text: PageText,
) -> Served
    ensures { (possible : ℕ → ℕ → Bool) → told result ≡ or_refused (whole_refusals (in_order (account (S.PairSource.pairs parts.now.source.now) possible (ranked parts.now.programmes.now) (ranked parts.now.slots.now) (plan_in week.now.sheet).attendance))) (page (page_of wanted (S.PairSource.pairs parts.now.source.now).slots (plan_in week.now.sheet).slot_of (certificate_in week.now.sheet))) }
{
    write_page(week, parts, wanted, &mut text)?;
    Ok(Answer::Page(text))
}
