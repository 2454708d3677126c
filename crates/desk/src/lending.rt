//! A desk's lists of priorities, lent as rankings to the calls of a week.
ghost use Rattle.std.specs.Prelude.{◌≡◌, ℕ, Bool, OnErr, OnOk};
ghost use Rattle.refusal.specs.Refusals.{refusal_of, first_refusal};
ghost use Rattle.plan.specs.Held.{everyone};
ghost use Rattle.plan.specs.Parts.{parts_fit, whole_refusals};
ghost use Rattle.week.specs.Planned.{Planned};
ghost use Rattle.week.specs.Sheets.{plan_in, certificate_in};
ghost use Rattle.source.specs.Missing.{pairs_if_any, possible_if_any};
ghost use Rattle.filing.specs.Filed.{page_of};
ghost use Rattle.desk.specs.Ledger.{account, in_order};
ghost use Rattle.desk.specs.Told.{told, or_refused, page};
ghost use Rattle.desk.specs.Moments.{answer_question};
ghost use Rattle.desk.specs.Desks.{sheet_of};

use crate::asking::{ask, page_answer};
use crate::calls::{Question, Served};
use crate::edits::EditKind;
use crate::standing::Standing;
use filing::Wanted;
use page_writer::PageText;
use plan::parts::Parts;
use priority::Priority;
use priority::ranking::Ranking;
use refusal::Refusal;
use source::PairSource;
use week::{FiledWeek, Week};

/// Loads the week with the source and the lists.
pub(crate) fn load_week<S: PairSource, P: Priority + Copy>(
    week: &mut Week,
    source: &S,
    programmes: &mut [P],
    slots: &mut [P],
) -> Result<(), Refusal>
    ensures answer { refusal_of result ≡ first_refusal (whole_refusals (parts_fit (S.PairSource.pairs source.now) programmes.old slots.old)) }
    ensures kept { OnErr result (week.new ≡ week.old) }
    ensures lists { (programmes.new ≡ programmes.old) × (slots.new ≡ slots.old) }
    ensures attendance { OnOk result ((plan_in week.new.sheet).attendance ≡ everyone (S.PairSource.pairs source.now).programmes (S.PairSource.pairs source.now).slots) }
    ensures planned { OnOk result (Planned P.Priority.reaches (S.PairSource.pairs source.now) programmes.old slots.old (plan_in week.new.sheet) (certificate_in week.new.sheet)) }
{
    let programmes = Ranking::new(programmes);
    let slots = Ranking::new(slots);
    week.load(&Parts {
        source,
        programmes: &programmes,
        slots: &slots,
    })
}

/// Makes the edit on the week, the source and the lists.
pub(crate) fn edit_week<S: PairSource, P: Priority + Copy, E: EditKind<S, P>>(
    edit: E,
    week: &mut Week,
    source: &mut Option<S>,
    programmes: &mut [P],
    slots: &mut [P],
) -> Result<(), Refusal>
    ensures answer { refusal_of result ≡ first_refusal (E.EditKind.rules.refusals (account (pairs_if_any S.PairSource.pairs source.old) (possible_if_any E.EditKind.rules.possible source.old) programmes.old slots.old (plan_in week.old.sheet).attendance) edit) }
    ensures kept { OnErr result ((week.new ≡ week.old) × (account (pairs_if_any S.PairSource.pairs source.new) (possible_if_any E.EditKind.rules.possible source.new) programmes.new slots.new (plan_in week.new.sheet).attendance ≡ account (pairs_if_any S.PairSource.pairs source.old) (possible_if_any E.EditKind.rules.possible source.old) programmes.old slots.old (plan_in week.old.sheet).attendance)) }
    ensures entered { OnOk result (account (pairs_if_any S.PairSource.pairs source.new) (possible_if_any E.EditKind.rules.possible source.new) programmes.new slots.new (plan_in week.new.sheet).attendance ≡ E.EditKind.rules.entered edit (account (pairs_if_any S.PairSource.pairs source.old) (possible_if_any E.EditKind.rules.possible source.old) programmes.old slots.old (plan_in week.old.sheet).attendance)) }
    ensures planned { OnOk result (Planned P.Priority.reaches (pairs_if_any S.PairSource.pairs source.new) programmes.new slots.new (plan_in week.new.sheet) (certificate_in week.new.sheet)) }
{
    let mut programmes = Ranking::new(programmes);
    let mut slots = Ranking::new(slots);
    edit.make(week, source, &mut programmes, &mut slots)
}

/// Asks the week with the lists.
pub(crate) fn ask_week<S: PairSource, P: Priority + Copy>(
    standing: &Standing,
    source: &S,
    programmes: &mut [P],
    slots: &mut [P],
    question: Question<P>,
) -> Served
    ensures told { (possible : ℕ → ℕ → Bool) → told result ≡ answer_question P.Priority.reaches (account (S.PairSource.pairs source.now) possible programmes.old slots.old (plan_in (sheet_of standing.now)).attendance) (plan_in (sheet_of standing.now)).slot_of (certificate_in (sheet_of standing.now)) question }
    ensures lists { (programmes.new ≡ programmes.old) × (slots.new ≡ slots.old) }
{
    let programmes = Ranking::new(programmes);
    let slots = Ranking::new(slots);
    ask(
        standing,
        &Parts {
            source,
            programmes: &programmes,
            slots: &slots,
        },
        question,
    )
}

/// Writes the page of the week with the lists.
pub(crate) fn write_page<S: PairSource, P: Priority + Copy>(
    week: &FiledWeek,
    source: &S,
    programmes: &mut [P],
    slots: &mut [P],
    wanted: Wanted,
    text: PageText,
) -> Served
    ensures told { (possible : ℕ → ℕ → Bool) → told result ≡ or_refused (whole_refusals (in_order (account (S.PairSource.pairs source.now) possible programmes.old slots.old (plan_in week.now.sheet).attendance))) (page (page_of wanted (S.PairSource.pairs source.now).slots (plan_in week.now.sheet).slot_of (certificate_in week.now.sheet))) }
    ensures lists { (programmes.new ≡ programmes.old) × (slots.new ≡ slots.old) }
{
    let programmes = Ranking::new(programmes);
    let slots = Ranking::new(slots);
    page_answer(
        week,
        &Parts {
            source,
            programmes: &programmes,
            slots: &slots,
        },
        wanted,
        text,
    )
}
