//! The pages of a handed-over week: its plan, and the certificate that proves it best.
//!
//! Only a `FiledWeek` has pages; a week that is still open is handed over first. Each writer is handed
//! the source and the rankings that the week stands for, and writes into a text that has its room.
#![tactic(auto)]

ghost use Rattle.std.specs.Prelude.{◌≡◌, Ok, OnErr, OnOk};
ghost use Rattle.refusal.specs.Refusals.{refusal_of, first_refusal};
ghost use Rattle.plan.specs.Parts.{fit_with, whole_refusals};
ghost use Rattle.page_text.specs.declared.fault.Page.{Page};
ghost use Rattle.pages.specs.declared.table_pages.Columns.TheVariants.{One};
ghost use Rattle.pages.specs.PairPages.{read_pairs};
ghost use Rattle.page_writer.specs.Texts.{text_of};
ghost use Rattle.page_writer.specs.PlanPage.{plan_page, plan_pairs};
ghost use Rattle.page_writer.specs.TablePage.{table_page, TableBack};
ghost use Rattle.filing.specs.Filed.{filed_plan, filed_certificate, page_of};

use page_writer::PageText;
use pages::table_pages::Columns;
use plan::parts::Parts;
use priority::Priority;
use refusal::Refusal;
use refusal::limits::SIDE;
use source::PairSource;
use week::FiledWeek;

/// The most entries of a certificate: one for each programme, and one for each slot.
pub const ENTRIES: usize = 2 * SIDE;

/// Which page of a handed-over week is wanted.
#[derive(Clone, Copy, PartialEq, Eq, Debug)]
pub enum Wanted {
    /// The page of its plan.
    Plan,
    /// The page of its certificate.
    Certificate,
}

/// Writes the page of the plan. Refuses 12 where the parts do not fit together, and then the text stays
/// as it is. The page reads back as the same plan.
pub fn write_plan_page<S: PairSource, P: Priority + Copy>(
    week: &FiledWeek,
    parts: &Parts<S, P>,
    text: &mut PageText,
) -> Result<(), Refusal>
    ensures answer { refusal_of result ≡ first_refusal (whole_refusals (fit_with S.PairSource.pairs parts.now (filed_plan week.now))) }
    ensures kept { OnErr result (text.new ≡ text.old) }
    ensures page { OnOk result (text_of text.new ≡ plan_page (S.PairSource.pairs parts.now.source.now).slots (filed_plan week.now).slot_of) }
    ensures back { OnOk result ((page : Page) → read_pairs page (text_of text.new) ≡ Ok (plan_pairs (S.PairSource.pairs parts.now.source.now).slots (filed_plan week.now).slot_of)) }
{
    let plan = week.plan();
    if !plan.fits(parts) {
        return Err(Refusal::Mismatch);
    }
    text.write_plan(parts.source.slots(), plan.slot_of_table());
    Ok(())
}

/// Writes the page of the certificate, an entry for each programme and then one for each slot. Refuses
/// 12 where the parts do not fit together, and then the text stays as it is. The page reads back as the
/// same certificate.
pub fn write_certificate_page<S: PairSource, P: Priority + Copy>(
    week: &FiledWeek,
    parts: &Parts<S, P>,
    text: &mut PageText,
) -> Result<(), Refusal>
    ensures answer { refusal_of result ≡ first_refusal (whole_refusals (fit_with S.PairSource.pairs parts.now (filed_plan week.now))) }
    ensures kept { OnErr result (text.new ≡ text.old) }
    ensures page { OnOk result (text_of text.new ≡ table_page One (filed_certificate week.now)) }
    ensures back { OnOk result (TableBack One (filed_certificate week.now) (text_of text.new)) }
{
    let stored = week.stored();
    let count = stored.programmes().len() + stored.slots().len();
    let mut entries = [0; ENTRIES];
    week.certificate(parts, &mut entries)?;
    text.write_table(Columns::One, &entries[0..count]);
    Ok(())
}

/// Writes the page wanted. Refuses 12 where the parts do not fit together, and then the text stays as it is.
pub fn write_page<S: PairSource, P: Priority + Copy>(
    week: &FiledWeek,
    parts: &Parts<S, P>,
    wanted: Wanted,
    text: &mut PageText,
) -> Result<(), Refusal>
    ensures answer { refusal_of result ≡ first_refusal (whole_refusals (fit_with S.PairSource.pairs parts.now (filed_plan week.now))) }
    ensures kept { OnErr result (text.new ≡ text.old) }
    ensures page { OnOk result (text_of text.new ≡ page_of wanted (S.PairSource.pairs parts.now.source.now).slots (filed_plan week.now).slot_of (filed_certificate week.now)) }
{
    match wanted {
        Wanted::Plan => write_plan_page(week, parts, text),
        Wanted::Certificate => write_certificate_page(week, parts, text),
    }
}
