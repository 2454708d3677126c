//! What `weekplan` and `weekproof` answer, from the bytes of a week's three pages to the text they write.
//!
//! A `PlanningRoom` has all the room that an answer takes. It is made first, and may find no memory;
//! the answer itself wants none. `specs/Planning.antt` says what an answer is.
#![tactic(auto)]

ghost use Rattle.std.specs.Prelude.{◌≡◌, None, OnOk};
ghost use Rattle.refusal.specs.Refusals.{refusal_of, first_refusal};
ghost use Rattle.source.specs.Makes.{make_refusal_of};
ghost use Rattle.grid.specs.GridPairs.{grid_pairs};
ghost use Rattle.plan.specs.Parts.{parts_fit, whole_refusals};
ghost use Rattle.filing.specs.declared.Wanted.TheVariants.{Plan, Certificate};
ghost use Rattle.page_writer.specs.Texts.{text_of};
ghost use Rattle.planning.specs.Planning.{PageOf, Came, Answered};

use commands::week_pages::{WeekBytes, WeekRead, WeekRoom, read_week};
use filing::{Wanted, write_page};
use page_writer::PageText;
use page_writer::answer_line::Declined;
use plan::parts::Parts;
use priority::ranking::Ranking;
use refusal::{MakeError, Refusal};
use std::alloc::Global;
use week::Week;

/// Loads the week that was read, hands it over, and writes the page wanted. Refuses 12 where the counts
/// of the pages do not fit together.
fn write_planned(
    read: WeekRead,
    mut week: Week,
    wanted: Wanted,
    text: &mut PageText,
) -> Result<(), Refusal>
    ensures answer { refusal_of result ≡ first_refusal (whole_refusals (parts_fit (grid_pairs read.pairs) read.programmes.items read.slots.items)) }
    ensures page { OnOk result (PageOf wanted (grid_pairs read.pairs) read.programmes.items read.slots.items (text_of text.new)) }
{
    let WeekRead {
        pairs,
        mut programmes,
        mut slots,
    } = read;
    let programmes = Ranking::new(&mut programmes);
    let slots = Ranking::new(&mut slots);
    let parts = Parts {
        source: &pairs,
        programmes: &programmes,
        slots: &slots,
    };
    week.load(&parts)?;
    write_page(&week.hand_over(), &parts, wanted, text)
}

/// The room that planning a week takes, made before its pages are read.
#[derive(Drop)]
pub struct PlanningRoom {
    pages: WeekRoom,
    week: Week,
    text: PageText,
}

impl PlanningRoom {
    /// Room for the largest week. Refuses nothing; there may be no memory.
    pub fn new(heap: Global) -> Result<PlanningRoom, MakeError>
        ensures answer { make_refusal_of result ≡ None }
    {
        Ok(PlanningRoom {
            pages: WeekRoom::new(heap)?,
            week: Week::new(heap)?,
            text: PageText::new(heap)?,
        })
    }
}

/// Reads the three pages, plans the week and writes the page wanted, or tells why it is declined.
fn plan_pages(
    pages: WeekRoom,
    week: Week,
    bytes: &WeekBytes,
    wanted: Wanted,
    text: &mut PageText,
) -> Result<(), Declined>
    ensures { Came wanted bytes.now.pairs.now bytes.now.programmes.now bytes.now.slots.now (text_of text.new) result }
{
    let read = read_week(pages, bytes)?;
    write_planned(read, week, wanted, text)?;
    Ok(())
}

/// What a program writes: the page wanted of a best plan of the week, or else the line of a refusal. It
/// wants no memory.
pub fn answer(room: PlanningRoom, bytes: &WeekBytes, wanted: Wanted) -> Result<PageText, PageText>
    ensures { Answered wanted bytes.now.pairs.now bytes.now.programmes.now bytes.now.slots.now result }
{
    let PlanningRoom {
        pages,
        week,
        mut text,
    } = room;
    let Err(declined) = plan_pages(pages, week, bytes, wanted, &mut text) else {
        return Ok(text);
    };
    Err(text.refusal(declined))
}

/// What `weekplan` writes for the three pages: the page of a best plan, or the line of the refusal.
pub fn plan_answer(room: PlanningRoom, bytes: &WeekBytes) -> Result<PageText, PageText>
    ensures { Answered Plan bytes.now.pairs.now bytes.now.programmes.now bytes.now.slots.now result }
{
    answer(room, bytes, Wanted::Plan)
}

/// What `weekproof` writes for the three pages: the page of a certificate that passes with a best plan,
/// or the line of the refusal.
pub fn proof_answer(room: PlanningRoom, bytes: &WeekBytes) -> Result<PageText, PageText>
    ensures { Answered Certificate bytes.now.pairs.now bytes.now.programmes.now bytes.now.slots.now result }
{
    answer(room, bytes, Wanted::Certificate)
}
