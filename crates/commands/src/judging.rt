//! weekjudge: whether the plan page is a plan that passes with the certificate page.
ghost use Rattle.std.specs.Prelude.{◌≡◌, ◌*◌, ◌≤◌, length, IfOk, None, vec_len};
ghost use Rattle.refusal.specs.Limits.{side};
ghost use Rattle.refusal.specs.Refusals.{refusal_of, first_refusal};
ghost use Rattle.source.specs.Makes.{make_refusal_of};
ghost use Rattle.grid.specs.GridPairs.{grid_pairs};
ghost use Rattle.matching.specs.Check.{passes as passing};
ghost use Rattle.matching.specs.Lists.{plan_of, certificate_of};
ghost use Rattle.plan.specs.Held.{held};
ghost use Rattle.plan.specs.Parts.{ranked, board_of};
ghost use Rattle.judge.specs.Handed.{judge_refusals};
ghost use Rattle.commands.specs.Judging.{pages_fit, verdict_refusals, accepts, reaches_number, Judged, Answered};

use crate::filed_pages::{FiledBytes, FiledRead, FiledRoom, read_filed};
use crate::week_pages::WeekRead;
use grid::Grid;
use judge::judge;
use page_writer::PageText;
use page_writer::answer_line::Declined;
use plan::Plan;
use plan::parts::Parts;
use priority::Priority;
use priority::ranking::Ranking;
use refusal::{MakeError, Refusal};
use source::PairSource;
use std::alloc::Global;

/// Whether the counts of pairs, rankings, plan page and certificate fit together.
fn pages_fit<P: Priority + Copy>(
    parts: &Parts<Grid, P>,
    planned: &Grid,
    certificate: &[u16],
) -> bool
    ensures { result ≡ pages_fit (grid_pairs parts.now.source.now) (ranked parts.now.programmes.now) (ranked parts.now.slots.now) (grid_pairs planned.now) certificate.now }
{
    let pairs = parts.source;
    parts.fit()
        && planned.programmes() == pairs.programmes()
        && planned.slots() == pairs.slots()
        && certificate.len() == pairs.programmes() as usize + pairs.slots() as usize
}

/// Whether the pairs of the plan page are a plan that passes with the certificate. Refuses 12 where
/// the counts of pairs, rankings, plan and certificate do not fit together. Pairs that use a
/// programme or a slot twice are no plan, and do not pass.
pub fn verdict(
    mut plan: Plan,
    week: WeekRead,
    planned: &Grid,
    certificate: &[u16],
) -> Result<bool, Refusal>
    ensures answer { refusal_of result ≡ first_refusal (verdict_refusals (grid_pairs week.pairs) week.programmes.items week.slots.items (grid_pairs planned.now) certificate.now) }
    ensures told { IfOk result (λ accepted. accepted ≡ accepts reaches_number (grid_pairs week.pairs) week.programmes.items week.slots.items (grid_pairs planned.now) certificate.now) }
{
    let WeekRead {
        pairs,
        mut programmes,
        mut slots,
    } = week;
    let programmes = Ranking::new(&mut programmes);
    let slots = Ranking::new(&mut slots);
    let parts = Parts {
        source: &pairs,
        programmes: &programmes,
        slots: &slots,
    };
    if !pages_fit(&parts, planned, certificate) {
        return Err(Refusal::Mismatch);
    }
    if plan.fill(planned).is_err() {
        return Ok(false);
    }
    judge(&plan, &parts, certificate)
}

/// The room that judging a filed week takes, made before its pages are read: for them, for the plan, and
/// for the text that tells the verdict.
#[derive(Drop)]
pub struct JudgeRoom {
    filed: FiledRoom,
    plan: Plan,
    text: PageText,
}

impl JudgeRoom {
    /// Room for one verdict. Refuses nothing; there may be no memory.
    pub fn new(heap: Global) -> Result<JudgeRoom, MakeError>
        ensures answer { make_refusal_of result ≡ None }
    {
        Ok(JudgeRoom {
            filed: FiledRoom::new(heap)?,
            plan: Plan::new(heap)?,
            text: PageText::new(heap)?,
        })
    }
}

/// The verdict on the five pages, through the rooms.
fn verdict_on_pages(filed: FiledRoom, plan: Plan, bytes: &FiledBytes) -> Result<bool, Declined>
    ensures { Judged bytes.now.week.pairs.now bytes.now.week.programmes.now bytes.now.week.slots.now bytes.now.plan.now bytes.now.proof.now result }
{
    let FiledRead {
        week,
        plan: planned,
        entries,
    } = read_filed(filed, bytes)?;
    Ok(verdict(plan, week, &planned, &entries)?)
}

/// The verdict on the five pages: whether the plan page is a plan that passes with the certificate page,
/// or why they are refused.
pub fn judge_pages(room: JudgeRoom, bytes: &FiledBytes) -> Result<bool, Declined>
    ensures { Judged bytes.now.week.pairs.now bytes.now.week.programmes.now bytes.now.week.slots.now bytes.now.plan.now bytes.now.proof.now result }
{
    verdict_on_pages(room.filed, room.plan, bytes)
}

/// What weekjudge writes: the line of the verdict, or else that of the refusal. It wants no memory.
pub fn judge_answer(room: JudgeRoom, bytes: &FiledBytes) -> Result<PageText, PageText>
    ensures { Answered bytes.now.week.pairs.now bytes.now.week.programmes.now bytes.now.week.slots.now bytes.now.plan.now bytes.now.proof.now result }
{
    let JudgeRoom { filed, plan, text } = room;
    text.answer(verdict_on_pages(filed, plan, bytes))
}
