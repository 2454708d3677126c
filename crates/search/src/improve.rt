//! One step of planning: a search from a root, and the flip of the path that it finds.
ghost use Rattle.std.specs.Prelude.{◌≡◌, length, IfOk, OnErr};
ghost use Rattle.refusal.specs.Counting.{within};
ghost use Rattle.refusal.specs.Refusals.{refusal_of, first_refusal};
ghost use Rattle.plan.specs.Held.{held};
ghost use Rattle.search.specs.Outcomes.{side_fits, improve_refusals, scene_of, Told};

use crate::find::find;
use crate::flip::flip;
use crate::space::Space;
use crate::view::View;
use plan::Plan;
use priority::Priority;
use refusal::Refusal;
use refusal::limits::{Num, is_within};
use refusal::tables::entry;
use source::PairSource;

/// What a search from one root came to.
#[derive(Clone, Copy, PartialEq, Eq, Debug)]
pub enum Outcome {
    /// The root has a slot now: a path of that many pairs was flipped.
    Placed(usize),
    /// There is no path from the root. Whom the search reached is marked.
    Stuck,
    /// The root has a slot or a name already: there was nothing to search.
    Idle,
}

/// Whether the source has the plan's counts, and the ranking a priority for each programme.
fn fits<S: PairSource, P>(source: &S, ranking: &[P], plan: &Plan) -> bool
    ensures { result ≡ side_fits (S.PairSource.pairs source.now) ranking.now (held plan.now) }
{
    source.programmes() as usize == ranking.len()
        && plan.programmes() == ranking.len()
        && source.slots() as usize == plan.slots()
}

/// Searches from the root, breadth first, and flips the path that it finds, a shortest one. Who has a
/// name is passed over. Refuses 12 when the parts do not fit together, then 10 when there is no such root.
pub fn improve<S: PairSource, P: Priority>(
    source: &S,
    ranking: &[P],
    plan: &mut Plan,
    names: &[Num],
    space: &mut Space,
    root: Num,
) -> Result<Outcome, Refusal>
    ensures answer { refusal_of result ≡ first_refusal (improve_refusals (side_fits (S.PairSource.pairs source.now) ranking.now (held plan.old)) (within (length ranking.now) root)) }
    ensures kept { OnErr result (plan.new ≡ plan.old) }
    ensures told { IfOk result (λ outcome. Told (scene_of P.Priority.reaches (S.PairSource.pairs source.now) ranking.now (held plan.old) names.now root) (held plan.old) names.now (held plan.new) space.new.marks.items outcome) }
    ensures attendance { (held plan.new).attendance ≡ (held plan.old).attendance }
{
    if !fits(source, ranking, plan) {
        return Err(Refusal::Mismatch);
    }
    if !is_within(ranking.len(), root as usize) {
        return Err(Refusal::UnknownNumber);
    }
    if entry(0, plan.slot_of_table(), root as usize) != 0 || entry(0, names, root as usize) != 0 {
        return Ok(Outcome::Idle);
    }
    let view = View {
        source,
        ranking,
        slots: plan.slots_present(),
        member_in: plan.programme_in_table(),
        names,
        root,
    };
    let Some(end) = find(&view, &mut space.queue, &mut space.marks) else {
        return Ok(Outcome::Stuck);
    };
    flip(plan, &space.queue, end);
    Ok(Outcome::Placed(end.pairs))
}
