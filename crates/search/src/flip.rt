//! The flip of a path: each of its members takes the slot by which the next was reached.
ghost use Rattle.std.specs.Prelude.{◌≡◌, true};
ghost use Rattle.plan.specs.Held.{held, known_pair, assigned};
ghost use Rattle.search.specs.Search.{Shape};
ghost use Rattle.search.specs.Changes.{Applied};

use crate::queue::{End, Reached};
use plan::Plan;
use refusal::limits::Num;

/// Puts the member into the slot.
fn move_to(plan: &mut Plan, member: Num, slot: Num)
    requires { known_pair (held plan.old) member slot ≡ true }
    ensures { held plan.new ≡ assigned (held plan.old) member slot }
{
    let _ = plan.assign(member, slot);
}

/// Flips the path that ends there, from its end back to its root.
pub(crate) fn flip(plan: &mut Plan, queue: &[Reached], end: End)
    requires shape { Shape (held plan.old).slot_of (held plan.old).programme_in queue.now end.from end.slot }
    ensures after { Applied (held plan.old).slot_of (held plan.old).programme_in queue.now end.from end.slot (held plan.new).slot_of (held plan.new).programme_in }
    ensures kept { (held plan.new).attendance ≡ (held plan.old).attendance }
{
    plan.vacate(end.slot);
    let mut slot = end.slot;
    let mut place = end.from;
    while place != 0 {
        let here = queue[place];
        move_to(plan, here.member, slot);
        slot = here.slot;
        place = here.parent;
    }
    move_to(plan, queue[0].member, slot);
}
