//! The search, breadth first: one level of the queue after another.
ghost use Rattle.std.specs.Prelude.{◌≡◌, ℕ, ◌<◌, ◌≤◌, true, [], ◌∷◌, ◌++◌, length, vec_len, vec_capacity};
ghost use Rattle.refusal.specs.Limits.{side};
ghost use Rattle.refusal.specs.Tables.{at, put};
ghost use Rattle.search.specs.Scene.{holder};
ghost use Rattle.search.specs.Views.{seen};
ghost use Rattle.search.specs.Search.{Chain, Marks, Looks, Levels, Before, past, pick};
ghost use Rattle.search.specs.Paths.{Ended};

use crate::queue::{End, Reached};
use crate::view::{Verdict, View};
use priority::Priority;
use refusal::limits::Num;
use refusal::tables::write;
use source::PairSource;

/// Where one member's slots led.
pub enum Looked {
    /// To an unfilled slot.
    Stopped(Num),
    /// To the end of them, and to the slot of a lower member, if there is one.
    Went(Option<Num>),
}

/// Adds one to the queue, which has room, and marks its member.
fn grow(queue: &mut Vec<Reached>, marks: &mut [bool], reached: Reached)
    requires room { vec_len queue.old < vec_capacity queue.old }
    ensures queue { queue.new.items ≡ queue.old.items ++ reached ∷ [] }
    ensures marks { marks.new ≡ put marks.old reached.member true }
    ensures capacity { vec_capacity queue.new ≡ vec_capacity queue.old }
{
    queue.push_reserved(reached);
    write(marks, reached.member as usize, true);
}

/// Walks the slots of the member at `from` in the queue.
fn look<S: PairSource, P: Priority>(
    view: &View<S, P>,
    queue: &mut Vec<Reached>,
    marks: &mut [bool],
    from: usize,
) -> Looked
    requires entries { (t : ℕ) → holder (seen S.PairSource.pairs P.Priority.reaches view.now) t ≤ length marks.old }
    requires room { length marks.old ≤ vec_capacity queue.old }
    requires from_in { from < vec_len queue.old }
    requires chain { Chain (seen S.PairSource.pairs P.Priority.reaches view.now) queue.old.items }
    requires marked { Marks queue.old.items marks.old }
    requires levels { Levels queue.old.items from }
    ensures looks { Looks (seen S.PairSource.pairs P.Priority.reaches view.now) queue.old.items marks.old from result queue.new.items marks.new }
    ensures capacity { vec_capacity queue.new ≡ vec_capacity queue.old }
{
    let Reached { member, depth, .. } = queue[from];
    let mut lower = None;
    let mut next = 1;
    while let Some(slot) = view.next_slot(member, next) {
        match view.verdict_on(marks, slot) {
            Verdict::Pass => {}
            Verdict::Empty => return Looked::Stopped(slot),
            Verdict::Lower => lower = Some(slot),
            Verdict::Add(holder) => grow(
                queue,
                marks,
                Reached {
                    member: holder,
                    slot,
                    parent: from,
                    depth: depth + 1,
                },
            ),
        }
        next = slot as usize + 1;
    }
    Looked::Went(lower)
}

/// Whether the place `next` of the queue lies deeper than the lower end met, if one was.
fn is_past(queue: &[Reached], low: Option<End>, next: usize) -> bool
    requires next_in { next < length queue.now }
    requires low_in { Before low next }
    ensures { result ≡ past queue.now low next }
{
    low.is_some_and(|end| queue[end.from].depth < queue[next].depth)
}

/// The lower end at the slot, if there is one, and else what was met before.
fn or_low(low: Option<End>, slot: Option<Num>, from: usize, depth: usize) -> Option<End>
    requires small { depth ≤ side }
    ensures { result ≡ pick low slot from depth }
{
    let pairs = depth + depth + 2;
    slot.map(|slot| End { slot, from, pairs }).or(low)
}

/// Searches for a path from the root. A lower end is taken only when its level holds no unfilled
/// slot, so that the path is a shortest one.
pub(crate) fn find<S: PairSource, P: Priority>(
    view: &View<S, P>,
    queue: &mut Vec<Reached>,
    marks: &mut [bool],
) -> Option<End>
    requires root_in { (0 < view.now.root) × (view.now.root ≤ length view.now.ranking.now) }
    requires root_new { at 0 view.now.names.now view.now.root ≡ 0 }
    requires entries { (t : ℕ) → holder (seen S.PairSource.pairs P.Priority.reaches view.now) t ≤ length marks.old }
    requires lens { (length view.now.ranking.now ≤ length marks.old) × (length marks.old ≤ side) }
    requires room { side ≤ vec_capacity queue.old }
    ensures ended { Ended (seen S.PairSource.pairs P.Priority.reaches view.now) queue.new.items marks.new result }
    ensures capacity { vec_capacity queue.new ≡ vec_capacity queue.old }
{
    marks.fill(false);
    queue.clear();
    grow(
        queue,
        marks,
        Reached {
            member: view.root,
            slot: 0,
            parent: 0,
            depth: 0,
        },
    );
    let mut low = None;
    let mut next = 0;
    while next < queue.len() {
        if is_past(queue, low, next) {
            return low;
        }
        let depth = queue[next].depth;
        match look(view, queue, marks, next) {
            Looked::Stopped(slot) => return Some(End {
                slot,
                from: next,
                pairs: depth + depth + 1,
            }),
            Looked::Went(slot) => low = or_low(low, slot, next, depth),
        }
        next += 1;
    }
    low
}
