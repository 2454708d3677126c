//! What a search reads, and what it does at a slot.
ghost use Rattle.std.specs.Prelude.{◌≡◌};
ghost use Rattle.source.specs.Pairs.{first_slot};
ghost use Rattle.search.specs.Views.{seen};
ghost use Rattle.search.specs.Search.{Judged};

use priority::Priority;
use priority::places::reaches;
use refusal::limits::Num;
use refusal::tables::entry;
use source::PairSource;

/// The source, the ranking of the searching side, the slots that may be used, who holds each slot, who
/// has a name, and the root.
#[derive(Drop)]
pub(crate) struct View<'a, S, P> {
    pub(crate) source: &'a S,
    pub(crate) ranking: &'a [P],
    pub(crate) slots: &'a [bool],
    pub(crate) member_in: &'a [Num],
    pub(crate) names: &'a [Num],
    pub(crate) root: Num,
}

/// What the search does at a slot.
pub enum Verdict {
    /// The slot may not be used, or its holder was reached before or has a name.
    Pass,
    /// The slot is unfilled: a path ends here.
    Empty,
    /// The holder is lower than the root: a path ends here.
    Lower,
    /// The holder is reached for the first time.
    Add(Num),
}

impl<S: PairSource, P: Priority> View<'_, S, P> {
    /// The first slot numbered `from` or more that the member may take, or none.
    pub(crate) fn next_slot(&self, member: Num, from: usize) -> Option<Num>
        ensures { result ≡ first_slot (S.PairSource.pairs self.now.source.now) member from }
    {
        self.source.first_slot(member, from)
    }

    /// What to do at the slot, where those marked were reached before.
    pub(crate) fn verdict_on(&self, marks: &[bool], slot: Num) -> Verdict
        ensures { Judged (seen S.PairSource.pairs P.Priority.reaches self.now) marks.now slot result }
    {
        if !entry(false, self.slots, slot as usize) {
            return Verdict::Pass;
        }
        let member = entry(0, self.member_in, slot as usize);
        if member == 0 {
            return Verdict::Empty;
        }
        if entry(false, marks, member as usize) || entry(0, self.names, member as usize) != 0 {
            return Verdict::Pass;
        }
        if reaches(self.ranking, member as usize, self.root as usize) {
            Verdict::Add(member)
        } else {
            Verdict::Lower
        }
    }
}
