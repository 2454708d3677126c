//! The edits of a week as values, so that a list of them can be worked down.
ghost use Rattle.std.specs.Prelude.{◌≡◌, ℕ, Bool, OnErr, OnOk};
ghost use Rattle.refusal.specs.Refusals.{refusal_of, first_refusal};
ghost use Rattle.plan.specs.Parts.{ranked};
ghost use Rattle.week.specs.Planned.{Planned};
ghost use Rattle.week.specs.Sheets.{plan_in, certificate_in};
ghost use Rattle.source.specs.Missing.{pairs_if_any, possible_if_any};
ghost use Rattle.desk.specs.Ledger.{account};
ghost use Rattle.desk.specs.Edits.{Rules, plain_rules, open_rules, plain_refusals, plain_entered};

use plan::Member;
use plan::parts::Parts;
use priority::Priority;
use priority::ranking::Ranking;
use refusal::Refusal;
use refusal::limits::Num;
use source::{OpenSource, PairSource};
use week::Week;

/// An edit of a week over any source.
#[derive(Clone, Copy)]
pub enum Edit<P> {
    /// Sets the priority of a programme or slot.
    Rank(Member, P),
    /// Marks a programme or slot as absent.
    Withdraw(Member),
    /// Marks a programme or slot as present again.
    Restore(Member),
}

/// An edit of a week over an open source.
#[derive(Clone, Copy)]
pub enum OpenEdit<P> {
    /// An edit that any source allows.
    Plain(Edit<P>),
    /// Takes a pair out of the allowed ones.
    Bar(Num, Num),
    /// Puts a pair into the allowed ones.
    Lift(Num, Num),
}

/// A kind of edit: what its edits mean in the ledger, and how they are made.
pub trait EditKind<S: PairSource, P: Priority + Copy>: Sized {
    /// When an edit is refused, and what an accepted one enters.
    ghost rules: { Rules S P Self };

    /// Makes the edit on a week and its parts, and plans anew; or refuses, and changes nothing.
    fn make(
        self,
        week: &mut Week,
        source: &mut Option<S>,
        programmes: &mut Ranking<P>,
        slots: &mut Ranking<P>,
    ) -> Result<(), Refusal>
        ensures answer { refusal_of result ≡ first_refusal (rules.refusals (account (pairs_if_any S.PairSource.pairs source.old) (possible_if_any rules.possible source.old) (ranked programmes.old) (ranked slots.old) (plan_in week.old.sheet).attendance) self) }
        ensures kept { OnErr result ((week.new ≡ week.old) × (account (pairs_if_any S.PairSource.pairs source.new) (possible_if_any rules.possible source.new) (ranked programmes.new) (ranked slots.new) (plan_in week.new.sheet).attendance ≡ account (pairs_if_any S.PairSource.pairs source.old) (possible_if_any rules.possible source.old) (ranked programmes.old) (ranked slots.old) (plan_in week.old.sheet).attendance)) }
        ensures entered { OnOk result (account (pairs_if_any S.PairSource.pairs source.new) (possible_if_any rules.possible source.new) (ranked programmes.new) (ranked slots.new) (plan_in week.new.sheet).attendance ≡ rules.entered self (account (pairs_if_any S.PairSource.pairs source.old) (possible_if_any rules.possible source.old) (ranked programmes.old) (ranked slots.old) (plan_in week.old.sheet).attendance)) }
        ensures planned { OnOk result (Planned P.Priority.reaches (pairs_if_any S.PairSource.pairs source.new) (ranked programmes.new) (ranked slots.new) (plan_in week.new.sheet) (certificate_in week.new.sheet)) }
        ensures lent { (programmes.new.table.ghost_name ≡ programmes.old.table.ghost_name) × (slots.new.table.ghost_name ≡ slots.old.table.ghost_name) };
}

/// Makes an edit that leaves the source as it is. What can be lifted does not matter to it.
fn make_plain<S: PairSource, P: Priority + Copy>(
    edit: Edit<P>,
    week: &mut Week,
    source: &S,
    programmes: &mut Ranking<P>,
    slots: &mut Ranking<P>,
) -> Result<(), Refusal>
    ensures answer { (possible : ℕ → ℕ → Bool) → refusal_of result ≡ first_refusal (plain_refusals (account (S.PairSource.pairs source.now) possible (ranked programmes.old) (ranked slots.old) (plan_in week.old.sheet).attendance) edit) }
    ensures kept { OnErr result ((week.new ≡ week.old) × (ranked programmes.new ≡ ranked programmes.old) × (ranked slots.new ≡ ranked slots.old)) }
    ensures entered { OnOk result ((possible : ℕ → ℕ → Bool) → account (S.PairSource.pairs source.now) possible (ranked programmes.new) (ranked slots.new) (plan_in week.new.sheet).attendance ≡ plain_entered edit (account (S.PairSource.pairs source.now) possible (ranked programmes.old) (ranked slots.old) (plan_in week.old.sheet).attendance)) }
    ensures planned { OnOk result (Planned P.Priority.reaches (S.PairSource.pairs source.now) (ranked programmes.new) (ranked slots.new) (plan_in week.new.sheet) (certificate_in week.new.sheet)) }
    ensures lent { (programmes.new.table.ghost_name ≡ programmes.old.table.ghost_name) × (slots.new.table.ghost_name ≡ slots.old.table.ghost_name) }
{
    match edit {
        Edit::Rank(member, priority) => week.rank(source, programmes, slots, member, priority),
        Edit::Withdraw(member) => week.withdraw(
            &Parts {
                source,
                programmes: &*programmes,
                slots: &*slots,
            },
            member,
        ),
        Edit::Restore(member) => week.restore(
            &Parts {
                source,
                programmes: &*programmes,
                slots: &*slots,
            },
            member,
        ),
    }
}

impl<S: PairSource, P: Priority + Copy> EditKind<S, P> for Edit<P> {
    ghost rules = { plain_rules };

    fn make(
        self,
        week: &mut Week,
        source: &mut Option<S>,
        programmes: &mut Ranking<P>,
        slots: &mut Ranking<P>,
    ) -> Result<(), Refusal> {
        make_plain(self, week, &*source, programmes, slots)
    }
}

impl<S: OpenSource, P: Priority + Copy> EditKind<S, P> for OpenEdit<P> {
    ghost rules = { open_rules S.OpenSource.possible };

    fn make(
        self,
        week: &mut Week,
        source: &mut Option<S>,
        programmes: &mut Ranking<P>,
        slots: &mut Ranking<P>,
    ) -> Result<(), Refusal> {
        match self {
            OpenEdit::Plain(edit) => make_plain(edit, week, &*source, programmes, slots),
            OpenEdit::Bar(programme, slot) => week.bar(
                source,
                &*programmes,
                &*slots,
                programme,
                slot,
            ),
            OpenEdit::Lift(programme, slot) => week.lift(
                source,
                &*programmes,
                &*slots,
                programme,
                slot,
            ),
        }
    }
}
