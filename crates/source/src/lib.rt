//! Pair sources: which programme may run in which slot, asked and edited.
#![tactic(auto)]

ghost use Rattle.std.specs.Prelude.{◌≡◌, ℕ, Bool, true, false, OnErr, OnOk};
ghost use Rattle.refusal.specs.Counting.{count};
ghost use Rattle.refusal.specs.Refusals.{refusal_of, first_refusal};
ghost use Rattle.source.specs.Pairs.{Pairs, inside, holds, same_counts, first_slot, first_programme, changed};
ghost use Rattle.source.specs.Edits.{bar_refusals, lift_refusals};

pub mod layer;
pub mod lent;
pub mod optional;
pub mod turned;

use refusal::Refusal;
use refusal::limits::Num;

/// A source of pairs: two counts, programmes and slots, and a set of allowed pairs within them.
/// A question changes nothing.
pub trait PairSource {
    /// What the source means: its counts, and which pairs it allows.
    ghost pairs: { Self → Pairs };

    /// How many programmes there are.
    fn programmes(&self) -> Num
        ensures { result ≡ (pairs self.now).programmes };

    /// How many slots there are.
    fn slots(&self) -> Num
        ensures { result ≡ (pairs self.now).slots };

    /// The first slot numbered `from` or more in which the programme may run, or none.
    fn first_slot(&self, programme: Num, from: usize) -> Option<Num>
        ensures { result ≡ first_slot (pairs self.now) programme from };

    /// The first programme numbered `from` or more that may run in the slot, or none.
    fn first_programme(&self, slot: Num, from: usize) -> Option<Num>
        ensures { result ≡ first_programme (pairs self.now) slot from };
}

/// A pair source that can also be edited. It has a second set, the possible pairs.
pub trait OpenSource: PairSource {
    /// The pairs that can be lifted.
    ghost possible: { Self → ℕ → ℕ → Bool };

    /// Takes the pair out of the allowed ones.
    fn bar(&mut self, programme: Num, slot: Num) -> Result<(), Refusal>
        ensures answer { refusal_of result ≡ first_refusal (bar_refusals (Self.PairSource.pairs self.old) programme slot) }
        ensures kept { OnErr result (self.new ≡ self.old) }
        ensures counts { same_counts (Self.PairSource.pairs self.new) (Self.PairSource.pairs self.old) }
        ensures pairs { OnOk result (Self.PairSource.pairs self.new ≡ changed (Self.PairSource.pairs self.old) programme slot false) }
        ensures possible { possible self.new ≡ possible self.old };

    /// Puts the pair into the allowed ones.
    fn lift(&mut self, programme: Num, slot: Num) -> Result<(), Refusal>
        ensures answer { refusal_of result ≡ first_refusal (lift_refusals (Self.PairSource.pairs self.old) (possible self.old) programme slot) }
        ensures kept { OnErr result (self.new ≡ self.old) }
        ensures counts { same_counts (Self.PairSource.pairs self.new) (Self.PairSource.pairs self.old) }
        ensures pairs { OnOk result (Self.PairSource.pairs self.new ≡ changed (Self.PairSource.pairs self.old) programme slot true) }
        ensures possible { possible self.new ≡ possible self.old };
}

/// Whether both numbers are within the source's counts.
pub fn is_inside<S: PairSource>(source: &S, programme: Num, slot: Num) -> bool
    ensures { result ≡ inside (S.PairSource.pairs source.now) programme slot }
{
    (1..=source.programmes()).contains(&programme) && (1..=source.slots()).contains(&slot)
}

/// Whether the programme may run in the slot.
pub fn allows<S: PairSource>(source: &S, programme: Num, slot: Num) -> bool
    ensures { result ≡ holds (S.PairSource.pairs source.now) programme slot }
{
    is_inside(source, programme, slot) && source.first_slot(programme, slot as usize) == Some(slot)
}

/// In how many slots the programme may run.
pub fn count_slots<S: PairSource>(source: &S, programme: Num) -> usize
    ensures { result ≡ count (λ slot. holds (S.PairSource.pairs source.now) programme slot) (S.PairSource.pairs source.now).slots }
{
    let mut slots = 0;
    let mut from = 1;
    while let Some(slot) = source.first_slot(programme, from) {
        slots += 1;
        from = slot as usize + 1;
    }
    slots
}
