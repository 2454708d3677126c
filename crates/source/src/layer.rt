//! Layers: a source less some pairs, with its counts cut to `SIDE`.
//!
//! What a layer takes out is an `Exclusion`. The loop is written for the slots of a programme;
//! handed both turned, it answers for the programmes of a slot.
ghost use Rattle.std.specs.Prelude.{◌≡◌, ℕ, Bool};
ghost use Rattle.source.specs.Pairs.{first_slot, layered};

use crate::PairSource;
use crate::turned::Turned;
use refusal::limits::{Num, SIDE};

/// A set of pairs that a layer takes out.
pub trait Exclusion {
    /// The pairs taken out.
    ghost excluded: { Self → ℕ → ℕ → Bool };

    /// Whether the pair is taken out.
    fn excludes(&self, programme: Num, slot: Num) -> bool
        ensures { result ≡ excluded self.now programme slot };
}

impl<'a, E: Exclusion> Exclusion for &'a E {
    ghost excluded = { λ out. E.Exclusion.excluded out.now };

    fn excludes(&self, programme: Num, slot: Num) -> bool {
        (**self).excludes(programme, slot)
    }
}

impl<E: Exclusion> Exclusion for Turned<E> {
    ghost excluded = { λ out i s. E.Exclusion.excluded out.0 s i };

    fn excludes(&self, programme: Num, slot: Num) -> bool {
        self.0.excludes(slot, programme)
    }
}

/// The first slot numbered `from` or more in which the programme may run, `out` taken out of what is below.
pub fn first_slot_left<S: PairSource, E: Exclusion>(
    below: &S,
    out: &E,
    programme: Num,
    from: usize,
) -> Option<Num>
    ensures { result ≡ first_slot (layered (S.PairSource.pairs below.now) (E.Exclusion.excluded out.now)) programme from }
{
    if programme as usize > SIDE {
        return None;
    }
    let mut next = from;
    while let Some(slot) = below.first_slot(programme, next) {
        if slot as usize > SIDE {
            return None;
        }
        if !out.excludes(programme, slot) {
            return Some(slot);
        }
        next = slot as usize + 1;
    }
    None
}
