//! The other side of a source: programmes for slots and slots for programmes. `Turned(&source)` is the
//! other side of a lent one, for a search that is written once.
ghost use Rattle.std.specs.Prelude.{◌≡◌};
ghost use Rattle.source.specs.Pairs.{turned as turned_pairs};

use crate::{OpenSource, PairSource};
use refusal::Refusal;
use refusal::limits::Num;

/// A source with its two sides exchanged. It is open when that source is.
#[derive(Clone, Copy, Drop)]
pub struct Turned<S>(pub S);

impl<S: PairSource> PairSource for Turned<S> {
    ghost pairs = { λ source. turned_pairs (S.PairSource.pairs source.0) };

    fn programmes(&self) -> Num {
        self.0.slots()
    }

    fn slots(&self) -> Num {
        self.0.programmes()
    }

    fn first_slot(&self, programme: Num, from: usize) -> Option<Num> {
        self.0.first_programme(programme, from)
    }

    fn first_programme(&self, slot: Num, from: usize) -> Option<Num> {
        self.0.first_slot(slot, from)
    }
}

impl<S: OpenSource> OpenSource for Turned<S> {
    ghost possible = { λ source i s. S.OpenSource.possible source.0 s i };

    fn bar(&mut self, programme: Num, slot: Num) -> Result<(), Refusal> {
        self.0.bar(slot, programme)
    }

    fn lift(&mut self, programme: Num, slot: Num) -> Result<(), Refusal> {
        self.0.lift(slot, programme)
    }
}
