//! A source that may be missing: none counts nobody and allows nothing.
ghost use Rattle.std.specs.Prelude.{◌≡◌};
ghost use Rattle.source.specs.Missing.{pairs_if_any, possible_if_any};

use crate::{OpenSource, PairSource};
use refusal::Refusal;
use refusal::limits::Num;

impl<S: PairSource> PairSource for Option<S> {
    ghost pairs = { pairs_if_any S.PairSource.pairs };

    fn programmes(&self) -> Num {
        self.as_ref().map_or(0, |source| source.programmes())
    }

    fn slots(&self) -> Num {
        self.as_ref().map_or(0, |source| source.slots())
    }

    fn first_slot(&self, programme: Num, from: usize) -> Option<Num> {
        self.as_ref()?.first_slot(programme, from)
    }

    fn first_programme(&self, slot: Num, from: usize) -> Option<Num> {
        self.as_ref()?.first_programme(slot, from)
    }
}

impl<S: OpenSource> OpenSource for Option<S> {
    ghost possible = { possible_if_any S.OpenSource.possible };

    fn bar(&mut self, programme: Num, slot: Num) -> Result<(), Refusal> {
        let source = self.as_mut().ok_or(Refusal::UnknownNumber)?;
        source.bar(programme, slot)
    }

    fn lift(&mut self, programme: Num, slot: Num) -> Result<(), Refusal> {
        let source = self.as_mut().ok_or(Refusal::UnknownNumber)?;
        source.lift(programme, slot)
    }
}
