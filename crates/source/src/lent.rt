//! A lent source: a reference to a source is a source, and answers as it does.
ghost use Rattle.std.specs.Prelude.{◌≡◌};

use crate::PairSource;
use refusal::limits::Num;

impl<'a, S: PairSource> PairSource for &'a S {
    ghost pairs = { λ source. S.PairSource.pairs source.now };

    fn programmes(&self) -> Num {
        (**self).programmes()
    }

    fn slots(&self) -> Num {
        (**self).slots()
    }

    fn first_slot(&self, programme: Num, from: usize) -> Option<Num> {
        (**self).first_slot(programme, from)
    }

    fn first_programme(&self, slot: Num, from: usize) -> Option<Num> {
        (**self).first_programme(slot, from)
    }
}
