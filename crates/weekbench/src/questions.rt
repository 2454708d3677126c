//! A source that counts the questions it is asked.
ghost use Rattle.std.specs.Prelude.{◌≡◌};

use refusal::limits::Num;
use source::PairSource;
use std::cell::Cell;

/// A borrowed source, and how often it was asked for a slot or a programme.
#[derive(Drop)]
pub(crate) struct Questions<'a, S> {
    source: &'a S,
    asked: Cell<usize>,
}

impl<'a, S: PairSource> Questions<'a, S> {
    /// The source, not asked yet.
    pub(crate) fn new(source: &'a S) -> Questions<'a, S>
        ensures { result.source.now ≡ source.now }
    {
        Questions {
            source,
            asked: Cell::new(0),
        }
    }

    /// How often it was asked.
    pub(crate) fn asked(&self) -> usize {
        self.asked.get()
    }

    /// One question more.
    fn count(&self) {
        self.asked.set(self.asked.get().wrapping_add(1));
    }
}

impl<'a, S: PairSource> PairSource for Questions<'a, S> {
    ghost pairs = { λ questions. S.PairSource.pairs questions.source.now };

    fn programmes(&self) -> Num {
        self.source.programmes()
    }

    fn slots(&self) -> Num {
        self.source.slots()
    }

    fn first_slot(&self, programme: Num, from: usize) -> Option<Num> {
        self.count();
        self.source.first_slot(programme, from)
    }

    fn first_programme(&self, slot: Num, from: usize) -> Option<Num> {
        self.count();
        self.source.first_programme(slot, from)
    }
}
