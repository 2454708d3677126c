//! What a call is handed beside the plan: a source, and the rankings of both sides.
ghost use Rattle.std.specs.Prelude.{◌≡◌};
ghost use Rattle.plan.specs.Parts.{ranked, parts_fit};

use priority::Priority;
use priority::ranking::Ranking;
use refusal::limits::SIDE;
use source::PairSource;

/// The parts of a week that stay with the caller.
#[derive(Drop)]
pub struct Parts<'a, 'b, S, P> {
    /// The pairs that are allowed.
    pub source: &'a S,
    /// The priorities of the programmes.
    pub programmes: &'b Ranking<'b, P>,
    /// The priorities of the slots.
    pub slots: &'b Ranking<'b, P>,
}

impl<'a, 'b, S: PairSource, P: Priority + Copy> Parts<'a, 'b, S, P> {
    /// Whether the source has at most `SIDE` a side, and each ranking one priority for each that it counts.
    pub fn fit(&self) -> bool
        ensures { result ≡ parts_fit (S.PairSource.pairs self.now.source.now) (ranked self.now.programmes.now) (ranked self.now.slots.now) }
    {
        let programme_count = self.source.programmes() as usize;
        let slot_count = self.source.slots() as usize;
        programme_count <= SIDE
            && slot_count <= SIDE
            && self.programmes.len() == programme_count
            && self.slots.len() == slot_count
    }
}
