//! Weeks that are drawn.
ghost use Rattle.std.specs.Prelude.{◌≤◌};

use crate::draws::Draws;
use anyhow::anyhow;
use grid::Grid;
use priority::number::Number;
use refusal::limits::Num;
use source::{PairSource, count_slots};
use std::alloc::Global;

/// How many pairs a week allows.
#[derive(Clone, Copy)]
pub(crate) enum Kind {
    /// About half of all pairs.
    Dense,
    /// About four slots for each programme.
    Sparse,
    /// About half of all pairs with the first half of the slots, so that half of the programmes are left out.
    Crowded,
}

impl Kind {
    /// The name that is printed.
    pub(crate) fn name(self) -> &'static str {
        match self {
            Kind::Dense => "dense",
            Kind::Sparse => "sparse",
            Kind::Crowded => "crowded",
        }
    }

    /// Of as many draws as there are slots, how many allow a pair.
    fn share(self, side: u8) -> u8 {
        match self {
            Kind::Dense | Kind::Crowded => side / 2,
            Kind::Sparse => 4,
        }
    }

    /// How many slots take programmes at all.
    fn open_slots(self, side: u8) -> u8
        ensures { result ≤ side }
    {
        match self {
            Kind::Dense | Kind::Sparse => side,
            Kind::Crowded => side / 2,
        }
    }
}

/// Who may run where, and how high each is.
#[derive(Drop)]
pub(crate) struct Week {
    pub(crate) pairs: Grid,
    pub(crate) programmes: Vec<Number>,
    pub(crate) slots: Vec<Number>,
}

impl Week {
    /// Draws a week of that many programmes and as many slots.
    pub(crate) fn draw(
        heap: Global,
        draws: &mut Draws,
        kind: Kind,
        side: u8,
    ) -> anyhow::Result<Week> {
        let mut pairs = Grid::new(heap, side as usize, side as usize).map_err(|_| anyhow!(
            "no grid"
        ))?;
        for programme in 1..=side {
            draw_slots(&mut pairs, draws, kind, side, programme);
        }
        Ok(Week {
            pairs,
            programmes: draw_priorities(heap, draws, side)?,
            slots: draw_priorities(heap, draws, side)?,
        })
    }

    /// How many pairs are allowed.
    pub(crate) fn allowed(&self) -> usize {
        (1..=self.pairs.programmes())
            .map(|programme| count_slots(&self.pairs, programme))
            .fold(0usize, usize::saturating_add)
    }
}

/// Draws in which slots the programme may run.
fn draw_slots(pairs: &mut Grid, draws: &mut Draws, kind: Kind, side: u8, programme: Num) {
    for slot in 1..=kind.open_slots(side) {
        let allowed = draws.below(side as u64) < kind.share(side) as u64;
        let _ = pairs.mark(programme as usize, slot as usize, allowed);
    }
}

/// Draws that many priorities.
fn draw_priorities(heap: Global, draws: &mut Draws, count: u8) -> anyhow::Result<Vec<Number>> {
    let mut priorities = Vec::new(heap);
    for _ in 0..count {
        let number = draws.below(255) as u16 + 1;
        priorities.push(Number::new(number).map_err(|_| anyhow!("no priority"))?)?;
    }
    Ok(priorities)
}
