//! A week to try, with everything that planning takes.
use grid::Grid;
use plan::Plan;
use plan::parts::Parts;
use planner::certificate::Certificate;
use planner::settle::settle;
use planner::workspace::Workspace;
use priority::number::Number;
use priority::ranking::Ranking;
use refusal::Refusal;
use refusal::limits::Num;
use source::PairSource;
use std::alloc::Global;
use std::process::Abort;
use std::test::Fail;

/// A week of the number kind, a plan of it, and what planning writes.
#[derive(Drop)]
pub(crate) struct Trial {
    pub(crate) plan: Plan,
    pairs: Grid,
    programmes: Vec<Number>,
    slots: Vec<Number>,
    certificate: Certificate,
    workspace: Workspace,
}

/// The priorities of those numbers.
fn priorities(heap: Global, values: &[u16]) -> Result<Vec<Number>, Fail> {
    let mut priorities = Vec::new(heap);
    for value in values {
        priorities.push(Number::new(*value)?)?;
    }
    Ok(priorities)
}

/// The grid of those pairs.
fn grid_of(
    heap: Global,
    programmes: usize,
    slots: usize,
    pairs: &[(usize, usize)],
) -> Result<Grid, Fail> {
    let mut grid = Grid::new(heap, programmes, slots)?;
    for &(programme, slot) in pairs {
        grid.mark(programme, slot, true)?;
    }
    Ok(grid)
}

impl Trial {
    /// The week of those priorities and allowed pairs, with everyone present and nobody placed.
    pub(crate) fn new(
        heap: Global,
        programmes: &[u16],
        slots: &[u16],
        pairs: &[(usize, usize)],
    ) -> Result<Trial, Fail> {
        let mut plan = Plan::new(heap)?;
        plan.reset(programmes.len(), slots.len())?;
        Ok(Trial {
            plan,
            pairs: grid_of(heap, programmes.len(), slots.len(), pairs)?,
            programmes: priorities(heap, programmes)?,
            slots: priorities(heap, slots)?,
            certificate: Certificate::new(heap)?,
            workspace: Workspace::new(heap)?,
        })
    }

    /// Plans the week, from the plan as it stands.
    pub(crate) fn settle(&mut self) -> Result<(), Refusal> {
        settle(
            &Parts {
                source: &self.pairs,
                programmes: &Ranking::new(&mut self.programmes),
                slots: &Ranking::new(&mut self.slots),
            },
            &mut self.plan,
            &mut self.certificate,
            &mut self.workspace,
        )
    }

    /// Checks the slot of each programme, and whom each programme and each slot names.
    pub(crate) fn check(
        &self,
        rt: &impl Abort,
        slot_of: &[Num],
        programme_names: &[Num],
        slot_names: &[Num],
    ) {
        assert_eq!(rt; self.plan.slot_of_table(), slot_of);
        assert_eq!(rt; self.certificate.programmes(), programme_names);
        assert_eq!(rt; self.certificate.slots(), slot_names);
    }
}
