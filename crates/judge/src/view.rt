//! What the judge reads.
use refusal::limits::Num;

/// One side as it was lent: the priority of each member, its place on the other side, and who is present.
#[derive(Clone, Copy)]
pub(crate) struct Side<'a, P> {
    pub(crate) priorities: &'a [P],
    pub(crate) places: &'a [Num],
    pub(crate) present: &'a [bool],
}

/// The source and both sides.
#[derive(Clone, Copy)]
pub(crate) struct View<'a, S, P> {
    pub(crate) source: &'a S,
    pub(crate) programmes: Side<'a, P>,
    pub(crate) slots: Side<'a, P>,
}
