//! A desk: one who owns a week, its source and the priorities of both sides.
use crate::standing::Standing;

/// A week with its parts, as the last accepted call left them.
#[derive(Drop)]
pub struct Desk<S, P> {
    pub(crate) standing: Standing,
    pub(crate) source: Option<S>,
    pub(crate) programmes: Vec<P>,
    pub(crate) slots: Vec<P>,
}
