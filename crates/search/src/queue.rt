//! Whom a search has come to, and where a path ends.
use refusal::limits::Num;

/// A member that the search came to: by the slot that holds it, from the member at `parent` in the
/// queue, `depth` steps from the root.
#[derive(Clone, Copy)]
pub struct Reached {
    pub member: Num,
    pub slot: Num,
    pub parent: usize,
    pub depth: usize,
}

/// Where a path ends: its last slot, the place in the queue that leads there, and the number of
/// its pairs.
#[derive(Clone, Copy)]
pub struct End {
    pub slot: Num,
    pub from: usize,
    pub pairs: usize,
}
