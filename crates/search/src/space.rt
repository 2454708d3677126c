//! The room that a search takes, made once for all searches.
ghost use Rattle.std.specs.Prelude.{◌≡◌, ◌≤◌, false, replicate, IfOk, vec_len, vec_capacity};
ghost use Rattle.refusal.specs.Limits.{side};

use crate::queue::Reached;
use refusal::limits::SIDE;
use std::alloc::{AllocError, Global};

/// A queue with room for `SIDE` members, and marks for as many.
#[derive(Drop)]
pub struct Space {
    pub(crate) queue: Vec<Reached>,
    pub(crate) marks: Vec<bool>,
    ghost room: { side ≤ vec_capacity queue },
    ghost len: { vec_len marks ≡ side },
}

impl Space {
    /// Room for `SIDE` members, nobody marked. No search wants more memory.
    pub fn new(heap: Global) -> Result<Space, AllocError>
        ensures after { IfOk result (λ space. space.marks.items ≡ replicate side false) }
    {
        let queue = Vec::with_capacity(heap, SIDE)?;
        let marks = vec![in heap; false; SIDE]?;
        Ok(Space { queue, marks })
    }

    /// Whom the last search reached.
    pub fn marks(&self) -> &[bool]
        ensures { result.now ≡ self.now.marks.items }
    {
        &self.marks
    }
}
