//! The room that planning takes, made once, so that no later call wants memory.
ghost use Rattle.std.specs.Prelude.{◌≡◌, false, replicate, IfOk, vec_len};
ghost use Rattle.refusal.specs.Limits.{side};

use refusal::limits::SIDE;
use search::space::Space;
use std::alloc::{AllocError, Global};

/// Room for `SIDE` members: who is done, who waits, and the room of a search; and how many searches the
/// last planning made.
#[derive(Drop)]
pub struct Workspace {
    pub(crate) done: Vec<bool>,
    pub(crate) waiting: Vec<u8>,
    pub(crate) space: Space,
    pub(crate) searches: usize,
    ghost lens: { (vec_len done ≡ side) × (vec_len waiting ≡ side) },
}

impl Workspace {
    /// Room for `SIDE` members, nobody done and nobody waiting, and no search made.
    pub fn new(heap: Global) -> Result<Workspace, AllocError>
        ensures after { IfOk result (λ workspace. (workspace.done.items ≡ replicate side false) × (workspace.waiting.items ≡ replicate side 0) × (workspace.searches ≡ 0)) }
    {
        let done = vec![in heap; false; SIDE]?;
        let waiting = vec![in heap; 0; SIDE]?;
        let space = Space::new(heap)?;
        Ok(Workspace {
            done,
            waiting,
            space,
            searches: 0,
        })
    }

    /// How many searches the last planning made, or 0 where there was none.
    pub fn searches(&self) -> usize
        ensures { result ≡ self.now.searches }
    {
        self.searches
    }
}
