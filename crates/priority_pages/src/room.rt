//! Room for the priorities of a page.
ghost use Rattle.std.specs.Prelude.{◌≡◌, ◌*◌, ◌≤◌, None, vec_len, vec_capacity};
ghost use Rattle.refusal.specs.Limits.{side};
ghost use Rattle.source.specs.Makes.{make_refusal_of};

use refusal::MakeError;
use refusal::limits::SIDE;
use std::alloc::Global;

/// An empty list with room for as many priorities as a page can have rows.
#[derive(Drop)]
pub struct PriorityRoom<P> {
    pub(crate) priorities: Vec<P>,
    ghost empty: { vec_len priorities ≡ 0 },
    ghost room: { 2 * side ≤ vec_capacity priorities },
}

impl<P> PriorityRoom<P> {
    /// Room for the priorities of a page. Refuses nothing; there may be no memory.
    pub fn new(heap: Global) -> Result<PriorityRoom<P>, MakeError>
        ensures answer { make_refusal_of result ≡ None }
    {
        let priorities = Vec::with_capacity(heap, 2 * SIDE)?;
        Ok(PriorityRoom { priorities })
    }
}
