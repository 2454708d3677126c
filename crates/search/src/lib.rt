//! The search for a path that improves a plan, breadth first, over any source and any kind of
//! priority, and the flip of what it finds. Written for one side, the programmes: the slots search on
//! the turned plan and source.
//!
//! A path starts at a root, a programme without a slot, and takes pairs outside and inside the plan in
//! turn: a slot that the root may run in, the programme that holds it, a slot that this one may run in,
//! and so on. It ends at an unfilled slot, or at a slot whose programme is lower than the root. To flip
//! it is to move each programme on it to the slot after it: the root is placed, and at most the lower
//! programme at its end loses its slot.
#![tactic(auto)]

mod find;
mod flip;
pub mod improve;
mod queue;
pub mod space;
mod view;
