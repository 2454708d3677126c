//! The desk of a week: one who owns the week, its source and its rankings, and works lists of calls.
#![tactic(auto)]

mod asking;
pub mod calls;
pub mod desks;
pub mod edits;
mod lending;
pub mod run;
mod serving;
mod standing;
