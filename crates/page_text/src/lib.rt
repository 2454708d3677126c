//! The text of a page: its lines, their words, the whole numbers these write, and the fault with
//! which a page is refused.
#![tactic(auto)]

pub mod fault;
pub mod limits;
pub mod line;
pub mod lines;
pub mod words;
