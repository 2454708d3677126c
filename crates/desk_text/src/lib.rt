//! The operator's lines: what a line asks of the desk, and what the desk's answers look like.
#![tactic(auto)]

pub mod answers;
pub mod calling;
pub mod commands;
mod forms;
pub mod reading;
