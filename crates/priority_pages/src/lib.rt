//! The priorities of one side, read from a page of a table: one column for the number kind, two for the
//! house kind, classes first and then weeks. A number outside its kind gives 11 with line 0.
#![tactic(auto)]

pub mod kinds;
pub mod reading;
pub mod room;
