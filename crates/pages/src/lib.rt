//! Matrix Market pages: read into a grid or into a table, or refused with a fault.
//!
//! A page is read line by line in three stages, header, size and entries; `docs/FORMATS.md` has the rules.
#![tactic(auto)]

mod content;
pub mod pair_pages;
mod stages;
pub mod table_pages;
