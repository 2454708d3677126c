//! What the programs of a week answer, from the bytes of their pages to the bytes they write.
#![tactic(auto)]

pub mod filed_pages;
pub mod judging;
pub mod week_pages;
