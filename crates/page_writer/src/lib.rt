//! Writes pages: no comments, single spaces, a line feed after each line. What is written reads back as the same.
//!
//! A page's text is made with room for the longest page, so that no writer wants memory.
#![tactic(auto)]

ghost use Rattle.std.specs.Prelude.{◌≤◌, vec_capacity};
ghost use Rattle.page_text.specs.Limits.{page_limit};

pub mod answer_line;
mod numerals;
pub mod plan_page;
pub mod table_page;
pub mod text;

/// The text of a page, with room for the longest page.
#[derive(Drop)]
pub struct PageText {
    bytes: Vec<u8>,
    ghost room: { page_limit ≤ vec_capacity bytes },
}
