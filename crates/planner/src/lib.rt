//! The planner: from any plan to a best one, with the certificate that proves it.
//!
//! `settle::settle` is the call. It drops the pairs that are no longer lawful, then makes one pass for
//! the programmes and one for the slots, on the turned plan and source. A pass takes those who are
//! present and without a place, highest first, and searches a path from each. A path that is found is
//! flipped; where there is none, everyone whom the search reached and who names nobody yet names the
//! root. What `settle` leaves passes the rules of a certificate, and so is best.
#![tactic(auto)]

pub mod certificate;
mod choose;
mod pass;
pub mod settle;
pub mod workspace;
