//! A week: its plan with its attendance, and the certificate that proves the plan best.
//!
//! A `Week` is open: it can be loaded and edited. `hand_over` makes it a `FiledWeek`, which can only
//! be asked, judged and written to pages, until `reopen` makes it a `Week` again. No week can be
//! copied. Source and rankings stay with the caller, who hands them to each call. After an accepted
//! load or edit the plan is a best one for the parts handed in, and the certificate stored passes.
//! A week is made with room for `SIDE` a side, so that no later call wants memory.
#![tactic(auto)]

pub mod edits;
pub mod load;
pub mod making;
pub mod questions;
mod renewal;

use plan::Plan;
use planner::certificate::Certificate;
use planner::workspace::Workspace;

/// What both kinds of week hold: the plan, its certificate, and the room that planning takes.
#[derive(Drop)]
pub(crate) struct Sheet {
    pub(crate) plan: Plan,
    pub(crate) certificate: Certificate,
    workspace: Workspace,
}

/// The state of a week that can be loaded and edited.
#[derive(Clone, Copy, Debug)]
pub struct Open;

/// The state of a week that is handed over: it can only be asked, judged and written to pages.
#[derive(Clone, Copy, Debug)]
pub struct HandedOver;

/// A week in one of the two states.
#[derive(Drop)]
pub struct Week<State = Open> {
    sheet: Sheet,
    state: State,
}

/// A week that is handed over.
pub type FiledWeek = Week<HandedOver>;
