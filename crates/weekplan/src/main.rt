//! weekplan: writes the plan of a week.
//!
//! Reads `pairs.mtx`, `programmes.mtx` and `slots.mtx` in the folder it is run in, or in the one named
//! by its argument, and writes the page of a best plan. A refusal is written as
//! `refused NUMBER PAGE LINE`, and then the status is 1. A missing file is an empty page.
#![tactic(auto)]

use anyhow::anyhow;
use folder::{WeekFiles, folder_argument, write_answer};
use planning::{PlanningRoom, plan_answer};

fn main(rt: HostRuntime) -> anyhow::Result<()> {
    let folder = folder_argument(&rt)?;
    let Ok(room) = PlanningRoom::new(rt.alloc()) else {
        return Err(anyhow!("no memory"));
    };
    let files = WeekFiles::read(&rt, folder.as_str())?;
    write_answer(&rt, &plan_answer(room, &files.bytes()))
}
