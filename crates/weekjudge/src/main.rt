//! weekjudge: checks a filed week.
//!
//! Reads `pairs.mtx`, `programmes.mtx`, `slots.mtx`, `plan.mtx` and `proof.mtx` in the folder it is run
//! in, or in the one named by its argument, and writes `accepted` or `rejected`. A refusal is written as
//! `refused NUMBER PAGE LINE`, and then the status is 1. A missing file is an empty page.
#![tactic(auto)]

use anyhow::anyhow;
use commands::filed_pages::FiledBytes;
use commands::judging::{JudgeRoom, judge_answer};
use folder::{WeekFiles, folder_argument, read_page, write_answer};
use page_text::fault::Page;

fn main(rt: HostRuntime) -> anyhow::Result<()> {
    let folder = folder_argument(&rt)?;
    let Ok(room) = JudgeRoom::new(rt.alloc()) else {
        return Err(anyhow!("no memory"));
    };
    let week = WeekFiles::read(&rt, folder.as_str())?;
    let plan = read_page(&rt, folder.as_str(), Page::Plan)?;
    let proof = read_page(&rt, folder.as_str(), Page::Proof)?;
    let bytes = FiledBytes {
        week: week.bytes(),
        plan: &plan,
        proof: &proof,
    };
    write_answer(&rt, &judge_answer(room, &bytes))
}
