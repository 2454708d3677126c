//! weekdesk: works a week by an operator's lines.
//!
//! Reads `pairs.mtx`, `programmes.mtx` and `slots.mtx` in the folder it is run in, or in the one named
//! by its argument, and loads them; a missing file is an empty page. A faulty page is written as
//! `refused NUMBER PAGE LINE`, and then the status is 1. Then it reads commands from standard input, one
//! a line, works them in their order, and writes `load: ANSWER`, and `LINE: ANSWER` for each line that is
//! not blank and no comment. docs/FORMATS.md has the commands and the answers.
#![tactic(auto)]

mod session;
mod telling;

use anyhow::anyhow;
use commands::week_pages::{WeekRead, WeekRoom, read_week};
use folder::{WeekFiles, folder_argument, write_answer};
use page_writer::PageText;
use session::Session;
use std::io::Read;
use telling::tell;

/// The week on the pages of the folder. A faulty page is written, and is an error.
fn read_folder(rt: &HostRuntime, folder: &str) -> anyhow::Result<WeekRead> {
    let Ok(room) = WeekRoom::new(rt.alloc()) else {
        return Err(anyhow!("no memory"));
    };
    let Ok(text) = PageText::new(rt.alloc()) else {
        return Err(anyhow!("no memory"));
    };
    let files = WeekFiles::read(rt, folder)?;
    match read_week(room, &files.bytes()) {
        Ok(week) => Ok(week),
        Err(fault) => {
            write_answer(rt, &Err(text.refusal(fault.into())))?;
            Err(anyhow!("refused"))
        }
    }
}

/// All of standard input.
fn read_input(rt: &HostRuntime) -> anyhow::Result<Vec<u8>> {
    let mut bytes = Vec::new(rt.alloc());
    let _ = rt.stdin().read_to_end(&mut bytes)?;
    Ok(bytes)
}

/// Works the commands on the week in the folder, and tells what they are answered.
fn main(rt: HostRuntime) -> anyhow::Result<()> {
    let folder = folder_argument(&rt)?;
    let week = read_folder(&rt, folder.as_str())?;
    let input = read_input(&rt)?;
    let mut session = Session::new(rt.alloc(), week)?;
    session.take(rt.alloc(), &input)?;
    tell(&rt, session)
}
