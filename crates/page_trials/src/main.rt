//! Tries pages on the running code and prints what each gives: a line for each case.
#![tactic(auto)]

mod limits;
mod pairs;
mod show;
mod tables;
mod written;

use std::io;

fn main(rt: HostRuntime) -> io::Result<()> {
    pairs::read(&rt)?;
    pairs::refused(&rt)?;
    tables::read(&rt)?;
    tables::refused(&rt)?;
    tables::priorities(&rt)?;
    limits::limits(&rt)?;
    written::written(&rt)
}
