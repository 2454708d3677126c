//! weekbench: measures planning on made-up weeks.
//!
//! `weekbench run` plans dense, sparse and crowded weeks of 25, 50, 100 and 200 a side, each from the
//! empty plan, and prints a line for each. The weeks are drawn from a fixed seed, so they are the same in
//! every run.
#![tactic(auto)]

mod draws;
mod measure;
mod questions;
mod week;

use measure::measure_all;
use std::env;

/// Prints how the program is used.
fn tell_use(rt: &HostRuntime) -> anyhow::Result<()> {
    println!(rt; "usage: weekbench run")?;
    println!(rt; "Plans made-up weeks, and prints a line for each:")?;
    println!(rt; "  side       how many programmes, and how many slots")?;
    println!(rt; "  kind       dense, sparse or crowded")?;
    println!(rt; "  pairs      how many pairs are allowed")?;
    println!(rt; "  questions  how often the source was asked for a pair")?;
    println!(rt; "  searches   how many searches were made")?;
    println!(rt; "  planned    how many pairs the plan has")?;
    println!(rt; "  time       microseconds, the least of five runs")?;
    Ok(())
}

fn main(rt: HostRuntime) -> anyhow::Result<()> {
    match env::args(&rt)?.nth(1).as_deref() {
        Some("run") => measure_all(&rt),
        _ => tell_use(&rt),
    }
}
