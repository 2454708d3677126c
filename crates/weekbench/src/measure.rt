//! Planning, timed and counted.
use crate::draws::Draws;
use crate::questions::Questions;
use crate::week::{Kind, Week};
use anyhow::anyhow;
use plan::Plan;
use plan::parts::Parts;
use planner::certificate::Certificate;
use planner::settle::settle;
use planner::workspace::Workspace;
use priority::ranking::Ranking;
use std::time::Instant;

const SEED: u64 = 1;

const RUNS: usize = 5;

/// What one planning took.
#[derive(Clone, Copy)]
struct Taken {
    questions: usize,
    searches: usize,
    planned: usize,
    micros: u128,
}

/// How many programmes the plan places.
fn count_placed(plan: &Plan) -> usize {
    plan.slot_of_table()
        .iter()
        .filter(|&&slot| slot != 0)
        .count()
}

/// Plans the week once, from the empty plan.
fn plan_once(rt: &HostRuntime, week: &mut Week) -> anyhow::Result<Taken> {
    let mut plan = Plan::new(rt.alloc())?;
    let mut certificate = Certificate::new(rt.alloc())?;
    let mut workspace = Workspace::new(rt.alloc())?;
    plan.reset(week.programmes.len(), week.slots.len())
        .map_err(|_| anyhow!("no plan"))?;
    let source = Questions::new(&week.pairs);
    let programmes = Ranking::new(&mut week.programmes);
    let slots = Ranking::new(&mut week.slots);
    let start = Instant::now(rt)?;
    let settled = settle(
        &Parts {
            source: &source,
            programmes: &programmes,
            slots: &slots,
        },
        &mut plan,
        &mut certificate,
        &mut workspace,
    );
    let micros = start.elapsed(rt)?.as_micros();
    settled.map_err(|_| anyhow!("not planned"))?;
    Ok(Taken {
        questions: source.asked(),
        searches: workspace.searches(),
        planned: count_placed(&plan),
        micros,
    })
}

/// Plans the week some times, and tells the quickest.
fn plan_quickest(rt: &HostRuntime, week: &mut Week) -> anyhow::Result<Taken> {
    let mut quickest = plan_once(rt, week)?;
    for _ in 1..RUNS {
        let taken = plan_once(rt, week)?;
        if taken.micros < quickest.micros {
            quickest = taken;
        }
    }
    Ok(quickest)
}

/// Draws a week, plans it, and prints its line.
fn measure(rt: &HostRuntime, draws: &mut Draws, kind: Kind, side: u8) -> anyhow::Result<()> {
    let mut week = Week::draw(rt.alloc(), draws, kind, side)?;
    let name = kind.name();
    let pairs = week.allowed();
    let Taken {
        questions,
        searches,
        planned,
        micros,
    } = plan_quickest(rt, &mut week)?;
    println!(rt;
        "{side:>4}  {name:<7}  {pairs:>6}  {questions:>9}  {searches:>8}  {planned:>7}  {micros:>6}"
    )?;
    Ok(())
}

/// Measures weeks of one kind, of each size.
fn measure_kind(rt: &HostRuntime, draws: &mut Draws, kind: Kind) -> anyhow::Result<()> {
    for side in [25u8, 50, 100, 200] {
        measure(rt, draws, kind, side)?;
    }
    Ok(())
}

/// Measures weeks of each kind.
pub(crate) fn measure_all(rt: &HostRuntime) -> anyhow::Result<()> {
    let mut draws = Draws::new(SEED);
    println!(rt; "side  kind      pairs  questions  searches  planned    time")?;
    for kind in [Kind::Dense, Kind::Sparse, Kind::Crowded] {
        measure_kind(rt, &mut draws, kind)?;
    }
    Ok(())
}
