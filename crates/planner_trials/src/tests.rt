//! The weeks, and what planning makes of them.
use crate::trial::Trial;
use plan::Member;
use refusal::Refusal;
use refusal::limits::Num;
use std::alloc::Global;
use std::process::Abort;
use std::test::Fail;

/// Three programmes of priorities 3, 1 and 2 for two slots, with those pairs planned.
fn crowded(heap: Global, planned: &[(Num, Num)]) -> Result<Trial, Fail> {
    let mut trial = Trial::new(heap, &[3, 1, 2], &[1, 1], &[(1, 1), (2, 1), (2, 2), (3, 2)])?;
    for &(programme, slot) in planned {
        trial.plan.assign(programme, slot)?;
    }
    Ok(trial)
}

/// From those pairs planning comes to the best plan: the first programme, the lowest, is left out.
fn check_crowded(heap: Global, rt: &impl Abort, planned: &[(Num, Num)]) -> Result<(), Fail> {
    let mut trial = crowded(heap, planned)?;
    trial.settle()?;
    trial.check(rt, &[0, 1, 2], &[1, 1, 1], &[0, 0]);
    Ok(())
}

#[test]
fn from_nothing(rt: HostRuntime) -> Result<(), Fail> {
    check_crowded(rt.alloc(), &rt, &[])
}

/// No plan has more pairs, but programme 3 is higher than programme 1.
#[test]
fn from_as_many_pairs(rt: HostRuntime) -> Result<(), Fail> {
    check_crowded(rt.alloc(), &rt, &[(1, 1), (2, 2)])
}

/// The highest programme stands where the next one has to go.
#[test]
fn from_a_pair_in_the_way(rt: HostRuntime) -> Result<(), Fail> {
    check_crowded(rt.alloc(), &rt, &[(2, 2)])
}

#[test]
fn from_a_best_plan(rt: HostRuntime) -> Result<(), Fail> {
    check_crowded(rt.alloc(), &rt, &[(2, 1), (3, 2)])
}

#[test]
fn from_a_pair_that_is_not_allowed(rt: HostRuntime) -> Result<(), Fail> {
    check_crowded(rt.alloc(), &rt, &[(1, 2)])
}

#[test]
fn from_a_pair_of_an_absent_programme(rt: HostRuntime) -> Result<(), Fail> {
    let mut trial = crowded(rt.alloc(), &[(2, 1)])?;
    trial.plan.set_present(Member::Programme(2), false)?;
    trial.settle()?;
    trial.check(&rt, &[1, 0, 2], &[0, 0, 0], &[0, 0]);
    Ok(())
}

/// One programme for two slots: the second slot is the higher one.
#[test]
fn the_higher_slot_is_filled(rt: HostRuntime) -> Result<(), Fail> {
    let mut trial = Trial::new(rt.alloc(), &[1], &[9, 4], &[(1, 1), (1, 2)])?;
    trial.settle()?;
    trial.check(&rt, &[2], &[0], &[1, 1]);
    Ok(())
}

#[test]
fn nobody_and_nothing(rt: HostRuntime) -> Result<(), Fail> {
    let mut trial = Trial::new(rt.alloc(), &[], &[], &[])?;
    trial.settle()?;
    trial.check(&rt, &[], &[], &[]);
    Ok(())
}

#[test]
fn parts_that_do_not_fit_are_refused(rt: HostRuntime) -> Result<(), Fail> {
    let mut trial = crowded(rt.alloc(), &[])?;
    trial.plan.reset(2, 2)?;
    trial.plan.assign(1, 2)?;
    assert_eq!(rt; trial.settle(), Err(Refusal::Mismatch));
    trial.check(&rt, &[2, 0], &[], &[]);
    Ok(())
}
