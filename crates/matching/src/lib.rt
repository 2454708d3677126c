//! What a best plan of a week is, what a certificate of one says, and why it proves it.
//!
//! The definitions stand in `specs/`: `Board` says what a plan is and when it is best, `Certificate`
//! gives the rules that a certificate keeps, `Check` has the same rules as a test that computes, and
//! `Lists` reads plans and certificates from lists of numbers. Each function here does nothing: its
//! contract is a theorem about these definitions, for every kind of priority.
#![tactic(auto)]

ghost use Rattle.matching.specs.Certificate.{PassingIsBest, BestPlansAgree};
ghost use Rattle.matching.specs.Check.{TestIsExact, TestedIsBest};

use priority::Priority;

/// A plan that passes with some certificate is best.
pub fn passing_plans_are_best<P: Priority>() -> u8
    ensures { PassingIsBest P.Priority.reaches }
{
    0
}

/// The test of `Check` says yes exactly where a plan passes.
pub fn test_is_exact<P: Priority>() -> u8
    ensures { TestIsExact P.Priority.reaches }
{
    0
}

/// A plan for which the test says yes with some certificate is best.
pub fn tested_plans_are_best<P: Priority>() -> u8
    ensures { TestedIsBest P.Priority.reaches }
{
    0
}

/// Any two best plans of a board have the same tally and the same score digit at every priority.
pub fn best_plans_agree<P: Priority>() -> u8
    ensures { BestPlansAgree P.Priority.reaches }
{
    0
}
