//! The station's worked cases: what the definitions say of small weeks, shown without planning one.
//!
//! `specs/Weeks.antt` has the weeks, by the same ledger, boards and priorities that the contracts of
//! `desk`, `judge` and `planner` speak of. `specs/Cases.antt` has a statement for each case, and their list.
#![tactic(auto)]

ghost use Rattle.std.specs.Prelude.{◌≡◌, length};
ghost use Rattle.cases.specs.Cases.{cases, AllHold};

use matching::tested_plans_are_best;
use priority::number::Number;

/// How many worked cases there are. Each of them holds.
pub fn worked_cases() -> usize
    ensures count { result ≡ length cases }
    ensures hold { AllHold cases }
{
    let _ = tested_plans_are_best::<Number>();
    14
}
