//! How a week is made, handed over and reopened.
ghost use Rattle.std.specs.Prelude.{◌≡◌, [], IfOk};
ghost use Rattle.plan.specs.Held.{held, nothing};
ghost use Rattle.week.specs.Sheets.{plan_in, certificate_in};

use crate::{FiledWeek, HandedOver, Open, Sheet, Week};
use plan::Plan;
use planner::certificate::Certificate;
use planner::workspace::Workspace;
use std::alloc::{AllocError, Global};

impl<State: Copy> Week<State> {
    /// The same week in another state.
    fn into_state<To>(self, state: To) -> Week<To>
        ensures { result.sheet ≡ self.sheet }
    {
        Week {
            sheet: self.sheet,
            state,
        }
    }
}

impl Week {
    /// A week of no programmes and no slots, with room for `SIDE` a side.
    pub fn new(heap: Global) -> Result<Week, AllocError>
        ensures plan { IfOk result (λ week. plan_in week.sheet ≡ nothing 0 0) }
        ensures certificate { IfOk result (λ week. certificate_in week.sheet ≡ []) }
    {
        let plan = Plan::new(heap)?;
        let certificate = Certificate::new(heap)?;
        let workspace = Workspace::new(heap)?;
        let sheet = Sheet {
            plan,
            certificate,
            workspace,
        };
        Ok(Week { sheet, state: Open })
    }

    /// Hands the week over: plan and certificate stay, and it cannot be edited until it is reopened.
    pub fn hand_over(self) -> FiledWeek
        ensures { result.sheet ≡ self.sheet }
    {
        self.into_state(HandedOver)
    }
}

impl FiledWeek {
    /// Opens the week again: plan and certificate stay.
    pub fn reopen(self) -> Week
        ensures { result.sheet ≡ self.sheet }
    {
        self.into_state(Open)
    }
}
