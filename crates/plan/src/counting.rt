//! How many of a side have a place, by a question about their priorities.
ghost use Rattle.std.specs.Prelude.{◌≡◌, ◌≤◌, Bool, length};
ghost use Rattle.std.specs.Fn.{FnReturnsAt};
ghost use Rattle.plan.specs.Counting.{Answers, counted_of};

use crate::side::Side;

impl Side {
    /// How many have a place, and a priority of which the question holds.
    pub(crate) fn count_placed<P, F: Fn(&P) -> bool>(&self, priorities: &[P], asked: F) -> usize
        requires { F.IsAlwaysCallable asked }
        ensures most { result ≤ length priorities.now }
        ensures exact { (question : P → P → Bool) (other : P) → Answers (FnReturnsAt F.Fn asked) question other → result ≡ counted_of question priorities.now self.now.places.items other }
    {
        let mut counted = 0;
        for (own, place) in priorities.iter().zip(&self.places) {
            if *place != 0 && asked(own) {
                counted += 1;
            }
        }
        counted
    }
}
