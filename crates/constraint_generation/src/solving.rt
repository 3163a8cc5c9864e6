//! The joint solve before the sums of the verdict.
ghost use Rattle.std.specs.Prelude.{◌≡◌, IfOk, unsigned_abs};
ghost use Rattle.form.specs.Limits.{IsWithinLimits};
ghost use Rattle.constraint_generation.specs.Answers.{IsJointAnswer, IsJointOf, as_stopped, limits_of};
ghost use Rattle.constraint_generation.specs.Rooms.{IsJointRoom};
ghost use Rattle.constraint_generation.specs.Run.{unjudged_run};

use crate::joint_room::JointRoom;
use crate::line_solve::solve_line;
use crate::rounds_solve::solve_rounds;
use crate::solution::Solution;
use exact_num::Exact;
use form::Batch;
use simplex::{Budget, RunStop};

impl<N: Exact> JointRoom<N> {
    /// The run before the sums of the verdict: on one underlying one master program over the states
    /// of the line is solved; on several a master program over some states and a search for a state
    /// at which its liability is not enough take turns, until a tree closes. What it finds is yet to
    /// be judged.
    ///
    /// `Wide` comes at the first step that does not fit, `Budget` where the run wants one unit more
    /// than the budget has; units that were spent stay spent. It takes no memory. The batch is
    /// within the limits. (The matching program of Wang et al., EC 2021.)
    pub fn solve_unjudged(
        &mut self,
        batch: &Batch,
        budget: &mut Budget,
    ) -> Result<Solution<N>, RunStop>
        requires limits { IsWithinLimits batch.now }
        requires room { IsJointRoom batch.now budget.old.limit self.old }
        ensures run { IsJointAnswer N.fraction (unjudged_run
            (limits_of (unsigned_abs N.LIMIT) budget.old.limit) batch.now.underlyings
            batch.now.orders budget.old.spent) (as_stopped result) budget.new.spent }
        ensures joint { IfOk result (IsJointOf batch.now) }
        ensures limit { budget.new.limit ≡ budget.old.limit }
    {
        let solve = &mut self.solve;
        match &mut self.search {
            None => solve_line(batch, budget, self.states.as_slice(), solve),
            Some(search) => solve_rounds(batch, budget, &mut self.states, solve, search),
        }
    }
}
