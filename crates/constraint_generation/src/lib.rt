//! The joint solve of a batch. On one underlying: one master program over the states of the line;
//! on several: rounds of a master program and a search for a state at which its liability is not
//! enough. Last come the sums of the verdict.
#![tactic(auto)]

mod first_states;
mod giving;
pub mod joint_room;
mod judging;
pub mod laws;
mod line_solve;
mod master;
mod master_solve;
mod reading;
mod round;
mod rounds_solve;
mod solution;
mod solve_room;
mod solving;

pub use joint_room::JointRoom;
pub use judging::{tests_hold, widened, write_widened};
pub use solution::Solution;
