//! A batch as a solver in floats sees it, its linear programs, and the search over them: orders,
//! legs and states in numbers about 1 beside whole numbers, the master program over the states
//! found so far, programs over columns for the leaves of a tree, and the tables with bounded
//! variables that solve them; and climbs to states at which a near solution owes more than its
//! liability. What they find is near, and nothing is proved of it but that each ends within its
//! turns and looks.
#![tactic(auto)]

pub mod book;
pub mod climbs;
mod entrants;
pub mod fractions;
pub mod master;
pub mod mending;
pub mod node;
pub mod numbers;
pub mod opens;
pub mod parts;
pub mod points;
pub mod rounding;
mod rows;
pub mod starts;
mod steps;
mod table;
pub mod tree;

pub use book::{Book, NearLeg, NearOrder, Scales};
pub use climbs::{Draws, Violated};
pub use master::{Master, SMALL};
pub use node::{
    Column, EntrySums, Found, NearMultiplier, Question, RAY_TOLERANCE, close_columns,
    solve_columns, solve_node,
};
pub use opens::{Aim, Open};
pub use points::NearState;
pub use rows::{add_entry, add_times, entry, from_zero, plus_products, power, set_entry};
pub use steps::{Stuck, Turns};
pub use table::{Table, UNBOUNDED, variable_at};
pub use tree::TreeNode;
