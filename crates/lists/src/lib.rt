//! Lists: vectors that contracts see as their items, vectors that are written in place, rows of one
//! width, one behind another in one raw block; and lists of refusals, each with its condition, of
//! which the first that holds is told.
#![tactic(auto)]

pub mod arena;
mod block;
pub mod list;
pub mod refusals;
pub mod room;

pub use arena::RowArena;
pub use list::List;
pub use room::{make_room, push_within, take_list, write_all, write_front, write_items};
// A crate can name an arena in a contract only if the types of its fields are exported.
#[doc(hidden)]
pub use block::Block;
