//! Options on several underlyings, bundles of them, their orders and batches, and what a certified
//! clearing of them means.
#![tactic(auto)]

pub mod bundles;
pub mod forms;
pub mod from_entries;
pub mod from_legs;
pub mod laws;
pub mod legs;
pub mod limits;
pub mod options;
pub mod orders;
pub mod payoffs;
pub mod primitives;
pub mod sides;
pub mod states;
pub mod words;

pub use bundles::Bundle;
pub use forms::Form;
pub use from_legs::{are_legs, is_same_bundle};
pub use legs::Leg;
pub use limits::{
    MAX_BUDGET, MAX_COUNT, MAX_LEGS, MAX_OPTIONS, MAX_ORDER, MAX_ORDERS, MAX_PRICE, MAX_QUANTITY,
    MAX_STRIKE, MAX_UNDERLYINGS, MAX_WEIGHT,
};
pub use options::{call, put};
pub use orders::{Batch, Order, Orders, Side};
pub use payoffs::{bundle_payoff, payoff};
pub use primitives::primitive;
pub use sides::add_for_side;
pub use states::State;
pub use words::word_of;
