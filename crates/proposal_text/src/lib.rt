//! The texts of proposals: what a line proposes, and the replies that `serve` has beside those of a
//! run, both ways.
#![tactic(auto)]

mod account_lines;
mod asked_shapes;
mod asked_values;
mod bounded_lines;
pub mod cells;
mod cells_shape;
mod cells_values;
pub mod counts;
mod cover_reading;
mod cover_text;
pub mod laws;
pub mod margins;
pub mod needs;
pub mod prices;
mod printing;
pub mod reading;
pub mod replies;
mod reply_shapes;
mod reply_values;
pub mod submission_text;
pub mod submissions;

pub use margins::ToldMargin;
pub use needs::Need;
pub use prices::QuotedPrice;
pub use printing::{print_line, print_proposal_reply};
pub use reading::read_proposal_reply;
pub use replies::{
    AccountNeed, Bar, BoundedOutcome, FailureKind, Positions, ProposalReply, ServedReply,
    StopReason, Trial, failed_as,
};
pub use submission_text::{print_submission, read_submission};
pub use submissions::Submission;
