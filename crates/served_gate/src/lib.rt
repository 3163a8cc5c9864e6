//! A gate before any server of bodies: it has each message served that is the next of its session,
//! and keeps it with the reply.
#![tactic(auto)]

#[cfg(test)]
mod list_server;
mod messages;
mod server;

pub use messages::accept;
pub use server::Server;
