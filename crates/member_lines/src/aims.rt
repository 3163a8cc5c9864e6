// What a line is to do of that which is counted of a session, and whether it did.
ghost use Rattle.std.specs.Prelude.{◌≡◌};
ghost use Rattle.command_text.specs.Within.{IsWithin, RequestIsWithin};
ghost use Rattle.member_lines.specs.Aims.{aim_of, command_aim, done_by, is_open_in, opened_by, order_aim};

use command_text::{Command, Request};
use exchange_core::{Exchange, NewOrder, Reply, order_of};

/// What a line is to do of that which is counted of a session.
#[derive(Clone, Copy, Debug, PartialEq, Eq)]
pub(crate) enum Aim {
    /// It opens an account that is not open.
    Open { account: u32 },
    /// It places an order, which would have the number.
    Place { order: NewOrder, number: u64 },
    /// Nothing.
    Other,
}

// Whether an account is open.
fn is_open(exchange: &Exchange, account: u32) -> bool
    ensures { result ≡ is_open_in exchange.now account }
{
    exchange.reserved(account).is_some()
}

fn order_aim(exchange: &Exchange, command: &Command) -> Aim
    requires { IsWithin command.now }
    ensures { result ≡ order_aim exchange.now command.now }
{
    match order_of(command) {
        Some(order) => Aim::Place {
            number: exchange.as_live(&order).id,
            order,
        },
        None => Aim::Other,
    }
}

fn command_aim(exchange: &Exchange, command: &Command) -> Aim
    requires { IsWithin command.now }
    ensures { result ≡ command_aim exchange.now command.now }
{
    match command {
        Command::Open { account } => {
            if is_open(exchange, *account) {
                Aim::Other
            } else {
                Aim::Open { account: *account }
            }
        }
        command => order_aim(exchange, command),
    }
}

// What a line that asks this is to do.
pub(crate) fn aim_of(exchange: &Exchange, request: &Request) -> Aim
    requires { RequestIsWithin request.now }
    ensures { result ≡ aim_of exchange.now request.now }
{
    match request {
        Request::Command(command) => command_aim(exchange, command),
        _ => Aim::Other,
    }
}

// The account that was opened.
pub(crate) fn opened_by(exchange: &Exchange, aim: &Aim) -> Option<u32>
    ensures { result ≡ opened_by exchange.now aim.now }
{
    match aim {
        Aim::Open { account } => {
            if is_open(exchange, *account) {
                Some(*account)
            } else {
                None
            }
        }
        _ => None,
    }
}

// What was done of it, as a reply tells it: the account is open now; a further order would have
// another number.
pub(crate) fn done_by(exchange: &Exchange, aim: &Aim) -> Option<Reply>
    ensures { result ≡ done_by exchange.now aim.now }
{
    match aim {
        Aim::Open { account } => {
            if is_open(exchange, *account) {
                Some(Reply::Opened { account: *account })
            } else {
                None
            }
        }
        Aim::Place { order, number } => {
            if *number < exchange.as_live(order).id {
                Some(Reply::Placed { order: *number })
            } else {
                None
            }
        }
        Aim::Other => None,
    }
}
