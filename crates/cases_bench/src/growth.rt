//! An exchange before and after a step that finds no memory: by the word `growth` it is taken
//! through a session. Where the system refuses one growth (`tools/hostile growth`), a step that
//! finds no memory changes nothing, and is done again.
ghost use Rattle.command_text.specs.Within.{IsWithin};

use anyhow::{Result, bail, ensure};
use command_text::{Body, Command};
use exact_num::Exact;
use exchange_core::{Exchange, Reply};
use input_commands::commands;
use std::alloc::{AllocError, Global};

// A session with clears and settlements on one and on two underlyings.
static SESSION: &str =
    "open,1\nopen,2\ndeposit,1,100\ndeposit,2,100\nmarket,1,1\nmarket,2,2\nbuy,1,1,call,10,6,1,1\nsell,2,1,call,5,8,1,1\nsell,2,1,call,12,4,1,1\nclear,1,100\nbuy,1,2,call,10,6,1,1,1\nsell,2,2,call,4,3,1,1,0\nsell,2,2,call,6,2,1,0,1\nclear,2,100\nsettle,1,11\nsettle,2,7,9\n";

// Appends the numbers of the live orders of a market.
fn push_live(text: &mut String, exchange: &Exchange, market: u32) -> Result<(), AllocError> {
    if let Ok(batch) = exchange.live(market) {
        for order in batch.orders.as_slice() {
            write!(text, " {}", order.id)?;
        }
    }
    Ok(())
}

// Appends the number of an order and its fill.
fn push_fill(
    text: &mut String,
    order: u64,
    (above, below): (i128, i128),
) -> Result<(), AllocError> {
    write!(text, " {order} {above}/{below}")
}

// Appends the positions of an account in a market.
fn push_positions(
    text: &mut String,
    exchange: &Exchange,
    account: u32,
    market: u32,
) -> Result<(), AllocError> {
    for position in &exchange.positions_of(account, market)? {
        push_fill(text, position.order, position.fill.parts())?;
    }
    Ok(())
}

// Appends the balance, the reserve and the positions of an account in two markets.
fn push_account(text: &mut String, exchange: &Exchange, account: u32) -> Result<(), AllocError> {
    let balance = exchange.balance(account);
    let reserved = exchange.reserved(account);
    write!(text, "\n{balance:?} {reserved:?}")?;
    push_positions(text, exchange, account, 1)?;
    text.push_str(" |")?;
    push_positions(text, exchange, account, 2)
}

// Balances, reserves and positions of the accounts, and the live orders of the markets.
fn exchange_text(alloc: Global, exchange: &Exchange) -> Result<String, AllocError> {
    let mut text = String::new(alloc);
    for account in 0..3u32 {
        push_account(&mut text, exchange, account)?;
    }
    for market in 1..3u32 {
        text.push_str("\n")?;
        push_live(&mut text, exchange, market)?;
    }
    Ok(text)
}

// Takes the exchange one command further, which is not refused.
fn take(exchange: &mut Exchange, command: &Command) -> Result<()>
    requires { IsWithin command.now }
{
    match exchange.step(command)? {
        Reply::Refused { number, .. } => bail!("refused as {number}"),
        _ => Ok(()),
    }
}

// The same. Where a step finds no memory, nothing has changed, and it is done again.
fn advance(alloc: Global, exchange: &mut Exchange, command: &Command) -> Result<()>
    requires { IsWithin command.now }
{
    let before = exchange_text(alloc, exchange)?;
    if exchange.step(command).is_ok() {
        return Ok(());
    }
    let after = exchange_text(alloc, exchange)?;
    ensure!(before.as_str() == after.as_str(), "unchanged");
    take(exchange, command)
}

// Takes the exchange through the session, at whose end the house has 4.
fn advance_all(alloc: Global, exchange: &mut Exchange) -> Result<()> {
    for line in &commands(alloc, SESSION.as_bytes())? {
        match &line.body {
            Body::Command(command) => advance(alloc, exchange, command)?,
            _ => bail!("a command"),
        }
    }
    ensure!(exchange.balance(0) == Some(4), "the house's balance");
    Ok(())
}

/// Takes a new exchange through the session.
pub fn advance_session(rt: &HostRuntime) -> Result<()> {
    let mut exchange = Exchange::new(rt.alloc());
    advance_all(rt.alloc(), &mut exchange)
}
