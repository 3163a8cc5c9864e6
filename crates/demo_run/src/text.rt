// The made text.
ghost use Rattle.std.specs.Prelude.{◌≡◌, ◌≤◌, ◌<◌, ◌+◌, ◌*◌, ◌++◌, length, IfOk, OnOk, string_bytes};
ghost use Rattle.program_words.specs.declared.requests.TheConstants.{MAX_DEMO_ORDERS};
ghost use Rattle.demo_run.specs.Draws.{after};
ghost use Rattle.demo_run.specs.Text.{each, open_line, deposit_line, of_accounts, clear_line, order_lines, settle_line, opening_text, made_text};

use crate::draws::Draws;
use crate::order::DrawnOrder;
use std::alloc::{AllocError, Global};

/// A made text has at most so many bytes.
pub const MAX_BYTES: usize = 500_000;

// Each has a deposit, and trades.
const ACCOUNTS: u32 = 40;

// So many orders are cleared at once.
const BATCH: u32 = 20;

fn open_line(alloc: Global, account: u32) -> Result<String, AllocError>
    ensures { IfOk result (λ text. string_bytes text ≡ open_line account) }
{
    format!(in alloc; "open,{account}\n")
}

fn deposit_line(alloc: Global, account: u32) -> Result<String, AllocError>
    ensures { IfOk result (λ text. string_bytes text ≡ deposit_line account) }
{
    format!(in alloc; "deposit,{account},1000000000000000\n")
}

fn append_opens(alloc: Global, text: &mut String) -> Result<(), AllocError>
    ensures { OnOk result
        (string_bytes text.new ≡ string_bytes text.old ++ of_accounts open_line) }
{
    for index in 0..ACCOUNTS {
        text.push_str(&open_line(alloc, index + 1)?)?;
    }
    Ok(())
}

fn append_deposits(alloc: Global, text: &mut String) -> Result<(), AllocError>
    ensures { OnOk result
        (string_bytes text.new ≡ string_bytes text.old ++ of_accounts deposit_line) }
{
    for index in 0..ACCOUNTS {
        text.push_str(&deposit_line(alloc, index + 1)?)?;
    }
    Ok(())
}

// Accounts with their deposits, and a market.
fn opening(alloc: Global) -> Result<String, AllocError>
    ensures { IfOk result (λ text. string_bytes text ≡ opening_text) }
{
    let mut text = String::new(alloc);
    append_opens(alloc, &mut text)?;
    append_deposits(alloc, &mut text)?;
    text.push_str("market,1,2\n")?;
    Ok(text)
}

// What follows so many of the orders.
fn clear_line(count: u32, orders: u32) -> &'static str
    ensures { result.now ≡ clear_line count orders }
{
    if orders % BATCH == 0 || orders == count {
        "clear,1,2000\n"
    } else {
        ""
    }
}

// Appends the orders of the next draws.
fn append_orders(
    alloc: Global,
    draws: &mut Draws,
    count: u32,
    text: &mut String,
) -> Result<(), AllocError>
    ensures text { OnOk result (string_bytes text.new
        ≡ string_bytes text.old ++ each (order_lines draws.old.state count) count) }
    ensures state { OnOk result (draws.new.state ≡ after (7 * count) draws.old.state) }
{
    for index in 0..count {
        let order = DrawnOrder::draw(draws);
        text.push_str(&order.line(alloc)?)?;
        text.push_str(clear_line(count, index + 1))?;
    }
    Ok(())
}

fn settle_line(alloc: Global, draws: &mut Draws) -> Result<String, AllocError>
    ensures { IfOk result (λ text. string_bytes text ≡ settle_line draws.old.state) }
{
    let first = 800 + draws.draw(401);
    let second = 800 + draws.draw(401);
    format!(in alloc; "settle,1,{first},{second}\n")
}

/// The text of commands that a seed makes: forty accounts trade so many options on two underlyings,
/// at most 20 a batch, and the market is settled.
pub fn demo_text(alloc: Global, seed: u32, count: u32) -> Result<String, AllocError>
    requires some { 1 ≤ count }
    requires few { count ≤ MAX_DEMO_ORDERS }
    ensures text { IfOk result (λ text. string_bytes text ≡ made_text seed count) }
    ensures size { IfOk result (λ text. length (string_bytes text) ≤ MAX_BYTES) }
{
    let mut draws = Draws::from_seed(seed);
    let mut text = opening(alloc)?;
    append_orders(alloc, &mut draws, count, &mut text)?;
    text.push_str(&settle_line(alloc, &mut draws)?)?;
    Ok(text)
}
