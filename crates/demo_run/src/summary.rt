// What a demo writes.
ghost use Rattle.std.specs.Prelude.{◌≡◌, ◌≤◌, IfOk, string_bytes};
ghost use Rattle.cash_ledger.specs.Entries.{balance_of};
ghost use Rattle.program_words.specs.declared.requests.TheConstants.{MAX_DEMO_ORDERS};
ghost use Rattle.demo_run.specs.Demo.{house_text, lines_text, summary_line, demo_output};

use crate::run::tally_replies;
use crate::tally::Tally;
use crate::text::demo_text;
use command_text::raw_lines;
use exchange_core::Exchange;
use std::alloc::{AllocError, Global};

// The account of the house.
const HOUSE: u32 = 0;

fn house_text(alloc: Global, tally: &Tally, house: i128) -> Result<String, AllocError>
    ensures { IfOk result (λ text. string_bytes text ≡ house_text tally.now house) }
{
    let batches = tally.batches;
    let budget = tally.budget;
    format!(in alloc; "{{\"batches\":{batches},\"budget\":{budget},\"house\":\"{house}\"")
}

fn lines_text(alloc: Global, tally: &Tally) -> Result<String, AllocError>
    ensures { IfOk result (λ text. string_bytes text ≡ lines_text tally.now) }
{
    let lines = tally.lines;
    let optimal = tally.optimal;
    let refused = tally.refused;
    let wide = tally.wide;
    format!(in alloc;
        ",\"lines\":{lines},\"optimal\":{optimal},\"refused\":{refused},\"wide\":{wide}}}\n"
    )
}

// The summary of a run, with its line feed.
fn summary_line(alloc: Global, tally: &Tally, house: i128) -> Result<String, AllocError>
    ensures { IfOk result (λ text. string_bytes text ≡ summary_line tally.now house) }
{
    let mut text = house_text(alloc, tally, house)?;
    text.push_str(&lines_text(alloc, tally)?)?;
    Ok(text)
}

fn house_balance(exchange: &Exchange) -> i128
    ensures { result ≡ balance_of 0 exchange.now.entries }
{
    exchange.balance(HOUSE).unwrap()
}

/// Makes the text of a seed and a number of orders, runs it on an empty exchange, and answers the
/// summary: how many replies were given and of which kinds, and the house's balance after them, in
/// ticks.
///
/// Of the replies only the counts are kept.
pub fn demo(alloc: Global, seed: u32, count: u32) -> Result<String, AllocError>
    requires some { 1 ≤ count }
    requires few { count ≤ MAX_DEMO_ORDERS }
    ensures { IfOk result (λ text. string_bytes text ≡ demo_output seed count) }
{
    let text = demo_text(alloc, seed, count)?;
    let input = text.as_bytes();
    let lines = raw_lines(alloc, input)?;
    let mut exchange = Exchange::new(alloc);
    let tally = tally_replies(alloc, &mut exchange, input, &lines)?;
    summary_line(alloc, &tally, house_balance(&exchange))
}
