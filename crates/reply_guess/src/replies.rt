// The replies, by the keys with which their lines begin.
use crate::certificates::{mark, skip_word};
use crate::cursor::Cursor;
use crate::items::{Item, items_of};
use crate::stop::Unread;
use cert_check::{Claim, Mark, Outcome};
use form::Batch;
use frac::Frac128;
use lists::List;
use reply_print::Reply;
use std::alloc::Global;

// An account's balance after it is told: new, or asked for.
fn balance(cursor: &mut Cursor<'_>, account: u32) -> Result<(u32, Reply), Unread> {
    let balance = cursor.whole_text()?;
    cursor.skip(b",\"line\":")?;
    let line = cursor.number()?;
    cursor.skip(b",\"reply\":")?;
    if cursor.has(b"\"deposited\"") {
        return Ok((line, Reply::Deposited { account, balance }));
    }
    if cursor.has(b"\"withdrawn\"") {
        return Ok((line, Reply::Withdrawn { account, balance }));
    }
    cursor.skip(b"\"balance\",\"reserved\":")?;
    let reserved = cursor.whole_text()?;
    let reply = Reply::Balance {
        account,
        balance,
        reserved,
    };
    Ok((line, reply))
}

// A reply that begins with its account.
fn of_account(cursor: &mut Cursor<'_>) -> Result<(u32, Reply), Unread> {
    let account = cursor.number()?;
    if cursor.has(b",\"balance\":") {
        return balance(cursor, account);
    }
    cursor.skip(b",\"line\":")?;
    let line = cursor.number()?;
    Ok((line, Reply::Opened { account }))
}

// What became of an order.
fn of_order(cursor: &mut Cursor<'_>) -> Result<Reply, Unread> {
    let order = cursor.natural();
    cursor.skip(b",\"reply\":")?;
    if cursor.has(b"\"placed\"") {
        return Ok(Reply::Placed { order });
    }
    Ok(Reply::Cancelled { order })
}

fn listed(cursor: &mut Cursor<'_>) -> Result<Reply, Unread> {
    let market = cursor.number()?;
    cursor.skip(b",\"reply\":\"listed\",\"underlyings\":")?;
    let underlyings = cursor.small()?;
    Ok(Reply::Listed {
        market,
        underlyings,
    })
}

// A reply that begins with its line.
fn of_line(cursor: &mut Cursor<'_>) -> Result<(u32, Reply), Unread> {
    let line = cursor.number()?;
    if cursor.has(b",\"order\":") {
        return Ok((line, of_order(cursor)?));
    }
    if cursor.has(b",\"market\":") {
        return Ok((line, listed(cursor)?));
    }
    cursor.skip(b",\"number\":")?;
    let number = cursor.number()?;
    Ok((line, Reply::Refused { number, field: 0 }))
}

// A refusal that names a field.
fn of_field(cursor: &mut Cursor<'_>) -> Result<(u32, Reply), Unread> {
    let field = cursor.small()?;
    cursor.skip(b",\"line\":")?;
    let line = cursor.number()?;
    cursor.skip(b",\"number\":")?;
    let number = cursor.number()?;
    Ok((line, Reply::Refused { number, field }))
}

fn settled(alloc: Global, cursor: &mut Cursor<'_>) -> Result<(u32, Reply), Unread> {
    let lapsed = cursor.number()?;
    cursor.skip(b",\"line\":")?;
    let line = cursor.number()?;
    cursor.skip(b",\"market\":")?;
    let market = cursor.number()?;
    let payouts = list_at(alloc, cursor, b",\"payouts\":")?;
    let reply = Reply::Settled {
        market,
        lapsed,
        payouts,
    };
    Ok((line, reply))
}

// What stands from the liability to the market.
#[derive(Clone, Copy)]
struct Place {
    liability: Frac128,
    line: u32,
    market: u32,
}

fn place_of(cursor: &mut Cursor<'_>, mark: &Mark) -> Result<Place, Unread> {
    cursor.skip(b",\"liability\":")?;
    let liability = cursor.fraction()?;
    cursor.skip(b",\"line\":")?;
    let line = cursor.number()?;
    cursor.skip(b",\"mark\":")?;
    skip_word(cursor, mark)?;
    cursor.skip(b",\"market\":")?;
    let market = cursor.number()?;
    Ok(Place {
        liability,
        line,
        market,
    })
}

// What stands behind the orders.
#[derive(Clone, Copy)]
struct End {
    surplus: Frac128,
    underlyings: u8,
    units: u32,
}

fn end_of(cursor: &mut Cursor<'_>) -> Result<End, Unread> {
    cursor.skip(b",\"reply\":\"cleared\",\"surplus\":")?;
    let surplus = cursor.fraction()?;
    cursor.skip(b",\"underlyings\":")?;
    let underlyings = cursor.small()?;
    cursor.skip(b",\"units\":")?;
    let units = cursor.number()?;
    Ok(End {
        surplus,
        underlyings,
        units,
    })
}

// The items of the list under a key.
fn list_at<T: Item>(alloc: Global, cursor: &mut Cursor<'_>, key: &[u8]) -> Result<List<T>, Unread> {
    cursor.skip(key)?;
    Ok(List::from_vec(items_of(alloc, cursor)?))
}

fn cleared(alloc: Global, cursor: &mut Cursor<'_>) -> Result<(u32, Reply), Unread> {
    let number = cursor.number()?;
    let mark = mark(alloc, cursor)?;
    let fills = list_at(alloc, cursor, b",\"fills\":")?;
    let place = place_of(cursor, &mark)?;
    let orders = list_at(alloc, cursor, b",\"orders\":")?;
    let end = end_of(cursor)?;
    let claim = Claim {
        liability: place.liability,
        surplus: end.surplus,
    };
    let reply = Reply::Cleared {
        number,
        market: place.market,
        batch: Batch {
            underlyings: end.underlyings,
            orders,
        },
        outcome: Outcome {
            fills,
            claim,
            mark,
            units: end.units,
        },
    };
    Ok((place.line, reply))
}

// A line and its reply.
pub(crate) fn line_and_reply(
    alloc: Global,
    cursor: &mut Cursor<'_>,
) -> Result<(u32, Reply), Unread> {
    if cursor.has(b"{\"account\":") {
        of_account(cursor)
    } else if cursor.has(b"{\"line\":") {
        of_line(cursor)
    } else if cursor.has(b"{\"batch\":") {
        cleared(alloc, cursor)
    } else if cursor.has(b"{\"lapsed\":") {
        settled(alloc, cursor)
    } else if cursor.has(b"{\"field\":") {
        of_field(cursor)
    } else {
        Err(Unread::Unlike)
    }
}
