//! Orders, payouts and positions that are added to a line.
ghost use Rattle.std.specs.Prelude.{true, ◌≡◌, ◌++◌, OnOk};
ghost use Rattle.reply_print.specs.BatchPieces.{bundle_field, each, form_piece, leg_piece, order_piece};
ghost use Rattle.reply_print.specs.Piece.{Fields, fields_text, piece_text};
ghost use Rattle.reply_print.specs.ReplyPieces.{paid_piece, position_piece, signed_amount};

use crate::printing::{
    Printed, add_field, add_items, add_list, add_number, add_words, append, comma,
};
use form::{Form, Leg, Order, Side, word_of};
use settlement::{PaidOut, Position};
use std::alloc::AllocError;

impl Printed for Form {
    ghost piece = { form_piece };

    fn print(&self, line: &mut Vec<u8>) -> Result<(), AllocError> {
        add_list(line, &self.entries[..self.count as usize])
    }
}

impl Printed for Leg {
    ghost piece = { leg_piece };

    fn print(&self, line: &mut Vec<u8>) -> Result<(), AllocError> {
        append(line, "{")?;
        add_field(line, false, "count", &i64::from(self.count))?;
        add_field(line, true, "form", &self.form)?;
        append(line, "}")
    }
}

// Adds the form of one leg, or the legs.
fn add_bundle(line: &mut Vec<u8>, legs: &[Leg], single: bool) -> Result<(), AllocError>
    ensures { OnOk result ((fs : Fields) → line.new.items ++ fields_text true fs
        ≡ line.old.items ++ fields_text true (bundle_field single legs.now fs)) }
{
    if !single {
        return add_items(line, true, "legs", legs);
    }
    match legs {
        [] => Ok(()),
        [leg, ..] => add_field(line, true, "form", &leg.form),
    }
}

fn add_order(line: &mut Vec<u8>, order: &Order, single: bool) -> Result<(), AllocError>
    ensures { OnOk result (line.new.items
        ≡ line.old.items ++ piece_text (order_piece single order.now)) }
{
    append(line, "{")?;
    add_number(line, false, "account", u64::from(order.account))?;
    add_bundle(line, order.bundle.as_slice(), single)?;
    add_number(line, true, "order", order.id)?;
    add_number(line, true, "price", order.price)?;
    add_number(line, true, "quantity", u64::from(order.quantity))?;
    add_words(line, true, "side", word_of(order.side))?;
    append(line, "}")
}

/// Adds a list of orders, each with a form where `single`, and else with legs. The only error is
/// want of memory.
pub fn add_orders(line: &mut Vec<u8>, orders: &[Order], single: bool) -> Result<(), AllocError>
    ensures { OnOk result (line.new.items
        ≡ line.old.items ++ piece_text (each (order_piece single) orders.now)) }
{
    append(line, "[")?;
    let mut later = false;
    for order in orders {
        append(line, comma(later))?;
        add_order(line, order, single)?;
        later = true;
    }
    append(line, "]")
}

// What is paid, with a minus where a seller pays.
fn signed(side: Side, amount: u64) -> i128
    ensures { result ≡ signed_amount side amount }
{
    match side {
        Side::Buy => i128::from(amount),
        Side::Sell => -i128::from(amount),
    }
}

impl Printed for PaidOut {
    ghost piece = { paid_piece };

    fn print(&self, line: &mut Vec<u8>) -> Result<(), AllocError> {
        append(line, "{")?;
        add_number(line, false, "account", u64::from(self.account))?;
        add_field(line, true, "amount", &signed(self.side, self.amount))?;
        add_number(line, true, "batch", u64::from(self.batch))?;
        add_number(line, true, "order", self.order)?;
        append(line, "}")
    }
}

impl Printed for Position {
    ghost piece = { position_piece };

    fn print(&self, line: &mut Vec<u8>) -> Result<(), AllocError> {
        append(line, "{")?;
        add_number(line, false, "batch", u64::from(self.batch))?;
        add_field(line, true, "fill", &self.fill)?;
        add_items(line, true, "legs", self.bundle.as_slice())?;
        add_number(line, true, "order", self.order)?;
        add_words(line, true, "side", word_of(self.side))?;
        append(line, "}")
    }
}
