//! The words of replies.
ghost use Rattle.std.specs.Prelude.{◌≡◌};
ghost use Rattle.reply_print.specs.Words.{mark_word, operator_word, reason_word};

use cert_check::Mark;
use exact_num::Operator;

pub(crate) fn mark(mark: &Mark) -> &'static str
    ensures { result.now ≡ mark_word mark.now }
{
    match mark {
        Mark::Optimal { .. } => "optimal",
        Mark::Wide(_) => "wide",
        Mark::Budget => "budget",
    }
}

pub(crate) fn operator(operator: Operator) -> &'static str
    ensures { result.now ≡ operator_word operator }
{
    match operator {
        Operator::Add => "add",
        Operator::Mul => "mul",
        Operator::Div => "div",
        Operator::Whole => "whole",
    }
}

/// The name of the refusal of a number from 1 to 13.
pub fn reason(number: u32) -> &'static str
    ensures { result.now ≡ reason_word number }
{
    match number {
        1 => "Syntax",
        2 => "NoAccount",
        3 => "AccountExists",
        4 => "NoMarket",
        5 => "MarketExists",
        6 => "Settled",
        7 => "WeightCount",
        8 => "Range",
        9 => "Funds",
        10 => "BookFull",
        11 => "NoOrder",
        12 => "NotOwner",
        _ => "TooMany",
    }
}
