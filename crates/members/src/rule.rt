//! The rule: to whom a line is allowed, by its word and by the account that it names. A word that
//! is added to the lines has its row here, or nothing compiles.
ghost use Rattle.std.specs.Prelude.{◌≡◌};
ghost use Rattle.members.specs.Rule.{account_of, asker_of, command_account, command_word, is_among, is_operator, sender_of, side_word, word_of};

use crate::quota::LAST_OPERATOR;
use command_text::{Command, LineWord, Request};
use form::Side;

/// To whom a line is allowed.
#[derive(Clone, Copy, Debug, PartialEq, Eq)]
pub enum Whom {
    /// The operator's sessions.
    Operator,
    /// The owner of the account that the line names.
    Owner,
    /// The owner of the account that the line names, and the operator's sessions.
    OwnerOrOperator,
    /// Every session.
    All,
    /// No session.
    Nobody,
}

/// Who may send a line with this word as a message.
pub fn sender_of(word: LineWord) -> Whom
    ensures { result ≡ sender_of word }
{
    match word {
        LineWord::Open => Whom::All,
        LineWord::Deposit => Whom::Operator,
        LineWord::Withdraw => Whom::Owner,
        LineWord::Market => Whom::Operator,
        LineWord::Buy => Whom::Owner,
        LineWord::Sell => Whom::Owner,
        LineWord::Bundle => Whom::Owner,
        LineWord::Cancel => Whom::Owner,
        LineWord::Clear => Whom::Operator,
        LineWord::Settle => Whom::Operator,
        LineWord::Balance => Whom::OwnerOrOperator,
        LineWord::Quote => Whom::Nobody,
        LineWord::Price => Whom::Nobody,
        LineWord::Try => Whom::Nobody,
        LineWord::Margin => Whom::Nobody,
        LineWord::Book => Whom::All,
        LineWord::Positions => Whom::OwnerOrOperator,
        LineWord::Secure => Whom::Owner,
        LineWord::Need => Whom::Nobody,
        LineWord::Close => Whom::Operator,
        LineWord::Reopen => Whom::Operator,
        LineWord::Propose => Whom::All,
    }
}

/// Who may ask it, where it may be asked at all: what holds all others up is no message, and is
/// asked.
pub fn asker_of(word: LineWord) -> Whom
    ensures { result ≡ asker_of word }
{
    match word {
        LineWord::Quote => Whom::All,
        LineWord::Price => Whom::All,
        LineWord::Try => Whom::All,
        LineWord::Margin => Whom::OwnerOrOperator,
        LineWord::Need => Whom::OwnerOrOperator,
        _ => sender_of(word),
    }
}

/// Whether a session is one of the operator's.
pub fn is_operator(session: u32) -> bool
    ensures { result ≡ is_operator session }
{
    session >= 1 && session <= LAST_OPERATOR
}

/// Whether a session is among those to whom a line is allowed; `owns` says whether it owns the
/// account that the line names.
pub fn is_among(whom: Whom, session: u32, owns: bool) -> bool
    ensures { result ≡ is_among whom session owns }
{
    match whom {
        Whom::Operator => is_operator(session),
        Whom::Owner => owns,
        Whom::OwnerOrOperator => owns || is_operator(session),
        Whom::All => true,
        Whom::Nobody => false,
    }
}

// The word of an order for one option.
fn side_word(side: Side) -> LineWord
    ensures { result ≡ side_word side }
{
    match side {
        Side::Buy => LineWord::Buy,
        Side::Sell => LineWord::Sell,
    }
}

fn command_word(command: &Command) -> LineWord
    ensures { result ≡ command_word command.now }
{
    match command {
        Command::Open { .. } => LineWord::Open,
        Command::Deposit { .. } => LineWord::Deposit,
        Command::Withdraw { .. } => LineWord::Withdraw,
        Command::Market { .. } => LineWord::Market,
        Command::Trade { side, .. } => side_word(*side),
        Command::Bundle { .. } => LineWord::Bundle,
        Command::Cancel { .. } => LineWord::Cancel,
        Command::Clear { .. } => LineWord::Clear,
        Command::Settle { .. } => LineWord::Settle,
        Command::Balance { .. } => LineWord::Balance,
    }
}

/// The word of the line that asks this.
pub fn word_of(request: &Request) -> LineWord
    ensures { result ≡ word_of request.now }
{
    match request {
        Request::Command(command) => command_word(command),
        Request::Quote(_) => LineWord::Quote,
        Request::Price(_) => LineWord::Price,
        Request::Try(_) => LineWord::Try,
        Request::Margin(_) => LineWord::Margin,
        Request::Book { .. } => LineWord::Book,
        Request::Positions { .. } => LineWord::Positions,
        Request::Secure { .. } => LineWord::Secure,
        Request::Need { .. } => LineWord::Need,
        Request::Close { .. } => LineWord::Close,
        Request::Reopen { .. } => LineWord::Reopen,
        Request::Propose(_) => LineWord::Propose,
    }
}

fn command_account(command: &Command) -> Option<u32>
    ensures { result ≡ command_account command.now }
{
    match command {
        Command::Open { account } => Some(*account),
        Command::Deposit { account, .. } => Some(*account),
        Command::Withdraw { account, .. } => Some(*account),
        Command::Market { .. } => None,
        Command::Trade { account, .. } => Some(*account),
        Command::Bundle { account, .. } => Some(*account),
        Command::Cancel { account, .. } => Some(*account),
        Command::Clear { .. } => None,
        Command::Settle { .. } => None,
        Command::Balance { account } => Some(*account),
    }
}

/// The account that a line names.
pub fn account_of(request: &Request) -> Option<u32>
    ensures { result ≡ account_of request.now }
{
    match request {
        Request::Command(command) => command_account(command),
        Request::Quote(_) => None,
        Request::Price(_) => None,
        Request::Try(_) => None,
        Request::Margin(margin) => Some(margin.account),
        Request::Book { .. } => None,
        Request::Positions { account, .. } => Some(*account),
        Request::Secure { account } => Some(*account),
        Request::Need { account } => Some(*account),
        Request::Close { .. } => None,
        Request::Reopen { .. } => None,
        Request::Propose(_) => None,
    }
}
