//! The words with which lines begin. A new line is a variant here with its text, a place in the
//! lists of the program's words that take it, and what its fields say.
ghost use Rattle.std.specs.Prelude.{◌≡◌};
ghost use Rattle.std.specs.List.{list_any};
ghost use Rattle.command_text.specs.Words.{is_propose, word_among, word_text};

use LineWord::{
    Balance, Book, Bundle, Buy, Cancel, Clear, Close, Deposit, Margin, Market, Need, Open,
    Positions, Price, Propose, Quote, Reopen, Secure, Sell, Settle, Try, Withdraw,
};

/// The word of a line.
#[derive(Clone, Copy, Debug, PartialEq, Eq)]
pub enum LineWord {
    Open,
    Deposit,
    Withdraw,
    Market,
    Buy,
    Sell,
    Bundle,
    Cancel,
    Clear,
    Settle,
    Balance,
    Quote,
    Price,
    Try,
    Margin,
    Book,
    Positions,
    Secure,
    Need,
    Close,
    Reopen,
    Propose,
}

/// The words of lines that `run` takes: those of commands.
pub const RUN: [LineWord; 11] = [
    Open, Deposit, Withdraw, Market, Buy, Sell, Bundle, Cancel, Clear, Settle, Balance,
];

/// Those that `quotes` takes.
pub const QUOTES: [LineWord; 12] = [
    Open, Deposit, Withdraw, Market, Buy, Sell, Bundle, Cancel, Clear, Settle, Balance, Quote,
];

/// Those that `guarded` takes.
pub const GUARDED: [LineWord; 12] = [
    Open, Deposit, Withdraw, Market, Buy, Sell, Bundle, Cancel, Clear, Settle, Balance, Margin,
];

/// Those that `serve` takes.
pub const SERVED: [LineWord; 22] = [
    Open, Deposit, Withdraw, Market, Buy, Sell, Bundle, Cancel, Clear, Settle, Balance, Quote,
    Price, Try, Margin, Book, Positions, Secure, Need, Close, Reopen, Propose,
];

impl LineWord {
    /// The bytes of the word.
    pub fn text(self) -> &'static [u8]
        ensures { result.now ≡ word_text self }
    {
        match self {
            Open => b"open",
            Deposit => b"deposit",
            Withdraw => b"withdraw",
            Market => b"market",
            Buy => b"buy",
            Sell => b"sell",
            Bundle => b"bundle",
            Cancel => b"cancel",
            Clear => b"clear",
            Settle => b"settle",
            Balance => b"balance",
            Quote => b"quote",
            Price => b"price",
            Try => b"try",
            Margin => b"margin",
            Book => b"book",
            Positions => b"positions",
            Secure => b"secure",
            Need => b"need",
            Close => b"close",
            Reopen => b"reopen",
            Propose => b"propose",
        }
    }

    // Whether it is that of a line that is no list of fields.
    fn is_propose(self) -> bool
        ensures { result ≡ is_propose self }
    {
        matches!(self, Propose)
    }
}

// The word among these that a text is.
pub(crate) fn word_among(words: &[LineWord], text: &[u8]) -> Option<LineWord>
    ensures { result ≡ word_among words.now text.now }
{
    for word in words {
        if text == word.text() {
            return Some(*word);
        }
    }
    None
}

// Whether a line with a proposal is among those with these words.
pub(crate) fn takes_proposals(words: &[LineWord]) -> bool
    ensures { result ≡ list_any is_propose words.now }
{
    words.iter().any(|word| word.is_propose())
}
