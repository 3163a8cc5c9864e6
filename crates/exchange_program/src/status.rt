ghost use Rattle.std.specs.Prelude.{◌≡◌, ◌≢◌};
ghost use Rattle.exchange_program.specs.Status.{code_of, text_of};

use std::io::ErrorKind;

/// How a call of the program ended.
#[derive(Clone, Copy, Debug, PartialEq, Eq)]
pub enum Status {
    /// All was done: the replies, the summary, or the report that names no fault was written.
    Done,
    /// The words have none of the forms that the program knows.
    Usage,
    /// A read failed; nothing was written, or by `serve` and `propose` the answers to the lines
    /// that were complete.
    ReadFault,
    /// A write failed; a front of the output was written.
    WriteFault,
    /// The input is longer than the limit; nothing was written. Or a line of `serve` or `propose`
    /// is past its limit; the answers to all lines before it were written.
    TooLong,
    /// A line of the journal has a fault; the report that names it was written.
    CheckNo,
    /// There was no memory; a front of the output was written.
    Memory,
}

impl Status {
    /// How a run ends whose words were not read: a word that is no text is a faulty command line,
    /// and any other cause is want of memory.
    pub fn of_unread_words(kind: ErrorKind) -> Status
        ensures no_text { kind ≡ ErrorKind.InvalidData → result ≡ Status.Usage }
        ensures no_memory { kind ≢ ErrorKind.InvalidData → result ≡ Status.Memory }
    {
        match kind {
            ErrorKind::InvalidData => Status::Usage,
            _ => Status::Memory,
        }
    }

    /// The exit status of the program.
    pub fn code(self) -> u8
        ensures { result ≡ code_of self }
    {
        match self {
            Status::Done => 0,
            Status::Usage => 2,
            Status::ReadFault => 3,
            Status::WriteFault => 4,
            Status::TooLong => 5,
            Status::CheckNo => 6,
            Status::Memory => 70,
        }
    }

    /// What is written to standard error, without its line feed; nothing for `Done`.
    pub fn text(self) -> &'static str
        ensures { result.now ≡ text_of self }
    {
        match self {
            Status::Done => "",
            Status::Usage => "usage: exchange run, exchange check, or exchange demo SEED COUNT",
            Status::ReadFault => "read fault",
            Status::WriteFault => "write fault",
            Status::TooLong => "input too long",
            Status::CheckNo => "check failed",
            Status::Memory => "out of memory",
        }
    }
}
