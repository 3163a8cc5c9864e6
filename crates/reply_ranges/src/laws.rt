//! Laws of what is written, and of the journals that it is: each is the contract of a function that
//! does nothing.
ghost use Rattle.reply_ranges.specs.Accepted.{AnswersAreWithin, RunsAreAccepted};
ghost use Rattle.reply_ranges.specs.Audits.{ServedLinesAreAccepted, ServedMembersAreAccepted, ServedMessagesAreAccepted};
ghost use Rattle.reply_ranges.specs.Books.{BooksAreProposedFor, BooksAreTold};
ghost use Rattle.reply_ranges.specs.Laws.{FieldsAreWithin, OutcomesAreRanged, RepliesAreWithin};

/// Whatever its bytes are, a line that is refused for a number tells of a field from 2 to 51.
pub fn fields_are_within()
    ensures { FieldsAreWithin }
{}

/// Each outcome, within a budget that a command may give, is within the ranges of a cleared line:
/// its units; the places of its tree; the entries of its measure's states; and the operands of a
/// step that did not fit, which are in lowest terms.
pub fn outcomes_are_ranged()
    ensures { OutcomesAreRanged }
{}

/// Whatever commands come to an empty exchange, as many as a run may have lines, each reply is
/// within the ranges of its line: the numbers of accounts, markets, orders and batches; balances,
/// reserves and payouts; the batch and its outcome.
pub fn replies_are_within()
    ensures { RepliesAreWithin }
{}

/// Each line that a run writes, whatever its input, is within the ranges that the reader of lines
/// tests: the numbers of lines, accounts, markets, orders and batches, balances and amounts, units,
/// places of trees, entries of states, and operands.
pub fn answers_are_within()
    ensures { AnswersAreWithin }
{}

/// What a run writes, whatever its input, is a sound journal, with the counts of its replies.
pub fn runs_are_accepted()
    ensures { RunsAreAccepted }
{}

/// Whatever the lines of an input are, within the limits that a run keeps to which finishes, an
/// audit of what is written for them says yes: quotes, prices, margins, proposals, batches that
/// were cleared as proposals had it, what is asked between lines, and all replies of a run.
pub fn served_lines_are_accepted()
    ensures { ServedLinesAreAccepted }
{}

/// So does an audit of what is written for messages of sessions: replies to accepted messages, what
/// sessions are told that ask, and lines of the gate.
pub fn served_messages_are_accepted()
    ensures { ServedMessagesAreAccepted }
{}

/// And of what is written for messages by the rule of who may say what: its refusals among them.
pub fn served_members_are_accepted()
    ensures { ServedMembersAreAccepted }
{}

/// Whatever the lines of an input are, within the limits that a run keeps to which finishes, one
/// that asks for the live orders of a market is answered, where they are told, by a line that
/// `propose` takes as a book of just these.
pub fn books_are_told()
    ensures { BooksAreTold }
{}

/// What `propose` writes for a book is one line, as short as an exchange takes it. Wherever the
/// orders of the book are the live ones of its market, it is taken, and not refused.
pub fn books_are_proposed_for()
    ensures { BooksAreProposedFor }
{}
