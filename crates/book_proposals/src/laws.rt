//! What the lines that are written are read as, and what becomes of them: the contracts of
//! functions that do nothing.
ghost use Rattle.book_proposals.specs.Laws.{ProposalsAreSubmissions, ProposalsAreTaken};

/// What is written for a book is one line, as short as an exchange takes it, and read as a proposal
/// for the book's market and just its orders; it is judged a bound for them.
pub fn proposals_are_submissions()
    ensures { ProposalsAreSubmissions }
{}

/// Where the market is there, an exchange refuses no proposal that is judged a bound for its live
/// orders: it is answered `proposed`.
pub fn proposals_are_taken()
    ensures { ProposalsAreTaken }
{}
