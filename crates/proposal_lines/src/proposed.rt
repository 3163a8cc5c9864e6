//! Lines that propose fills for a market.
ghost use Rattle.std.specs.Prelude.{◌≡◌, ◌≤◌, IfOk, length};
ghost use Rattle.proposal_lines.specs.Proposed.{for_market, proposed_of};

use command_text::ProposeRequest;
use command_text::asked::Fault;
use proposal_text::{Submission, read_submission};
use std::alloc::{AllocError, Global};

/// What is proposed for a market, as it is read: the number of the market is within its range.
#[derive(Debug, Drop)]
pub struct Proposed {
    pub market: u32,
    pub submission: Submission,
}

// A proposal for a market, which may be out of its range.
fn for_market(market: Option<u32>, submission: Submission) -> Result<Proposed, Fault>
    ensures { result ≡ for_market market submission }
{
    match market {
        Some(market) => Ok(Proposed { market, submission }),
        None => Err(Fault::Range { field: 2 }),
    }
}

// What a line proposes by such a request.
pub(crate) fn proposed_of(
    alloc: Global,
    line: &[u8],
    request: ProposeRequest,
) -> Result<Result<Proposed, Fault>, AllocError>
    requires { request.from ≤ length line.now }
    ensures { IfOk result (λ said. said ≡ proposed_of line.now request) }
{
    match read_submission(alloc, &line[request.from..])? {
        Some(submission) => Ok(for_market(request.market, submission)),
        None => Ok(Err(Fault::Syntax)),
    }
}
