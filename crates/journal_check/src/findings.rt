//! What is found of one line.
ghost use Rattle.std.specs.Prelude.{◌≡◌, ◌≢◌, ◌≤◌, IfOk, length};
ghost use Rattle.journal_check.specs.Findings.{bounded_finding as bounded_is, cleared_finding as cleared_is, fault_finding as fault_is, is_marked as is_marked_by, no_reason as reason_is, reply_finding as reply_is};
ghost use Rattle.reply_print.specs.Within.{IsBatchWithin, IsReplyWithin};
ghost use Rattle.frac.specs.Range.{limit};
ghost use Rattle.frac.specs.Value.{fraction_of};
ghost use Rattle.cert_check.specs.Events.{verdict_of};
ghost use Rattle.proposal_check.specs.Proposals.{bounded_verdict_of};
ghost use Rattle.sign_tree.specs.Legs.{leg_count};

use crate::Reason;
use cert_check::{FailedCondition, Mark, Outcome, Verdict, verdict};
use form::{Batch, Order};
use frac::Frac128;
use proposal_check::{Proposal, bounded_verdict};
use reply_text::{LineFault, Reply};
use std::alloc::{AllocError, Global};

/// What a line is found to be.
#[derive(Clone, Copy, Debug, PartialEq, Eq)]
pub enum Finding {
    /// A sound reply on no batch.
    Plain,
    /// A cleared batch whose verdict is yes, and whether it is marked optimal.
    Cleared { optimal: bool },
    /// A cleared batch that is marked bounded, whose judgement is yes. `check` finds none.
    Bounded,
    /// No sound reply.
    Faulty(Reason),
}

// The condition that is not met, as a reason.
fn no_reason(no: FailedCondition) -> Reason
    ensures { result ≡ reason_is no }
{
    match no {
        FailedCondition::BatchShape => Reason::BatchShape,
        FailedCondition::Fill => Reason::Fill,
        FailedCondition::Cover => Reason::Cover,
        FailedCondition::Measure => Reason::Measure,
        FailedCondition::Bound => Reason::Bound,
    }
}

fn is_marked(mark: &Mark) -> bool
    ensures { result ≡ is_marked_by mark.now }
{
    match mark {
        Mark::Optimal { .. } => true,
        Mark::Wide(_) | Mark::Budget => false,
    }
}

fn judgement_finding(judgement: Verdict, mark: &Mark) -> Finding
    ensures { result ≡ cleared_is judgement mark.now }
{
    match judgement {
        Verdict::Yes => Finding::Cleared {
            optimal: is_marked(mark),
        },
        Verdict::No(no) => Finding::Faulty(no_reason(no)),
        Verdict::Wide(_) => Finding::Faulty(Reason::Wide),
    }
}

fn bounded_judgement(judgement: Verdict) -> Finding
    ensures { result ≡ bounded_is judgement }
{
    match judgement {
        Verdict::Yes => Finding::Bounded,
        Verdict::No(no) => Finding::Faulty(no_reason(no)),
        Verdict::Wide(_) => Finding::Faulty(Reason::Wide),
    }
}

// How many legs the orders of a batch have.
fn leg_count(orders: &[Order]) -> usize
    requires { length orders.now ≤ 256 }
    ensures count { result ≡ leg_count orders.now }
    ensures few { result ≤ 1024 }
{
    let mut count = 0;
    for order in orders {
        count += usize::from(order.bundle.size);
    }
    count
}

// Judges a cleared batch by the verdict.
fn cleared_finding(alloc: Global, batch: &Batch, outcome: &Outcome) -> Result<Finding, AllocError>
    requires { IsBatchWithin batch.now }
    ensures { IfOk result (λ f. f
        ≡ cleared_is (verdict_of limit batch.now outcome.now) outcome.now.mark) }
{
    let mut signs = vec![in alloc; 0; leg_count(batch.orders.as_slice())]?;
    Ok(judgement_finding(verdict(batch, outcome, &mut signs), &outcome.mark))
}

/// What a cleared batch that is marked bounded is found to be, by the judgement of its proposal and
/// of the bound that is told. The only error is want of memory.
pub fn bounded_finding(
    alloc: Global,
    batch: &Batch,
    proposal: &Proposal,
    bound: &Frac128,
) -> Result<Finding, AllocError>
    requires { IsBatchWithin batch.now }
    ensures { IfOk result (λ f. f
        ≡ bounded_is (bounded_verdict_of limit batch.now proposal.now (fraction_of bound.now))) }
{
    let mut signs = vec![in alloc; 0; leg_count(batch.orders.as_slice())]?;
    let judgement = bounded_verdict(alloc, batch, proposal, bound, &mut signs)?;
    Ok(bounded_judgement(judgement))
}

/// What a reply within its ranges is found to be. The only error is want of memory.
pub fn reply_finding(alloc: Global, reply: &Reply) -> Result<Finding, AllocError>
    requires { IsReplyWithin reply.now }
    ensures { IfOk result (λ f. f ≡ reply_is reply.now) }
{
    match reply {
        Reply::Cleared { batch, outcome, .. } => cleared_finding(alloc, batch, outcome),
        _ => Ok(Finding::Plain),
    }
}

/// A line that fails a test of reading; want of memory is an error.
pub fn fault_finding(fault: LineFault) -> Result<Finding, AllocError>
    ensures value { IfOk result (λ f. f ≡ fault_is fault) }
    ensures no_memory { IfOk result (λ f. fault ≢ LineFault.Memory) }
{
    match fault {
        LineFault::NotJson => Ok(Finding::Faulty(Reason::NotJson)),
        LineFault::Shape => Ok(Finding::Faulty(Reason::Shape)),
        LineFault::Number => Ok(Finding::Faulty(Reason::Number)),
        LineFault::Range => Ok(Finding::Faulty(Reason::Range)),
        LineFault::Spelling => Ok(Finding::Faulty(Reason::Spelling)),
        LineFault::Memory => Err(AllocError),
    }
}
