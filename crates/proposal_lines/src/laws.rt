//! Laws over the definitions: each is the contract of a function that does nothing.
ghost use Rattle.proposal_lines.specs.LaterClears.{ProposalsLowerNothing};
ghost use Rattle.proposal_lines.specs.LettingGo.{EndsLetGo};
ghost use Rattle.proposal_lines.specs.Laws.{ClearsAreAtLeast, ClearsAreProved, RefusedChangeNothing};
ghost use Rattle.proposal_lines.specs.Promises.{OutputsTellProposals, WithoutProposals};
ghost use Rattle.proposal_lines.specs.UsesBest.{BestIsUsed};

/// In each state that an exchange which takes proposals may be in: what is charged in place of the
/// reference run's outcome proves its bound for the batch, so its fills cover its surplus at every
/// settlement and no fractional fills cover more than the bound; the run stopped, and the surplus
/// is at least that of the match. Where nothing takes its place and the run stopped, nothing is
/// kept that counts.
pub fn clears_are_proved()
    ensures { ClearsAreProved }
{}

/// The surplus that a clear tells is never below that of the reference run.
pub fn clears_are_at_least()
    ensures { ClearsAreAtLeast }
{}

/// A proposal, whatever it says, leaves the exchange as it is, and lowers the surplus of no clear
/// that comes next, nor of a later one, of whatever market, while the lines between them do not
/// clear the proposal's market and leave its live orders as they are.
pub fn proposals_lower_nothing()
    ensures { ProposalsLowerNothing }
{}

/// The best proposal is used. After a proposal that is taken, the next clear of its market tells at
/// least its surplus and at most its bound, whatever the budget, and where it is marked bounded no
/// bound above that one, whatever lines come between, for as long as the market's live orders stay.
pub fn best_is_used()
    ensures { BestIsUsed }
{}

/// A clear and a settlement let go of what is kept for their market, and of nothing else.
pub fn ends_let_go()
    ensures { EndsLetGo }
{}

/// A line that proposes and is refused, stale or unproved changes nothing: neither the exchange nor
/// what is kept.
pub fn refused_change_nothing()
    ensures { RefusedChangeNothing }
{}

/// What is written for an input is the text of the answers to its lines, each of which keeps what
/// is promised: a run's, batches that were cleared as proposals had it, proposals that were judged
/// a bound with just the numbers that are told, and texts beside them that change nothing. Each
/// such proposal is used. A batch that is not marked optimal nor told with a bound is matched where
/// nothing is kept that counts. Quotes and prices are those from which on a further order raises
/// the greatest surplus, and a trial is what a clear with the order tells. The answers leave the
/// house its gains: of each batch at least the surplus that is told, batches that were told with a
/// bound among them.
pub fn outputs_tell_proposals()
    ensures { OutputsTellProposals }
{}

/// Where no line proposes, what is written is what an exchange writes that takes no proposals; a
/// line that reads a book or positions is told what it asks for.
pub fn without_proposals()
    ensures { WithoutProposals }
{}
