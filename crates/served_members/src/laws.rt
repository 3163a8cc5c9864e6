//! Laws over what sessions say: each is the contract of a function that does nothing.
ghost use Rattle.served_members.specs.Asking.{QuestionsAreTold};
ghost use Rattle.served_members.specs.Laws.{ClosedMarketsStandStill, MembersAreSecured, MembersCanPay, MembersTellOnce, MoveByRule, OwnedByOpening, SecuredByWill};
ghost use Rattle.served_members.specs.Lines.{OutputsTellServed};
ghost use Rattle.served_members.specs.Promises.{AllowedBodiesTell, AreServed, FreeLinesLowerNothing, FreeLinesTell};
ghost use Rattle.served_members.specs.Ruled.{MembersAreRuled};

/// What is asked of lines is told as the next line would be, where it may be asked.
pub fn questions_are_told()
    ensures { QuestionsAreTold }
{}

/// What is written for an input of lines keeps what is promised of it where accounts may be secured.
/// Wherever its lines are parted, a closed market stands still, and no balance of a secured account
/// is below 0 again.
pub fn outputs_tell_served()
    ensures { OutputsTellServed }
{}

/// What is written for messages tells each once: those that are answered First have, session by
/// session, the numbers 1, 2, 3 and so on, their replies are the answers to their bodies, each by
/// its session and one after another, and a message that is answered Repeat was answered First
/// before, with the same reply.
pub fn members_tell_once()
    ensures { MembersTellOnce }
{}

/// A body that the rule refuses is told so, and changes nothing, and of an account its owner is
/// told, and the operator, and no other. All other bodies are answered as where there is no rule,
/// but what members open is secured, with one that is no line in place of each that is refused.
pub fn members_are_served()
    ensures { AreServed }
{}

/// No proposal lowers what a clear of its market tells, while its live orders stay, whoever says the
/// lines.
pub fn free_lines_lower_nothing()
    ensures { FreeLinesLowerNothing }
{}

/// Whoever says the lines of an input where there is no rule, but what members open is secured,
/// what is written keeps what is promised where proposals are taken.
pub fn free_lines_tell()
    ensures { FreeLinesTell }
{}

/// So it is of what the rule lets through, as the lines of one input, with any body that is no line
/// in place of each other.
pub fn allowed_bodies_tell()
    ensures { AllowedBodiesTell }
{}

/// Whatever sessions say, what an account has changes by its owner's lines alone, and by the
/// operator's deposits, clears and settlements. It keeps its owner, and no session that is not the
/// operator's uses up what all share.
pub fn members_move_by_rule()
    ensures { MoveByRule }
{}

/// The owner of an account is the session that opened it, and no other; and only what is open has one.
pub fn owned_by_opening()
    ensures { OwnedByOpening }
{}

/// Whatever sessions say, each account of one that is not the operator's is secured, from its
/// opening; and what is secured stays so.
pub fn members_are_secured()
    ensures { MembersAreSecured }
{}

/// An account comes to be secured as its owner says so, or as a session opens it that is not the
/// operator's, and by nothing else.
pub fn secured_by_will()
    ensures { SecuredByWill }
{}

/// Whatever sessions say, the balance of each secured account is at or above its true need: so no
/// member's is below 0.
pub fn members_can_pay()
    ensures { MembersCanPay }
{}

/// From when a market is closed until the operator clears it, settles it or opens it again it is
/// closed, and its live orders stay as they are, whatever sessions say.
pub fn closed_markets_stand_still()
    ensures { ClosedMarketsStandStill }
{}

/// Of bodies that sessions say, wherever they are parted: a session that is not the operator's is
/// within its part of what all share, an account keeps its owner, which is the session that opened
/// it, what is secured stays so, a closed market stands still, and what the rule refuses is told so,
/// as is what would tell of an account whose owner the session is not.
pub fn members_are_ruled()
    ensures { MembersAreRuled }
{}
