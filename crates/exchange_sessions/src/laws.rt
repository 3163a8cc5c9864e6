//! Laws over the answers to any input: each is the contract of a function that does nothing.

ghost use Rattle.exchange_sessions.specs.AllLines.{SessionsTellOnce};
ghost use Rattle.exchange_sessions.specs.Laws.{OutputTellsOnce};
ghost use Rattle.exchange_sessions.specs.Members.{MembersTellBeside};

/// What is written for an input tells each message once. It is the text of the answers to its
/// lines; the exchange takes the bodies of the messages that are answered First, in order, and
/// these have, session by session, the numbers 1, 2, 3 and so on, each once; the replies told to
/// them are the output of their bodies as one input of lines, and keep what is promised of the
/// output of a run; and a message that is answered Repeat was answered First before, with the same
/// reply.
pub fn output_tells_once()
    ensures { OutputTellsOnce }
{}

/// Where the bodies are lines of any kind, answered between two reads, what is written tells each
/// message once: those that are answered First have, session by session, the numbers 1, 2, 3 and so
/// on, their replies are the output of their bodies as one input of all lines, which keeps what is
/// promised of it, and a message that is answered Repeat was answered First before, with the same
/// reply. So it is of the messages among lines of which some ask, and asking changes nothing.
pub fn sessions_tell_once()
    ensures { SessionsTellOnce }
{}

/// Where the rule says who may say what, each message is told once likewise, by the answers to the
/// bodies of those that are answered First, each by its session. What these moved they moved by the
/// rule. An account keeps its owner, which is the session that opened it, each session is within its
/// part, of an account others are told nothing, a closed market stands still, and each account of a
/// session that is not the operator's is secured.
pub fn members_tell_once()
    ensures { MembersTellBeside }
{}
