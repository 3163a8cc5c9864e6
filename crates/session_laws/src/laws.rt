//! Laws over the answers to messages: each is the contract of a function that does nothing.
ghost use Rattle.session_laws.specs.Laws.{MessagesTellOnce};

use session_lines::AnswersMessages;

/// Where each answer to a body is the text of lines, what is written tells each message once: those
/// that are answered First have, session by session, the numbers 1, 2, 3 and so on, their replies
/// are the answers to their bodies, each by its session and one after another, and a message that
/// is answered Repeat was answered First before, with the same reply.
pub fn messages_tell_once<A: AnswersMessages>()
    ensures { MessagesTellOnce A.body_step }
{}
