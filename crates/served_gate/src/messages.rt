// Messages to a gate and a server.
ghost use Rattle.std.specs.Prelude.{◌≡◌, ◌≢◌, ◌+◌, ◌≤◌, ◌<◌, ◌⊎◌, ◌++◌, [], ◌∷◌, true, false, length, IfOk, OnOk, OnErr, IsTrue};
ghost use Rattle.limits.specs.declared.TheConstants.{MAX_LINES};
ghost use Rattle.session_gate.specs.declared.answer.Answer.TheVariants as answer;
ghost use Rattle.session_gate.specs.Bodies.{is_body};
ghost use Rattle.session_gate.specs.Gate.{IsSession, IsNumber, message_of};
ghost use Rattle.session_gate.specs.Answers.{answer_to};
ghost use Rattle.session_gate.specs.Runs.{with_bodies, after_served, after};

use crate::server::Server;
use session_gate::{Answer, Gate};
use std::alloc::AllocError;

// Has a message served, and keeps it.
fn take<V: Server>(
    gate: &mut Gate,
    server: &mut V,
    session: u32,
    number: u32,
    body: &[u8],
) -> Result<(), AllocError>
    requires fresh { V.spent server.old ≡ false }
    requires same { length (V.bodies server.old) ≡ gate.old.state.served }
    requires few { gate.old.state.served < MAX_LINES }
    requires number { IsNumber number }
    requires body { IsTrue (is_body body.now) }
    ensures gate { OnOk result (gate.new.state
        ≡ (after_served V.reply (with_bodies gate.old.state (V.bodies server.old))
        (message_of session number body.now)).gate) }
    ensures bodies { OnOk result (V.bodies server.new ≡ V.bodies server.old ++ body.now ∷ []) }
    ensures fresh { OnOk result (V.spent server.new ≡ false) }
    ensures err { OnErr result (gate.new.state ≡ gate.old.state) }
    ensures server { OnErr result ((server.new ≡ server.old) ⊎ (V.spent server.new ≡ true)) }
    ensures took_or_not { OnErr result ((V.bodies server.new ≡ V.bodies server.old)
        ⊎ (V.bodies server.new ≡ V.bodies server.old ++ body.now ∷ [])) }
{
    let kept = gate.reserve(body)?;
    let reply = server.serve(body, gate.served() + 1)?;
    gate.keep(session, number, kept, reply);
    Ok(())
}

/// Answers a message: `First` where its number is the next one of its session. The server then took
/// the body, as its next line, and the gate keeps number, body and reply. At all other answers gate
/// and server are as they were.
///
/// The answer is the first of these: `Ahead` where the number is above the expected one; `Old`
/// where it is below the one accepted last; `Repeat` where number and body are those accepted last;
/// `Changed` where the number is, and the body is not; `Sessions` where the session is not known
/// and 10,000 are; `First` otherwise.
///
/// `AllocError` where memory is wanting, at a message whose answer would be `First`. The gate is
/// then as it was, and the server as it was or spent.
pub fn accept<V: Server>(
    gate: &mut Gate,
    server: &mut V,
    session: u32,
    number: u32,
    body: &[u8],
) -> Result<Answer, AllocError>
    requires fresh { V.spent server.old ≡ false }
    requires same { length (V.bodies server.old) ≡ gate.old.state.served }
    requires few { gate.old.state.served < MAX_LINES }
    requires session { IsSession session }
    requires number { IsNumber number }
    requires body { IsTrue (is_body body.now) }
    ensures answer { IfOk result
        (λ given. given ≡ answer_to gate.old.state (message_of session number body.now)) }

    // Gate and bodies are as the definition has them, and only a First changes anything.
    ensures gate { OnOk result (gate.new.state
        ≡ (after V.reply (with_bodies gate.old.state (V.bodies server.old))
        (message_of session number body.now)).gate) }
    ensures bodies { OnOk result (V.bodies server.new
        ≡ (after V.reply (with_bodies gate.old.state (V.bodies server.old))
        (message_of session number body.now)).bodies) }
    ensures fresh { OnOk result (V.spent server.new ≡ false) }
    ensures same { OnOk result (length (V.bodies server.new) ≡ gate.new.state.served) }
    ensures count { OnOk result (gate.new.state.served ≤ gate.old.state.served + 1) }
    ensures others { IfOk result (λ given. given ≢ answer.First
        → (gate.new ≡ gate.old) × (server.new ≡ server.old)) }

    // Where memory is wanting.
    ensures only_first { OnErr result
        (answer_to gate.old.state (message_of session number body.now) ≡ answer.First) }
    ensures err { OnErr result (gate.new.state ≡ gate.old.state) }
    ensures server { OnErr result ((server.new ≡ server.old) ⊎ (V.spent server.new ≡ true)) }
    ensures took_or_not { OnErr result ((V.bodies server.new ≡ V.bodies server.old)
        ⊎ (V.bodies server.new ≡ V.bodies server.old ++ body.now ∷ [])) }
{
    let answer = gate.answer(session, number, body);
    if matches!(answer, Answer::First) {
        take(gate, server, session, number, body)?;
    }
    Ok(answer)
}
