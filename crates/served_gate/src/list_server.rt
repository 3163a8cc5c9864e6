//! Messages to a gate and a server that keeps what it takes.
ghost use Rattle.std.specs.Prelude.{◌≡◌, [], false, map, length, OnOk};
ghost use Rattle.std.specs.Int.{w32, to_be_bytes};
ghost use Rattle.limits.specs.declared.TheConstants.{MAX_LINES};

use crate::messages::accept;
use crate::server::Server;
use limits::{MAX_LINES, MAX_MESSAGE, MAX_SESSION};
use session_gate::{Gate, is_body};
use std::alloc::{AllocError, Global};
use std::test::Fail;

// Keeps the bodies that it took, and replies to each with its number among them.
#[derive(Drop)]
struct ListServer {
    alloc: Global,
    took: Vec<Vec<u8>>,
    is_spent: bool,
}

impl ListServer {
    // A server that took nothing.
    fn new(alloc: Global) -> Self
        ensures bodies { ⟦<ListServer as Server>⟧.bodies result ≡ [] }
        ensures fresh { ⟦<ListServer as Server>⟧.spent result ≡ false }
    {
        ListServer {
            alloc,
            took: Vec::new(alloc),
            is_spent: false,
        }
    }
}

impl Server for ListServer {
    ghost bodies = { λ s. map (λ body. body.items) s.took.items };

    ghost spent = { λ s. s.is_spent };

    ghost reply = { λ bodies. to_be_bytes w32 (length bodies) };

    fn serve(&mut self, body: &[u8], line: u32) -> Result<Vec<u8>, AllocError> {
        self.is_spent = true;
        let taken = Vec::from_slice(self.alloc, body)?;
        self.took.push(taken)?;
        let reply = Vec::from_slice(self.alloc, &line.to_be_bytes())?;
        self.is_spent = false;
        Ok(reply)
    }
}

// Messages: session, number and body; and what each is answered, with the reply that its session
// keeps then.
static MESSAGES: [(u32, u32, &str, &str); 8] = [
    (7, 1, "open,1", "First Some([0, 0, 0, 1])"),
    (8, 1, "open,2", "First Some([0, 0, 0, 2])"),
    (7, 1, "open,1", "Repeat Some([0, 0, 0, 1])"),
    (
        7,
        3,
        "balance,1",
        "Ahead { expected: 2 } Some([0, 0, 0, 1])",
    ),
    (8, 1, "open,3", "Changed { expected: 2 } Some([0, 0, 0, 2])"),
    (7, 2, "balance,2", "First Some([0, 0, 0, 3])"),
    (7, 1, "open,1", "Old { expected: 3 } Some([0, 0, 0, 3])"),
    (9, 2, "open,1", "Ahead { expected: 1 } None"),
];

// What a message is answered and the reply that its session keeps then, as text.
fn told<V: Server>(
    alloc: Global,
    gate: &mut Gate,
    server: &mut V,
    sent: (u32, u32, &str),
) -> Result<String, AllocError>
    requires fresh { V.spent server.old ≡ false }
    requires same { length (V.bodies server.old) ≡ gate.old.state.served }
    ensures fresh { OnOk result (V.spent server.new ≡ false) }
    ensures same { OnOk result (length (V.bodies server.new) ≡ gate.new.state.served) }
{
    let (session, number, body) = sent;
    let is_message = (1..=MAX_SESSION).contains(&session)
        && (1..=MAX_MESSAGE).contains(&number)
        && is_body(body.as_bytes());
    if !is_message || u64::from(gate.served()) >= MAX_LINES {
        return format!(in alloc; "no message, or one too many");
    }
    let answer = accept(gate, server, session, number, body.as_bytes())?;
    let kept = gate.kept(session);
    format!(in alloc; "{answer:?} {kept:?}")
}

// The first of the messages that is not answered as it says, by its place; their number where each
// is.
fn first_fault<V: Server>(
    alloc: Global,
    gate: &mut Gate,
    server: &mut V,
) -> Result<usize, AllocError>
    requires fresh { V.spent server.old ≡ false }
    requires same { length (V.bodies server.old) ≡ gate.old.state.served }
{
    for (place, (session, number, body, said)) in MESSAGES.iter().enumerate() {
        let sent = (*session, *number, *body);
        if told(alloc, gate, server, sent)?.as_str() != *said {
            return Ok(place);
        }
    }
    Ok(MESSAGES.len())
}

#[test]
fn each_message_takes_effect_once(rt: HostRuntime) -> Result<(), Fail> {
    let mut gate = Gate::new(rt.alloc());
    let mut server = ListServer::new(rt.alloc());
    let fault = first_fault(rt.alloc(), &mut gate, &mut server)?;
    assert_eq!(rt; fault, 8);
    Ok(())
}
