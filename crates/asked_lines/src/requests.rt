// Which lines may be asked. A line that is added has its row here, or nothing compiles.
ghost use Rattle.std.specs.Prelude.{◌≡◌};
ghost use Rattle.asked_lines.specs.Requests.{may_be_asked};

use command_text::{Command, Request};

/// Whether a line that says this may be asked: it tells something and changes nothing.
pub fn may_be_asked(request: &Request) -> bool
    ensures { result ≡ may_be_asked request.now }
{
    match request {
        Request::Command(command) => matches!(command, Command::Balance { .. }),
        Request::Quote(_) | Request::Price(_) | Request::Try(_) | Request::Margin(_) => true,
        Request::Book { .. } | Request::Positions { .. } | Request::Need { .. } => true,
        Request::Secure { .. } | Request::Close { .. } | Request::Reopen { .. } => false,
        Request::Propose(_) => false,
    }
}
