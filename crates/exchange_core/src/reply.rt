ghost use Rattle.std.specs.Prelude.{◌≡◌};
ghost use Rattle.exchange_core.specs.Reply.{refused_with};

use crate::Refusal;
use reply_print::Reply;

impl Refusal {
    /// The reply to a line that is refused.
    pub fn reply(self) -> Reply
        ensures { result ≡ refused_with self }
    {
        Reply::Refused {
            number: self.number(),
            field: self.field(),
        }
    }
}
