// Why a session may not say a line.
ghost use Rattle.std.specs.Prelude.{◌≡◌};
ghost use Rattle.members.specs.Refusals.{number_of};

/// Why a session may not say a line. Both stand before what the line itself would be refused for.
#[derive(Clone, Copy, Debug, PartialEq, Eq)]
pub enum MemberRefusal {
    /// The rule does not allow it to the session.
    NotAllowed,
    /// The session has used its part of what all share.
    Quota,
}

impl MemberRefusal {
    /// The number of the refusal in a reply line.
    pub fn number(self) -> u32
        ensures { result ≡ number_of self }
    {
        match self {
            MemberRefusal::NotAllowed => 25,
            MemberRefusal::Quota => 27,
        }
    }
}
