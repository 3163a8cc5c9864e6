//! The lines by which a gate refuses messages.

/// Why a message is refused whose session goes on with another.
#[derive(Clone, Copy, Debug, PartialEq, Eq)]
pub enum Why {
    /// The number is below the last accepted one.
    Old,
    /// The number is above the next one.
    Ahead,
    /// The number is the last accepted one, with another body.
    Changed,
}

/// What a gate refuses.
#[derive(Clone, Copy, Debug, PartialEq, Eq)]
pub enum GateLine {
    /// The line is no message.
    Malformed,
    /// The message would make one session too many.
    Sessions {
        session: u32,
    },
    /// The session goes on with the expected number.
    Expecting {
        session: u32,
        expected: u32,
        why: Why,
    },
}
