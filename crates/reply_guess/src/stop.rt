// Why a line is not read on.
use std::alloc::AllocError;

// Why a line is not read on.
#[derive(Clone, Copy)]
pub(crate) enum Unread {
    // No reply is printed like it, or it is of the rare ones that are left to the other reader.
    Unlike,
    // Memory is wanting.
    Memory,
}

impl From<AllocError> for Unread {
    fn from(_: AllocError) -> Self {
        Unread::Memory
    }
}
