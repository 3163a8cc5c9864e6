// Why a call ended early.
ghost use Rattle.std.specs.Prelude.{◌≡◌};
ghost use Rattle.byte_streams.specs.declared.stop.IoStop.TheVariants.{Memory};

use std::alloc::AllocError;
use thiserror::Error;

/// Why not all was read, answered and written.
#[derive(Clone, Copy, Debug, PartialEq, Eq, Error)]
pub enum IoStop {
    /// A read failed.
    #[error("read fault")]
    ReadFault,
    /// A write failed.
    #[error("write fault")]
    WriteFault,
    /// The input, or a line of it, is past its limit.
    #[error("input too long")]
    TooLong,
    /// There was no memory.
    #[error("out of memory")]
    Memory,
}

impl From<AllocError> for IoStop {
    ghost from_gives = { λ _ e. e ≡ Memory };

    fn from(_: AllocError) -> Self {
        IoStop::Memory
    }
}
