//! A bundle on the heap.

use form::Bundle;
use std::alloc::{AllocError, Global};
use std::fmt;
use std::marker::Model;

/// A bundle on the heap, which contracts see as the bundle, so that a command takes no more room
/// than the numbers of a trade.
#[derive(Drop)]
pub struct BoxedBundle {
    bundle: Box<Bundle>,
}

impl Model for BoxedBundle {
    ghost use Rattle.form.specs.declared.bundles.Bundle.{Bundle};

    ghost Value = { Bundle };

    ghost view = { λ boxed. boxed.bundle.value };
}

impl BoxedBundle {
    ghost use Rattle.std.specs.Prelude.{◌≡◌, IfOk};

    /// Puts a bundle on the heap. The only error is want of memory.
    pub fn new(alloc: Global, bundle: Bundle) -> Result<Self, AllocError>
        ensures { IfOk result (λ boxed. boxed ≡ bundle) }
    {
        Ok(BoxedBundle {
            bundle: Box::new(alloc, bundle)?,
        })
    }

    /// The bundle. Takes no memory.
    pub fn get(&self) -> &Bundle
        ensures { result.now ≡ self.now }
    {
        &self.bundle
    }
}

impl fmt::Debug for BoxedBundle {
    fn fmt<W: fmt::Write>(&self, f: &mut fmt::Formatter<W>) -> fmt::Result {
        fmt::Debug::fmt(self.get(), f)
    }
}
