// A handle on what several hold.
ghost use Rattle.std.specs.Prelude.{◌≡◌, IfOk, OnOk, OnErr};

use std::alloc::{AllocError, Global};
use std::marker::Model;
use std::sync::Arc;

/// A counted handle on a value that its holders only read. Contracts see it as the value, so that to
/// copy a handle is to copy what it holds.
#[derive(Drop)]
pub struct Shared<T> {
    inner: Arc<T>,
}

impl<T> Model for Shared<T> {
    ghost Value = { T };

    ghost coded = { T.code };

    ghost view = { λ b. b.inner.value };
}

impl<T> Shared<T> {
    pub fn get(&self) -> &T
        ensures { result.now ≡ self.now }
    {
        &self.inner
    }

    /// Another handle on the same value. The error is that the count is full.
    pub fn try_clone(&self) -> Result<Shared<T>, AllocError>
        ensures { IfOk result (λ b. b ≡ self.now) }
    {
        let inner = Arc::try_clone(&self.inner)?;
        Ok(Shared { inner })
    }
}

impl<T: Drop> Shared<T> {
    pub fn new(alloc: Global, value: T) -> Result<Shared<T>, AllocError>
        ensures { IfOk result (λ b. b ≡ value) }
    {
        let inner = Arc::new(alloc, value)?;
        Ok(Shared { inner })
    }

    /// Another value in this handle alone; whoever else holds the old one keeps it.
    pub fn set(&mut self, alloc: Global, value: T) -> Result<(), AllocError>
        ensures ok { OnOk result (self.new ≡ value) }
        ensures err { OnErr result (self.new ≡ self.old) }
    {
        self.inner = Arc::new(alloc, value)?;
        Ok(())
    }
}
