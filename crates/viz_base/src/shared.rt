//! A value that several own.

ghost use Rattle.std.specs.Prelude.{◌≡◌, IfOk, IfErr};

use std::alloc::{AllocError, Global};
use std::marker::Model;
use std::sync::Arc;

/// A value on the heap that is freed with its last owner; contracts see the value.
#[derive(Debug, Drop)]
pub struct Shared<T> {
    held: Arc<T, Global>,
}

impl<T> Model for Shared<T> {
    ghost Value = { T };

    ghost view = { λ shared. shared.held.value };
}

impl<T: Drop> Shared<T> {
    /// Holds the value. A refused call drops it.
    pub fn new(alloc: Global, value: T) -> Result<Shared<T>, AllocError>
        ensures value { IfOk result (λ shared. shared ≡ value) }
    {
        match Arc::new(alloc, value) {
            Ok(held) => Ok(Shared { held }),
            Err(_) => Err(AllocError),
        }
    }
}

impl<T> Shared<T> {
    /// Lends the value.
    pub fn get(&self) -> &T
        ensures value { result.now ≡ self.now }
    {
        &self.held
    }

    /// One owner more of the same value, which isn't copied.
    pub fn copy(&self) -> Result<Shared<T>, AllocError>
        ensures value { IfOk result (λ shared. shared ≡ self.now) }
    {
        let held = Arc::try_clone(&self.held)?;
        Ok(Shared { held })
    }

    /// The value itself, where this is its one owner, and else the owner as it was.
    pub fn try_unwrap(self) -> Result<T, Shared<T>>
        ensures ok { IfOk result (λ value. value ≡ self) }
        ensures err { IfErr result (λ shared. shared ≡ self) }
    {
        let Shared { held } = self;
        match Arc::try_unwrap(held) {
            Ok(value) => Ok(value),
            Err(held) => Err(Shared { held }),
        }
    }
}

impl<T: Drop> Clone for Shared<T> {
    ghost is_clone = { λ shared copy. copy ≡ shared };

    fn clone(&self) -> Result<Shared<T>, AllocError> {
        self.copy()
    }
}
