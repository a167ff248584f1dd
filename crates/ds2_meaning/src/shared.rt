//! A typed unit with several owners.
ghost use Rattle.std.specs.Prelude.{◌≡◌, IfOk};
ghost use Rattle.std.specs.Arc.{arc_value};

use ds2_base::OutOfMemory;
use std::alloc::Global;
use std::marker::Model;
use std::sync::Arc;

/// A value that has several owners: a package and its instances, a thread program and those that read from it. A contract sees
/// the value.
#[derive(Drop)]
pub struct Shared<T> {
    value: Arc<T, Global>,
}

impl<T> Model for Shared<T> {
    ghost use Rattle.std.specs.Arc.{arc_value};

    ghost Value = { T };

    ghost coded = { T.code };

    ghost view = { λ s. arc_value s.value };
}

impl<T: Drop> Shared<T> {
    /// A value with one owner.
    pub fn new(alloc: Global, value: T) -> Result<Self, OutOfMemory>
        ensures { IfOk result (λ s. s ≡ value) }
    {
        let value = Arc::new(alloc, value)?;
        Ok(Shared { value })
    }

    /// The value.
    pub fn get(&self) -> &T
        ensures { result.now ≡ self.now }
    {
        &*self.value
    }

    /// One owner more. Takes no memory, and is refused only at the bound on owners.
    pub fn share(&self) -> Result<Self, OutOfMemory>
        ensures { IfOk result (λ s. s ≡ self.now) }
    {
        let value = Arc::try_clone(&self.value)?;
        Ok(Shared { value })
    }

    /// What the owners share, as the standard library has it.
    pub fn into_arc(self) -> Arc<T, Global>
        ensures { arc_value result ≡ self }
    {
        self.value
    }
}
