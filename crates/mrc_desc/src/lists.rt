//! The lists that an argument has.

ghost use Rattle.std.specs.Prelude.{◌≡◌, ◌↔◌, IfOk, IsTrue};

use std::alloc::{AllocError, Global};
use std::marker::Model;

/// The bytes of an argument's data.
#[derive(Debug, Drop)]
pub struct Bytes {
    bytes: Vec<u8>,
}

impl Model for Bytes {
    ghost use Rattle.std.specs.Prelude.{List, ℕ};

    ghost Value = { List ℕ };

    ghost view = { λ a. a.bytes.items };
}

impl From<Vec<u8>> for Bytes {
    ghost from_gives = { λ v a. a ≡ v.items };

    fn from(bytes: Vec<u8>) -> Bytes {
        Bytes { bytes }
    }
}

impl Bytes {
    /// The bytes in order.
    pub fn as_slice(&self) -> &[u8]
        ensures { result.now ≡ self.now }
    {
        &self.bytes
    }

    /// The bytes by themselves.
    pub fn into_vec(self) -> Vec<u8>
        ensures { result.items ≡ self }
    {
        let Bytes { bytes } = self;
        bytes
    }

    /// The same bytes once more.
    pub fn copy(&self, alloc: Global) -> Result<Bytes, AllocError>
        ensures { IfOk result (λ copy. copy ≡ self.now) }
    {
        Ok(Bytes::from(Vec::from_slice(alloc, self.as_slice())?))
    }

    /// Whether the bytes are the same.
    pub fn same(&self, other: &Bytes) -> bool
        ensures { IsTrue result ↔ (self.now ≡ other.now) }
    {
        self.bytes.as_slice() == other.bytes.as_slice()
    }
}

/// The names of an argument's port rights, as the task has them.
#[derive(Debug, Drop)]
pub struct Names {
    names: Vec<u32>,
}

impl Model for Names {
    ghost use Rattle.std.specs.Prelude.{List, ℕ};

    ghost Value = { List ℕ };

    ghost view = { λ a. a.names.items };
}

impl From<Vec<u32>> for Names {
    ghost from_gives = { λ v a. a ≡ v.items };

    fn from(names: Vec<u32>) -> Names {
        Names { names }
    }
}

impl Names {
    /// The names in order.
    pub fn as_slice(&self) -> &[u32]
        ensures { result.now ≡ self.now }
    {
        &self.names
    }

    /// The names by themselves.
    pub fn into_vec(self) -> Vec<u32>
        ensures { result.items ≡ self }
    {
        let Names { names } = self;
        names
    }

    /// The same names once more.
    pub fn copy(&self, alloc: Global) -> Result<Names, AllocError>
        ensures { IfOk result (λ copy. copy ≡ self.now) }
    {
        Ok(Names::from(Vec::from_slice(alloc, self.as_slice())?))
    }

    /// Whether the names are the same.
    pub fn same(&self, other: &Names) -> bool
        ensures { IsTrue result ↔ (self.now ≡ other.now) }
    {
        self.names.as_slice() == other.names.as_slice()
    }
}
