//! What is said of an argument.

ghost use Rattle.std.specs.Prelude.{◌≡◌};

use mrc_base::Disp;
use mrc_desc::{Bytes, Names};
use std::marker::Model;

/// Numbers, one for each item of data.
#[derive(Debug, Drop)]
pub struct Numbers {
    numbers: Vec<u64>,
}

impl Model for Numbers {
    ghost use Rattle.std.specs.Prelude.{List, ℕ};

    ghost Value = { List ℕ };

    ghost view = { λ a. a.numbers.items };
}

impl From<Vec<u64>> for Numbers {
    ghost from_gives = { λ v a. a ≡ v.items };

    fn from(numbers: Vec<u64>) -> Numbers {
        Numbers { numbers }
    }
}

impl Numbers {
    /// The numbers in order.
    pub fn as_slice(&self) -> &[u64]
        ensures { result.now ≡ self.now }
    {
        &self.numbers
    }
}

/// What is said of an argument, whose form says what its items are.
#[derive(Debug, Drop)]
pub enum Value {
    /// Items of data of at most 64 bits, of the type of this number.
    Numbers { name: u16, numbers: Numbers },
    /// Larger items, or data of any kind, by their bytes in order: of the type of this number, and
    /// of so many bits.
    Raw { name: u16, size: u16, bytes: Bytes },
    /// Port rights by the sender's names for them, and the disposition of each.
    Ports { disp: Disp, names: Names },
}
