//! The numbers of modules.

ghost use Rattle.std.specs.Prelude.{◌≡◌};

use std::fmt;
use std::marker::Model;

/// The number of a module. Clauses see the number.
#[derive(Clone, Copy, PartialEq, Eq, PartialOrd, Ord, Hash)]
pub struct ModuleId(u32);

impl Model for ModuleId {
    ghost use Rattle.std.specs.Prelude.{ℕ};

    ghost Value = { ℕ };

    ghost view = { λ id. id.0 };

    ghost inverse = { λ n. record { 0 = n } };
}

impl ModuleId {
    /// The module with this number.
    pub fn from_u32(number: u32) -> ModuleId
        ensures { result ≡ number }
    {
        ModuleId(number)
    }

    /// The number of this module.
    pub fn as_u32(self) -> u32
        ensures { result ≡ self }
    {
        self.0
    }
}

impl fmt::Display for ModuleId {
    ghost use Rattle.std.specs.Prelude.{Some};
    ghost use Rattle.std.specs.Fmt.{decimal};

    ghost output = { λ id. Some (decimal id) };

    fn fmt<W: fmt::Write>(&self, f: &mut fmt::Formatter<W>) -> fmt::Result {
        let number = self.0;
        write!(f, "{number}")
    }
}

impl fmt::Debug for ModuleId {
    fn fmt<W: fmt::Write>(&self, f: &mut fmt::Formatter<W>) -> fmt::Result {
        let number = self.0;
        write!(f, "ModuleId({number})")
    }
}
