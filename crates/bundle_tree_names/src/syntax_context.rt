//! The contexts that keep identifiers of one symbol apart.

ghost use Rattle.std.specs.Prelude.{◌≡◌};

use std::marker::Model;

/// Tells apart identifiers of one symbol that denote different things. Clauses see its number.
#[derive(Clone, Copy, PartialEq, Eq, PartialOrd, Ord, Hash, Debug)]
pub struct SyntaxContext(u32);

impl Model for SyntaxContext {
    ghost use Rattle.std.specs.Prelude.{ℕ};

    ghost Value = { ℕ };

    ghost view = { λ c. c.0 };

    ghost inverse = { λ n. record { 0 = n } };
}

impl SyntaxContext {
    /// The context of an identifier that nothing has resolved yet.
    pub fn empty() -> SyntaxContext
        ensures { result ≡ 0 }
    {
        SyntaxContext(0)
    }

    /// The context with this number.
    pub fn from_u32(number: u32) -> SyntaxContext
        ensures { result ≡ number }
    {
        SyntaxContext(number)
    }

    /// The number of this context.
    pub fn as_u32(self) -> u32
        ensures { result ≡ self }
    {
        self.0
    }
}
