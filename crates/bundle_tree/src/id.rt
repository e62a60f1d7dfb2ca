//! The names of bindings.

ghost use Rattle.std.specs.Prelude.{◌≡◌, ◌↔◌, IsTrue, IfOk, IfErr};
ghost use Rattle.std.specs.String.{string_bytes};
ghost use Rattle.bundle_tree.specs.IdName.{ident_name};

use bundle_syntax::Ident;
use bundle_tree_ast::Expr;
use bundle_tree_names::{Error, SyntaxContext};
use std::alloc::{AllocError, Global};
use std::cmp::Ordering;
use std::fmt;
use std::hash::{Hash, Hasher};
use std::marker::Model;

/// The name of a binding: a symbol, with the context that keeps it apart from others of that symbol.
/// Clauses see the bytes of the symbol and the number of the context.
#[derive(Drop)]
pub struct Id {
    sym: String,
    ctxt: SyntaxContext,
}

impl Model for Id {
    ghost use Rattle.std.specs.String.{string_bytes};
    ghost use Rattle.bundle_tree.specs.IdName.{IdName};

    ghost Value = { IdName };

    ghost view = { λ id. record { symbol = string_bytes id.sym; context = id.ctxt } };
}

impl Id {
    /// The name of this symbol in this context. It takes no memory.
    pub fn new(sym: String, ctxt: SyntaxContext) -> Id
        ensures { result ≡ record { symbol = string_bytes sym; context = ctxt } }
    {
        Id { sym, ctxt }
    }

    /// The name of an identifier, which stays as it is. Only memory can refuse it.
    pub fn of(alloc: Global, ident: &Ident) -> Result<Id, Error>
        ensures named { IfOk result (λ id. id ≡ ident_name ident.now) }
        ensures refused { IfErr result (λ refusal. refusal ≡ Error.OutOfMemory) }
    {
        Ok(Id {
            sym: String::from_str(alloc, ident.sym.as_str())?,
            ctxt: ident.ctxt,
        })
    }

    /// The symbol.
    pub fn sym(&self) -> &str
        ensures { result.now ≡ self.now.symbol }
    {
        self.sym.as_str()
    }

    /// The context.
    pub fn ctxt(&self) -> SyntaxContext
        ensures { result ≡ self.now.context }
    {
        self.ctxt
    }

    /// The identifier of this name. It takes no memory.
    pub fn into_ident(self) -> Ident
        ensures { ident_name result ≡ self }
    {
        Ident {
            sym: self.sym,
            ctxt: self.ctxt,
        }
    }

    /// The name of the same symbol in another context. It takes no memory.
    pub fn with_ctxt(self, ctxt: SyntaxContext) -> Id
        ensures { result ≡ record self { context = ctxt } }
    {
        Id::new(self.sym, ctxt)
    }

    /// Whether an identifier has this name.
    pub fn is_ident(&self, ident: &Ident) -> bool
        ensures { IsTrue result ↔ (ident_name ident.now ≡ self.now) }
    {
        self.sym == ident.sym && self.ctxt == ident.ctxt
    }

    /// Whether the symbol is this text.
    pub fn is_word(&self, word: &str) -> bool
        ensures { IsTrue result ↔ (self.now.symbol ≡ word.now) }
    {
        self.sym() == word
    }
}

impl From<Ident> for Id {
    ghost use Rattle.std.specs.Prelude.{◌≡◌};
    ghost use Rattle.bundle_tree.specs.IdName.{ident_name};

    ghost from_gives = { λ ident id. id ≡ ident_name ident };

    fn from(ident: Ident) -> Id {
        Id::new(ident.sym, ident.ctxt)
    }
}

impl From<Id> for Ident {
    ghost use Rattle.std.specs.Prelude.{◌≡◌};
    ghost use Rattle.bundle_tree.specs.IdName.{ident_name};

    ghost from_gives = { λ id ident. ident_name ident ≡ id };

    fn from(id: Id) -> Ident {
        id.into_ident()
    }
}

impl From<Id> for Expr {
    ghost use Rattle.bundle_tree.specs.IdName.{IsIdentExpr};

    ghost from_gives = { λ id expr. IsIdentExpr expr id };

    fn from(id: Id) -> Expr {
        Expr::Ident(id.into_ident())
    }
}

/// The clone is the same name. Only memory can refuse it.
impl Clone for Id {
    ghost use Rattle.std.specs.Prelude.{◌≡◌};

    ghost is_clone = { λ id copy. copy ≡ id };

    fn clone(&self) -> Result<Id, AllocError> {
        Ok(Id::new(self.sym.clone()?, self.ctxt))
    }
}

impl PartialEq for Id {
    ghost use Rattle.std.specs.Prelude.{◌≡◌, ◌↔◌, IsTrue};
    ghost use Rattle.bundle_tree.specs.IdName.{id_name_eq};
    ghost use Rattle.bundle_tree.specs.IdNameLaws.{name_eq_per};

    ghost eq = { id_name_eq };

    ghost laws = { name_eq_per };

    fn eq(&self, other: &Id) -> bool
        ensures value { result ≡ id_name_eq self.now other.now }
        ensures same { IsTrue result ↔ (self.now ≡ other.now) }
    {
        self.sym == other.sym && self.ctxt == other.ctxt
    }
}

impl Eq for Id {
    ghost use Rattle.bundle_tree.specs.IdNameLaws.{id_name_eq_equiv};

    ghost laws = { id_name_eq_equiv };
}

impl PartialOrd for Id {
    ghost use Rattle.std.specs.Ordering.{as_partial_cmp};
    ghost use Rattle.bundle_tree.specs.IdName.{name_cmp};
    ghost use Rattle.bundle_tree.specs.IdNameLaws.{name_cmp_po};

    ghost partial_cmp = { as_partial_cmp name_cmp };

    ghost laws = { name_cmp_po };

    fn partial_cmp(&self, other: &Id) -> Option<Ordering> {
        Some(self.cmp(other))
    }
}

/// By the bytes of the symbols, and where these are the same by the numbers of the contexts.
impl Ord for Id {
    ghost use Rattle.std.specs.Prelude.{refl};
    ghost use Rattle.bundle_tree.specs.IdName.{name_cmp};
    ghost use Rattle.bundle_tree.specs.IdNameLaws.{name_cmp_total, name_cmp-ties};

    ghost cmp = { name_cmp };

    ghost total = { name_cmp_total };

    ghost matches_partial_cmp = { λ a b. refl };

    ghost matches_eq = { name_cmp-ties };

    fn cmp(&self, other: &Id) -> Ordering {
        self.sym.cmp(&other.sym).then(self.ctxt.cmp(&other.ctxt))
    }
}

impl Hash for Id {
    ghost use Rattle.bundle_tree.specs.IdName.{id_hash_input};
    ghost use Rattle.bundle_tree.specs.IdNameLaws.{name_hash_alike};

    ghost hash_input = { id_hash_input };

    ghost respects_eq = { name_hash_alike };

    fn hash<H: Hasher>(&self, state: &mut H) {
        self.sym.hash(state);
        self.ctxt.hash(state);
    }
}

/// Writes the symbol, a `#` and the number of the context, as `x#2`.
impl fmt::Debug for Id {
    ghost use Rattle.std.specs.Prelude.{Some};
    ghost use Rattle.bundle_tree.specs.IdName.{id_shown};

    ghost debug_output = { λ id. Some (id_shown id) };

    fn fmt<W: fmt::Write>(&self, f: &mut fmt::Formatter<W>) -> fmt::Result {
        let sym = self.sym();
        let number = self.ctxt.as_u32();
        write!(f, "{sym}#{number}")
    }
}
