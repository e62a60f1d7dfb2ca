//! What becomes of an identifier.

ghost use Rattle.std.specs.Prelude.{◌≡◌, not, bytes_eq, unwrap_or};
ghost use Rattle.bundle_tree_rename.specs.Naming.{naming_of};

/// What an identifier is called from now on.
#[derive(Clone, Copy)]
pub struct NewName<'n> {
    /// Its new symbol, or `None` where it keeps its own.
    pub sym: Option<&'n str>,
    /// The number of its new context, or `None` where it keeps its own.
    pub ctxt: Option<u32>,
}

impl<'n> NewName<'n> {
    /// Whether an identifier of this symbol gets another one.
    pub(crate) fn is_other(&self, sym: &str) -> bool
        ensures { result ≡ not (bytes_eq sym.now (unwrap_or (naming_of self.now).sym sym.now)) }
    {
        match self.sym {
            Some(new) => sym != new,
            None => false,
        }
    }
}
