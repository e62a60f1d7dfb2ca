//! Identifiers.

ghost use Rattle.std.specs.Prelude.{◌≡◌, IfOk, option_map, string_bytes, unwrap_or};
ghost use Rattle.bundle_tree_places.specs.Edits.{Anywhere};
ghost use Rattle.bundle_tree_rename.specs.Naming.{naming_of};
ghost use Rattle.bundle_tree_rename.specs.Parts.{option_ident_items};
ghost use Rattle.bundle_tree_rename.specs.Renamed.{Renamed, Takes};

use crate::new_name::NewName;
use crate::rename::Rename;
use bundle_tree_ast::{BindingIdent, Ident};
use bundle_tree_names::SyntaxContext;
use std::alloc::AllocError;

impl<'r, 'n> Rename<'r, 'n> {
    /// An occurrence.
    pub fn ident(&mut self, ident: &mut Ident) -> Result<(), AllocError>
        ensures { IfOk result (λ done. Takes self.old ident.old ident.new self.new) }
    {
        match self.take() {
            Some(name) => self.call(ident, name),
            None => Ok(()),
        }
    }

    // An identifier gets a new name.
    fn call(&self, ident: &mut Ident, name: NewName) -> Result<(), AllocError>
        ensures sym { IfOk result (λ done.
            string_bytes ident.new.sym
            ≡ unwrap_or (naming_of name.entry).sym (string_bytes ident.old.sym)) }
        ensures ctxt { IfOk result (λ done.
            ident.new.ctxt ≡ unwrap_or (naming_of name.entry).ctxt ident.old.ctxt) }
    {
        ident.ctxt = context_of(name, ident.ctxt);
        match name.sym {
            Some(sym) => {
                ident.sym = String::from_str(self.alloc, sym)?;
                Ok(())
            }
            None => Ok(()),
        }
    }

    /// The identifier that an occurrence becomes, beside it.
    pub(crate) fn new_ident(&mut self, ident: &Ident) -> Result<Ident, AllocError>
        ensures { IfOk result (λ made. Takes self.old ident.now made self.new) }
    {
        let mut made = self.copied(ident)?;
        self.ident(&mut made)?;
        Ok(made)
    }

    // The same identifier.
    fn copied(&self, ident: &Ident) -> Result<Ident, AllocError>
        ensures sym { IfOk result (λ made. string_bytes made.sym ≡ string_bytes ident.now.sym) }
        ensures ctxt { IfOk result (λ made. made.ctxt ≡ ident.now.ctxt) }
    {
        let sym = String::from_str(self.alloc, ident.sym.as_str())?;
        Ok(Ident {
            sym,
            ctxt: ident.ctxt,
        })
    }

    pub(crate) fn option_ident(&mut self, choice: &mut Option<Ident>) -> Result<(), AllocError>
        ensures { IfOk result (λ done.
            Renamed Anywhere option_ident_items self.old choice.old choice.new self.new) }
    {
        match choice {
            Some(ident) => self.ident(ident),
            None => Ok(()),
        }
    }

    pub fn binding_ident(&mut self, binding_ident: &mut BindingIdent) -> Result<(), AllocError>
        ensures { IfOk result (λ done.
            Takes self.old binding_ident.old.id binding_ident.new.id self.new) }
    {
        self.ident(&mut binding_ident.id)
    }
}

// The context of what gets a new name.
fn context_of(name: NewName, ctxt: SyntaxContext) -> SyntaxContext
    ensures { result ≡ unwrap_or (naming_of name.entry).ctxt ctxt }
{
    match name.ctxt {
        Some(number) => SyntaxContext::from_u32(number),
        None => ctxt,
    }
}
