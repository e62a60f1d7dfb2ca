//! A module that is to be linked.

ghost use Rattle.std.specs.Prelude.{◌≡◌};

use bundle_tree_ast::Module;
use bundle_tree_names::{FileName, ModuleId, SyntaxContext};

/// A module of a bundle: its file, its number, the contexts of the names of its top and of its exports, its tree, and
/// the number of the module to which each of its requests leads.
#[derive(Drop)]
pub struct TransformedModule<'a> {
    pub file_name: FileName,
    pub id: ModuleId,
    pub local_ctxt: SyntaxContext,
    pub export_ctxt: SyntaxContext,
    pub tree: &'a Module,
    pub deps: Vec<(String, ModuleId)>,
}

impl<'a> TransformedModule<'a> {
    /// A module that is made of these. It takes no memory.
    ///
    /// The caller sees to it that the tree has no fault of its own, and that each text that the module requests
    /// stands once in `deps`.
    pub fn new(
        file_name: FileName,
        id: ModuleId,
        local_ctxt: SyntaxContext,
        export_ctxt: SyntaxContext,
        tree: &'a Module,
        deps: Vec<(String, ModuleId)>,
    ) -> TransformedModule<'a>
        ensures file { result.file_name ≡ file_name }
        ensures id { result.id ≡ id }
        ensures local { result.local_ctxt ≡ local_ctxt }
        ensures exported { result.export_ctxt ≡ export_ctxt }
        ensures tree { result.tree ≡ tree.entry }
        ensures deps { result.deps ≡ deps }
    {
        TransformedModule {
            file_name,
            id,
            local_ctxt,
            export_ctxt,
            tree,
            deps,
        }
    }
}
