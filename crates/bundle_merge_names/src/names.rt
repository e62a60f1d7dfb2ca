//! What is named in a bundle: an identifier, by symbol and context, for each label, and contexts for the scopes of its
//! modules. All are given before any item is made.

ghost use Rattle.std.specs.Prelude.{◌≡◌, ◌++◌, ◌∷◌, [], suc, IfErr, IfOk, OnOk, Some, None, unwrap_or};
ghost use Rattle.bundle_tree_places.specs.Marks.{ident_of};
ghost use Rattle.bundle_link_targets.specs.Lists.{list_in};
ghost use Rattle.bundle_merge_names.specs.Held.{GivesName, RefusesName};
ghost use Rattle.bundle_merge_names.specs.Named.{answered_in, held, local_in, scopes_in};
ghost use Rattle.bundle_merge_names.specs.Idents.{label_ident, target_ident};
ghost use Rattle.bundle_merge_names.specs.Numbers.{position};
ghost use Rattle.bundle_merge_names.specs.declared.names.Label as labels;
ghost use Rattle.bundle_merge_names.specs.declared.error.MergeError.TheVariants.{ContextsUsedUp};

use crate::context::{FreshContexts, GLOBAL};
use crate::error::MergeError;
use bundle_link_targets::TargetRef;
use bundle_scope_denote::texts::TextMap;
use bundle_tree_places::Name;
use std::alloc::{AllocError, Global};

/// What a name that the linker gives stands for.
#[derive(Clone, Copy, PartialEq, Eq, PartialOrd, Ord)]
pub enum Label<'a> {
    /// What names of modules stand for, but for a declaration of a module, which keeps its own.
    Of(TargetRef<'a>),
    /// The function that loads a CommonJS module.
    Load { which: usize },
    /// The object for `import.meta` in a module.
    Meta { which: usize },
    /// The helper that load functions are made by,
    Helper,
    /// its parameter,
    HelperParameter,
    /// and its variable.
    HelperVariable,
}

/// The names of a bundle.
pub struct BundleNames<'a> {
    // The context of the top of each module.
    locals: Vec<u32>,
    // For each module, the contexts of the scopes in its list that bind something,
    scopes: Vec<Vec<Option<u32>>>,
    // and of those in the list of what the hook answered for it.
    answered: Vec<Vec<Option<u32>>>,
    // A specifier and a name in a label are chosen by strangers, so labels are found by their order.
    labels: TextMap<Label<'a>, Name<'a>>,
    // The contexts that are still free.
    contexts: FreshContexts,
}

// By hand, so that who lets go of one only calls this.
impl<'a> Drop for BundleNames<'a> {
    fn drop(self) {
        let BundleNames {
            locals: _locals,
            scopes: _scopes,
            answered: _answered,
            labels: _labels,
            contexts: _contexts,
        } = self;
    }
}

impl<'a> BundleNames<'a> {
    /// No names, where these contexts are free.
    pub fn new(alloc: Global, contexts: FreshContexts) -> BundleNames<'a>
        ensures locals { result.locals.items ≡ [] }
        ensures scopes { result.scopes.items ≡ [] }
        ensures answered { result.answered.items ≡ [] }
        ensures labels { (label : labels.Label) → held result label ≡ None }
        ensures contexts { result.contexts ≡ contexts }
    {
        BundleNames {
            locals: Vec::new(alloc),
            scopes: Vec::new(alloc),
            answered: Vec::new(alloc),
            labels: TextMap::new(alloc),
            contexts,
        }
    }

    /// The next context, for a scope of a module or of what the hook answered for it.
    pub fn take(&mut self, which: usize) -> Result<u32, MergeError>
        ensures taken { IfOk result (λ context. context ≡ position self.old.contexts) }
        ensures next { IfOk result (λ context. position self.new.contexts ≡ suc context) }
        ensures locals { self.new.locals ≡ self.old.locals }
        ensures scopes { self.new.scopes ≡ self.old.scopes }
        ensures answered { self.new.answered ≡ self.old.answered }
        ensures labels { self.new.labels ≡ self.old.labels }
        ensures refused { IfErr result (λ refusal. refusal ≡ ContextsUsedUp (Some which)) }
        ensures none { IfErr result (λ refusal. self.old.contexts.next ≡ None) }
    {
        self.contexts.take(Some(which))
    }

    /// Adds the next module: the context of its top, and those of the scopes in its list and in what the hook answered.
    pub fn add_module(
        &mut self,
        local: u32,
        scopes: Vec<Option<u32>>,
        answered: Vec<Option<u32>>,
    ) -> Result<(), AllocError>
        ensures locals { OnOk result (self.new.locals.items ≡ self.old.locals.items ++ local ∷ []) }
        ensures scopes { OnOk result (self.new.scopes.items ≡ self.old.scopes.items ++ scopes ∷ []) }
        ensures answered { OnOk result (self.new.answered.items ≡ self.old.answered.items ++ answered ∷ []) }
        ensures labels { OnOk result (self.new.labels ≡ self.old.labels) }
        ensures contexts { self.new.contexts ≡ self.old.contexts }
    {
        self.locals.push(local)?;
        self.scopes.push(scopes)?;
        self.answered.push(answered)?;
        Ok(())
    }

    /// Gives a label the name of this symbol, with the next context, if it has none.
    pub fn give(&mut self, label: Label<'a>, sym: &'a str) -> Result<(), MergeError>
        ensures given { OnOk result (GivesName label.entry sym.now self.old self.new) }
        ensures refused { IfErr result (RefusesName label.entry self.old) }
    {
        if self.labels.contains_key(&label) {
            return Ok(());
        }
        let ctxt = self.contexts.take(None)?;
        self.labels.insert(label, Name { sym, ctxt })?;
        Ok(())
    }

    /// The contexts that are free.
    pub fn contexts(&self) -> FreshContexts
        ensures { result ≡ self.now.contexts }
    {
        self.contexts
    }

    /// A name at the top of a module.
    pub fn local(&self, which: usize, sym: &'a str) -> Name<'a>
        ensures { ident_of result ≡ (sym.now, unwrap_or (local_in self.now which) 1) }
    {
        let ctxt = self.locals.get(which).copied().unwrap_or(GLOBAL);
        Name { sym, ctxt }
    }

    /// The contexts of the scopes in the list of a module.
    pub fn scopes(&self, which: usize) -> &[Option<u32>]
        ensures { result.now ≡ scopes_in self.now which }
    {
        contexts_at(&self.scopes, which)
    }

    /// The contexts of the scopes in the list of what the hook answered for a module.
    pub fn answered(&self, which: usize) -> &[Option<u32>]
        ensures { result.now ≡ answered_in self.now which }
    {
        contexts_at(&self.answered, which)
    }

    /// What stands for a target.
    pub fn target(&self, target: TargetRef<'a>) -> Name<'a>
        ensures { ident_of result ≡ target_ident self.now target.entry }
    {
        match target {
            TargetRef::Declared { which, name } => self.local(which, name),
            _ => self.of(Label::Of(target)),
        }
    }

    /// The name of a label. What no item of a bundle stands for may have none; it is then never written.
    pub fn of(&self, label: Label<'a>) -> Name<'a>
        ensures { ident_of result ≡ label_ident self.now label.entry }
    {
        match self.labels.get(&label) {
            Some(name) => *name,
            None => Name {
                sym: "",
                ctxt: GLOBAL,
            },
        }
    }
}

// The contexts of the module with this number.
fn contexts_at(modules: &[Vec<Option<u32>>], which: usize) -> &[Option<u32>]
    ensures { result.now ≡ list_in modules.now which }
{
    match modules.get(which) {
        Some(contexts) => contexts.as_slice(),
        None => &[],
    }
}
