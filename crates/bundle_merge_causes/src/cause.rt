//! What an item of a bundle is made for.

ghost use Rattle.std.specs.Prelude.{◌≡◌, ◌++◌, ◌∷◌, [], OnOk};
ghost use Rattle.bundle_merge_theory.specs.planned.Decided.{one_if};
ghost use Rattle.bundle_merge_causes.specs.Told.{cause_told, causes_told};

use bundle_tree_names::FileName;
use std::alloc::AllocError;

/// What an item of a bundle is made for. Modules are named by their places among those of the bundle, in post-order of
/// requests, the entry last.
#[derive(PartialEq, Eq, Debug, Drop)]
pub enum ItemCause {
    /// A statement of an ES module, by its place among those that the module states (ECMA-262, 16.2.3.7).
    OwnStatement { module: usize, statement: usize },
    /// The import of names of an external.
    NamesImport { specifier: String },
    /// The import of the whole of an external.
    WholeImport { specifier: String },
    /// The import of an external of which nothing is taken.
    BareImport { specifier: String },
    /// The function that load functions are made by.
    Helper,
    /// The function in which the statements of a CommonJS module stand.
    LoadFunction { module: usize },
    /// The statement by which a module loads a CommonJS module.
    LoadStatement { module: usize, loaded: usize },
    /// The object for the `import.meta` of a module.
    MetaObject { module: usize },
    /// The object of a module's namespace.
    NamespaceObject { module: usize },
    /// `export * from` an external.
    ExternalStar { specifier: String },
    /// The list of exports, or the object that the one function's call returns.
    Exports,
}

/// The files of a bundle's modules, in post-order of requests, the entry last; and what each item of the bundle is made
/// for, in the order of its items, with modules by their places among these. There is none where modules in a cycle
/// stand in an order by needs, which is found as they are merged.
#[derive(Debug, Drop)]
pub struct BundleCauses {
    pub modules: Vec<FileName>,
    pub items: Option<Vec<ItemCause>>,
}

/// Adds a cause.
pub(crate) fn add(causes: &mut Vec<ItemCause>, cause: ItemCause) -> Result<(), AllocError>
    ensures { OnOk result
        (causes_told causes.new.items ≡ causes_told causes.old.items ++ cause_told cause ∷ []) }
{
    causes.push(cause)?;
    Ok(())
}

/// Adds a cause, if it is due.
pub(crate) fn add_if(
    is_due: bool,
    cause: ItemCause,
    causes: &mut Vec<ItemCause>,
) -> Result<(), AllocError>
    ensures { OnOk result (causes_told causes.new.items
        ≡ causes_told causes.old.items ++ one_if is_due (cause_told cause)) }
{
    match is_due {
        true => add(causes, cause),
        false => Ok(()),
    }
}
