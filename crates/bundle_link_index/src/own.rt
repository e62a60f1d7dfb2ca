//! What own entries of modules say.

ghost use Rattle.std.specs.Prelude.{◌≡◌, ◌++◌, ◌∷◌, [], IfOk, OnOk, List, map, option_map};
ghost use Rattle.bundle_rules.specs.Entries.{ImportEntry};
ghost use Rattle.bundle_link_tables.specs.Exported.{Finds};
ghost use Rattle.bundle_link_tables.specs.TablesOf.{export_entry_of, import_entry_of, taken_of};
ghost use Rattle.bundle_link_index.specs.Said.{said_by, said_of, said_local, target_only};
ghost use Rattle.bundle_link_index.specs.Leads.{lead_of};
ghost use Rattle.bundle_link_index.specs.Says.{origin_of, own_says};

use crate::kinds::{Kinds, Lead};
use crate::target::TargetRef;
use bundle_link_tables::{Export, ImportRef, Origin, Tables, Taken};
use bundle_scope_denote::texts::TextMap;
use std::alloc::{AllocError, Global};

/// A name of a module.
#[derive(Clone, Copy, PartialEq, Eq, Hash, PartialOrd, Ord)]
pub struct Asked<'a> {
    pub which: usize,
    pub name: &'a str,
}

/// A target that is given, and the module and name bound by `import * as` with which it goes, if there is
/// one. Two of equal target that go with different ones count as two.
#[derive(Clone, Copy, PartialEq, Eq, Hash, PartialOrd, Ord)]
pub struct GivenTarget<'a> {
    pub target: TargetRef<'a>,
    pub origin: Option<Asked<'a>>,
}

/// What an own entry of a module says.
#[derive(Clone, Copy)]
pub enum OwnTarget<'a> {
    /// It gives this.
    Gives(GivenTarget<'a>),
    /// It gives what this name of an ECMAScript module gives.
    Leads(Asked<'a>),
    /// It gives nothing.
    Nothing,
}

/// The first import of each name that the imports of a module bind.
pub fn locals_of<'a>(
    alloc: Global,
    tables: &Tables<'a>,
) -> Result<TextMap<&'a str, ImportRef<'a>>, AllocError>
    ensures { IfOk result (λ locals. Finds locals (map import_entry_of tables.now.imports.items)) }
{
    let mut locals = TextMap::new(alloc);
    for import in &tables.imports {
        note_import(&mut locals, *import)?;
    }
    Ok(locals)
}

// Notes an import, unless one of that name was noted.
fn note_import<'a>(
    locals: &mut TextMap<&'a str, ImportRef<'a>>,
    import: ImportRef<'a>,
) -> Result<(), AllocError>
    ensures { (before : List ImportEntry) → Finds locals.old before →
        OnOk result (Finds locals.new (before ++ import_entry_of import.entry ∷ [])) }
{
    if !(&*locals).contains_key(&import.local) {
        locals.insert(import.local, import)?;
    }
    Ok(())
}

/// What a module takes by a specifier. A target that is given goes with the origin.
pub fn taking<'a>(
    kinds: &Kinds<'_, '_, 'a>,
    taker: usize,
    specifier: &'a str,
    taken: Taken<'a>,
    origin: Option<Asked<'a>>,
) -> OwnTarget<'a>
    ensures { own_says result
        ≡ said_by taker specifier.now (option_map origin_of origin.entry) (taken_of taken.entry)
        (lead_of kinds.now taker specifier.now) }
{
    let target = match kinds.lead(taker, specifier) {
        Lead::External => TargetRef::External { specifier, taken },
        Lead::CommonJs(which) => TargetRef::CommonJs {
            taker,
            which,
            taken,
        },
        Lead::Module(which) => match taken {
            Taken::Whole => TargetRef::Namespace { which },
            Taken::Named(name) => return OwnTarget::Leads(Asked { which, name }),
        },
        Lead::Nowhere => return OwnTarget::Nothing,
    };
    OwnTarget::Gives(GivenTarget { target, origin })
}

/// What an export of a module says.
pub fn own_entry<'a>(
    kinds: &Kinds<'_, '_, 'a>,
    number: usize,
    locals: &TextMap<&'a str, ImportRef<'a>>,
    export: Export<'a>,
) -> OwnTarget<'a>
    ensures { (imports : List ImportEntry) →
        Finds locals.now imports →
        own_says result
        ≡ said_of (lead_of kinds.now number) number imports (export_entry_of export.entry) }
{
    match export.origin {
        Origin::Indirect { specifier, taken } => taking(kinds, number, specifier, taken, None),
        Origin::Local { name } => local_entry(kinds, number, name, locals.get(&name).copied()),
    }
}

// What a name of a module's own gives, where this import binds it, or none.
fn local_entry<'a>(
    kinds: &Kinds<'_, '_, 'a>,
    which: usize,
    name: &'a str,
    import: Option<ImportRef<'a>>,
) -> OwnTarget<'a>
    ensures { own_says result
        ≡ said_local (lead_of kinds.now which) which name.now
        (option_map import_entry_of import.entry) }
{
    let own = Some(Asked { which, name });
    match import {
        None => OwnTarget::Gives(GivenTarget {
            target: TargetRef::Declared { which, name },
            origin: None,
        }),
        Some(import) => given_only(taking(kinds, which, import.specifier, import.taken, own)),
    }
}

// What is given by itself.
fn given_only<'a>(own: OwnTarget<'a>) -> OwnTarget<'a>
    ensures { own_says result ≡ target_only (own_says own.entry) }
{
    match own {
        OwnTarget::Gives(given) => OwnTarget::Gives(given),
        OwnTarget::Leads(_) | OwnTarget::Nothing => OwnTarget::Nothing,
    }
}
