//! What the prepared items of a module say: what it asks for and gives, what its names denote, and which of the items
//! holds its `import.meta`.

ghost use Rattle.std.specs.Prelude.{◌≡◌, ◌∷◌, [], IfErr, IfOk, drop, map, option_map, take, if◌then◌else◌};
ghost use Rattle.bundle_tree_names.specs.FileName.{name_of};
ghost use Rattle.bundle_syntax.specs.Item as h;
ghost use Rattle.bundle_syntax.specs.Item.{item_of};
ghost use Rattle.bundle_tree_listed.specs.Tree.{node};
ghost use Rattle.bundle_tree_places.specs.Marks.{ident_of};
ghost use Rattle.bundle_rules.specs.Entries as entries;
ghost use Rattle.bundle_rules.specs.Meaning.{HasKind};
ghost use Rattle.bundle_rules.specs.Program.{Program};
ghost use Rattle.bundle_rules.specs.Scopes as scopes;
ghost use Rattle.bundle_scope_denote.specs.Kinds.{kind_as};
ghost use Rattle.bundle_link.specs.Held.{config_of};
ghost use Rattle.bundle_link.specs.Programs.{IsLinkerOf};
ghost use Rattle.bundle_link.specs.Refusals.{HasExternals, IsTreeRefusal};
ghost use Rattle.bundle_merge_names.specs.declared.part.BundleModule as part;
ghost use Rattle.bundle_merge.specs.Handed.{IsLinkRead, IsPartRead};
ghost use Rattle.bundle_merge.specs.Read.{IsReadModuleOf, first_declared, name_held, own_list};

use bundle_link::link::{Linker, TransformedModule};
use bundle_link::{leads_of, merging};
use bundle_link_tables::Tables;
use bundle_link_targets::LinkModule;
use bundle_merge_items::BundleModule;
use bundle_scope_denote::texts::TextSet;
use bundle_scope_denote::{Denotations, ModuleKind, Reading, denotations};
use bundle_syntax::{Node, Piece, Role};
use bundle_tree_ast::{Module, ModuleItem};
use bundle_tree_list::pieces;
use bundle_tree_names::{Error, ModuleId};
use bundle_tree_places::Name;
use bundle_tree_places::nodes::has_import_meta;
use indexmap::IndexSet;
use std::alloc::{AllocError, Global};
use std::collections::BTreeMap;

/// A module as it was read: its items, what they say, where its requests lead, and the context of the names of its
/// top.
#[derive(Drop)]
pub(crate) struct ReadModule<'x> {
    items: &'x [ModuleItem],
    /// The name that the first of the items declares, where it is the statement that holds its `import.meta`.
    written: Option<Name<'x>>,
    /// What the names in the list of the others denote by their symbols, where the module is read as what it is in the bundle.
    names: Denotations<'x>,
    tables: Tables<'x>,
    leads: BTreeMap<String, usize>,
    local: u32,
}

/// The name that the first of a module's items declares, where it is the statement that holds its `import.meta`; and the
/// list of a module of the others.
#[derive(Drop)]
struct OwnItems<'x> {
    written: Option<Name<'x>>,
    pieces: Vec<Piece<'x>>,
}

impl<'x> ReadModule<'x> {
    /// The module as one that is linked.
    pub(crate) fn link_module<'t>(&'t self) -> LinkModule<'t, 'x>
        ensures { IsLinkRead self.now result }
    {
        LinkModule {
            tables: &self.tables,
            leads: &self.leads,
        }
    }

    /// The module as one that is merged.
    pub(crate) fn part<'t>(&'t self) -> BundleModule<'t, 'x>
        ensures { IsPartRead self.now result }
    {
        BundleModule {
            items: self.items,
            denotations: &self.names,
            tables: &self.tables,
            leads: &self.leads,
            local: self.local,
            written: self.written,
        }
    }
}

/// A module of a linker, read from its prepared items, where the modules on the linker's list have these places, and these
/// are the texts that are external.
pub(crate) fn read_module<'a, 'x>(
    alloc: Global,
    linker: &Linker<'a>,
    known: &TransformedModule<'a>,
    places: &IndexSet<ModuleId>,
    external: &TextSet<&str>,
    tree: &'x Module,
) -> Result<ReadModule<'x>, Error>
    requires { HasExternals external.now (config_of linker.now) }
    ensures refused { IfErr result
        (IsTreeRefusal (name_of known.now.file_name) (own_list tree.now.body.items)) }
    ensures read { IfOk result (λ read. (part : part.BundleModule) → IsPartRead read part →
        IsReadModuleOf linker.now known.now places.now.keys tree.now.body.items part) }
{
    let own = own_of(alloc, &tree.body)?;
    let tables = merging::tables_of(linker, &known.file_name, &own.pieces, external)?;
    let kind = kind_of(linker, known.id);
    let names = denotations(alloc, &own.pieces, kind, Reading::BySymbol)?;
    let leads = leads_of(alloc, &known.deps, places)?;
    Ok(ReadModule {
        items: tree.body.as_slice(),
        written: own.written,
        names,
        tables,
        leads,
        local: known.local_ctxt.as_u32(),
    })
}

// The kind as which a module is read.
fn kind_of<'a>(linker: &Linker<'a>, id: ModuleId) -> ModuleKind
    ensures { (p : Program) (kind : scopes.ModuleKind) →
        IsLinkerOf p linker.now → HasKind p id kind → kind_as result ≡ kind }
{
    if linker.is_cjs(id) {
        ModuleKind::Cjs
    } else {
        ModuleKind::Es
    }
}

// What a module's prepared items are. Where `import.meta` stands in them the first is the statement that holds it.
fn own_of<'x>(alloc: Global, items: &'x [ModuleItem]) -> Result<OwnItems<'x>, AllocError>
    ensures written { IfOk result (λ own. option_map ident_of own.written ≡ name_held items.now) }
    ensures list { IfOk result (λ own. map item_of own.pieces.items ≡ own_list items.now) }
{
    let all = pieces(alloc, items)?;
    let front = pieces(alloc, front_in(items, &all))?;
    let written = name_in(&front);
    let own = if written.is_some() { front.len() } else { 0 };
    let pieces = module_list(alloc, behind(all.as_slice(), own))?;
    Ok(OwnItems { written, pieces })
}

// The first of a module's items, where `import.meta` stands in them, and this is their list.
fn front_in<'x>(items: &'x [ModuleItem], list: &[Piece<'x>]) -> &'x [ModuleItem]
    ensures { result.now
        ≡ (if entries.has_import_meta (map item_of list.now) then take 1 items.now else []) }
{
    if has_import_meta(list) {
        items.get(..1).unwrap_or(&[])
    } else {
        &[]
    }
}

// What stands behind so many elements.
fn behind<T>(list: &[T], count: usize) -> &[T]
    ensures { result.now ≡ drop count list.now }
{
    match list.get(count..) {
        Some(rest) => rest,
        None => &[],
    }
}

// The first name that is declared in a list.
fn name_in<'x>(list: &[Piece<'x>]) -> Option<Name<'x>>
    ensures { option_map ident_of result ≡ first_declared (map item_of list.now) }
{
    for piece in list {
        if let Some(name) = declared_name(*piece) {
            return Some(name);
        }
    }
    None
}

// The name that an element declares.
fn declared_name<'x>(piece: Piece<'x>) -> Option<Name<'x>>
    ensures { option_map ident_of result ≡ first_declared (map item_of (piece.entry ∷ [])) }
{
    match piece {
        Piece::Ident {
            sym,
            ctxt,
            role: Role::Binding,
            ..
        } => Some(Name { sym, ctxt }),
        _ => None,
    }
}

// The list of a module of items with this list.
fn module_list<'x>(alloc: Global, items: &[Piece<'x>]) -> Result<Vec<Piece<'x>>, AllocError>
    ensures { IfOk result (λ list.
        map item_of list.items ≡ node 0 h.Module (map item_of items.now)) }
{
    let mut list = Vec::new(alloc);
    list.push(Piece::Open {
        field: 0,
        node: Node::Module,
    })?;
    list.extend_from_slice(items)?;
    list.push(Piece::Close)?;
    Ok(list)
}
