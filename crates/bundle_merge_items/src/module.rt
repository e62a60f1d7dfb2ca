//! The items of one module: the object for `import.meta`, the statements that load CommonJS modules and the module's own
//! statements; or, of a CommonJS module, its load function.

ghost use Rattle.std.specs.Prelude.{◌≡◌, ◌++◌, ◌∷◌, ℕ, Bool, List, [], Option, Some, OnOk, IfOk, codes, drop, filter, flat_map, length, map, option_map, slice_get};
ghost use Rattle.bundle_rules.specs.Meaning.{HasKind};
ghost use Rattle.bundle_rules.specs.Program.{IsReached, Program};
ghost use Rattle.bundle_rules.specs.Scopes.{Es, ModuleKind};
ghost use Rattle.bundle_syntax.specs.Item.{Item, item_of};
ghost use Rattle.bundle_tree_places.specs.Marks.{ident_of};
ghost use Rattle.bundle_tree_places.specs.Parted.{part_items};
ghost use Rattle.bundle_tree_ast.specs.declared.stmt.Stmt as tree;
ghost use Rattle.bundle_tree_listed.specs.Tree.{module_item_items, option_items, stmt_items};
ghost use Rattle.bundle_tree_rewrite.specs.Stated.{States};
ghost use Rattle.bundle_merge_theory.specs.made.Given as given;
ghost use Rattle.bundle_merge_theory.specs.planned.Decided.{module_plan};
ghost use Rattle.bundle_merge_theory.specs.sound.Decided.{AreTablesTold};
ghost use Rattle.bundle_merge_names.specs.Bundle.{written_items};
ghost use Rattle.bundle_merge_names.specs.Idents.{label_ident};
ghost use Rattle.bundle_merge_names.specs.declared.names.Label.TheVariants as labels;
ghost use Rattle.bundle_merge_items.specs.Added as added;
ghost use Rattle.bundle_merge_items.specs.Added.{module_item_lists, local_ident};
ghost use Rattle.bundle_merge_items.specs.Adds.{AddsItems, AddsFor, AddsMeta, IsNamedBundle, ArePlannedCauses, behind_plan, decided_of, meta_plan};
ghost use Rattle.bundle_merge_items.specs.Stated as stated;
ghost use Rattle.bundle_merge_items.specs.Stated.{AreStatedAs, StateInTurn, occurrence_count, work_by};

use crate::outside::add_load;
use bundle_link_targets::Loaded;
use bundle_merge_injected::{LoadNames, constant, load_function};
use bundle_merge_names::{
    Answered, Body, BundleInput, BundleModule, BundleNames, Label, body_of, own_names,
};
use bundle_syntax::{Piece, Role};
use bundle_tree_ast::{ExportMetadata, Module, ModuleItem, Stmt};
use bundle_tree_list::pieces_of_body;
use bundle_tree_places::{Name, parts};
use bundle_tree_rebuild::Rewrite;
use bundle_tree_rewrite::{Rewriting, rebuild_item, rewritten_object, stated_item};
use std::alloc::{AllocError, Global};

/// Adds the items of a module.
pub(crate) fn add_module<'a>(
    alloc: Global,
    bundle: &BundleInput<'_, 'a, '_>,
    names: &BundleNames<'a>,
    which: usize,
    part: &BundleModule<'_, 'a>,
    items: &mut Module,
) -> Result<(), AllocError>
    ensures { OnOk result (
        slice_get bundle.now.parts.now which ≡ Some part.now →
        AddsFor bundle.now names.now (ArePlannedCauses bundle.now (λ d. module_plan d which))
        items.old items.new) }
{
    add_written(alloc, part, items)?;
    let own = own_statements(alloc, bundle, names, which, part)?;
    if bundle.linking.is_common_js(which) {
        add_load_function(alloc, names, which, own, items)
    } else {
        add_es(alloc, bundle, names, which, own, items)
    }
}

// Adds the statement that holds the `import.meta` of a module as it is, if it is there already.
fn add_written(
    alloc: Global,
    part: &BundleModule<'_, '_>,
    items: &mut Module,
) -> Result<(), AllocError>
    ensures { OnOk result (module_item_lists items.new
        ≡ module_item_lists items.old ++ flat_map added.copied_item (written_items part.now)) }
{
    for item in part.written_items() {
        add_item(items, rebuild_item(alloc, item, &[])?)?;
    }
    Ok(())
}

// Adds the load function of a CommonJS module, in which these are its statements.
fn add_load_function<'a>(
    alloc: Global,
    names: &BundleNames<'a>,
    which: usize,
    own: Vec<Stmt>,
    items: &mut Module,
) -> Result<(), AllocError>
    ensures { OnOk result (module_item_lists items.new ≡ module_item_lists items.old
        ++ added.definition_of names.now which (map (stmt_items 0) own.items) ∷ []) }
{
    let load = definition(alloc, names, which, own)?;
    add_stmt(items, load)
}

// The load function of a CommonJS module.
#[tactic(auto, using(crate::proofs::Adding::adding))]
fn definition<'a>(
    alloc: Global,
    names: &BundleNames<'a>,
    which: usize,
    own: Vec<Stmt>,
) -> Result<Stmt, AllocError>
    ensures { IfOk result (λ made. stmt_items 0 made
        ≡ added.definition_of names.now which (map (stmt_items 0) own.items)) }
{
    load_function(alloc, load_names(names, which), own)
}

// The names of the load function of a CommonJS module.
fn load_names<'a>(names: &BundleNames<'a>, which: usize) -> LoadNames<'a>
    ensures load { ident_of result.load ≡ label_ident names.now (labels.Load which) }
    ensures helper { ident_of result.helper ≡ label_ident names.now labels.Helper }
    ensures own { ident_of result.module_object ≡ local_ident names.now which (codes "module") }
    ensures exports { ident_of result.exports ≡ local_ident names.now which (codes "exports") }
{
    LoadNames {
        load: names.of(Label::Load { which }),
        helper: names.of(Label::Helper),
        module_object: names.local(which, "module"),
        exports: names.local(which, "exports"),
    }
}

// Adds the items of an ES module, of which these are its own statements.
fn add_es<'a>(
    alloc: Global,
    bundle: &BundleInput<'_, 'a, '_>,
    names: &BundleNames<'a>,
    which: usize,
    own: Vec<Stmt>,
    items: &mut Module,
) -> Result<(), AllocError>
    ensures { OnOk result (
        (q : Program) (list : List ℕ) (answers : ℕ → Option given.HookAnswer)
        (context : given.BundleContexts) (meta : ℕ → Bool) (count : ℕ → ℕ) →
        IsNamedBundle q list answers context bundle.now names.now →
        AreTablesTold q (length bundle.now.parts.now) meta count →
        IsReached q which →
        AreStatedAs q list context which Es (map (stmt_items 0) own.items) →
        AddsItems q list answers context
        (meta_plan q answers which ++ behind_plan (decided_of bundle.now meta count) which)
        items.old items.new) }
{
    add_meta(alloc, bundle, names, which, items)?;
    add_loads(alloc, names, which, bundle.linking.loads(which), items)?;
    add_stmts(items, own)
}

// Adds the object for the `import.meta` of a module, if the hook answered something for it: else it has none, or is there
// already.
fn add_meta(
    alloc: Global,
    bundle: &BundleInput<'_, '_, '_>,
    names: &BundleNames<'_>,
    which: usize,
    items: &mut Module,
) -> Result<(), AllocError>
    ensures { OnOk result (
        (q : Program) (list : List ℕ) (answers : ℕ → Option given.HookAnswer)
        (context : given.BundleContexts) →
        IsNamedBundle q list answers context bundle.now names.now →
        IsReached q which →
        AddsItems q list answers context (meta_plan q answers which) items.old items.new) }
{
    match bundle.answer(which) {
        Some(answer) => add_meta_object(alloc, names, which, answer, items),
        None => Ok(()),
    }
}

// Adds the statements by which a module loads these CommonJS modules.
#[tactic(auto, using(crate::proofs::Adding::adding))]
fn add_loads<'a>(
    alloc: Global,
    names: &BundleNames<'a>,
    which: usize,
    loads: &[Loaded<'a>],
    items: &mut Module,
) -> Result<(), AllocError>
    ensures { OnOk result (module_item_lists items.new
        ≡ module_item_lists items.old ++ map (added.load_item_of names.now which) loads.now) }
{
    for loaded in loads {
        add_load(alloc, names, which, loaded, items)?;
    }
    Ok(())
}

// Adds `const importMeta = { .. };`.
fn add_meta_object(
    alloc: Global,
    names: &BundleNames<'_>,
    which: usize,
    answer: Answered<'_, '_>,
    items: &mut Module,
) -> Result<(), AllocError>
    ensures { OnOk result (AddsMeta names.now which answer.entry items.old items.new) }
{
    let rewrites = own_names(
        alloc,
        answer.pieces,
        answer.denotations,
        names.answered(which),
    )?;
    let rewriting = Rewriting {
        rewrites: &rewrites,
        meta: None,
    };
    let object = rewritten_object(alloc, answer.properties, rewriting)?;
    let name = names.of(Label::Meta { which });
    add_stmt(
        items,
        constant(alloc, name, object, ExportMetadata::default())?,
    )
}

// The own statements of a module.
fn own_statements<'a>(
    alloc: Global,
    bundle: &BundleInput<'_, 'a, '_>,
    names: &BundleNames<'a>,
    which: usize,
    part: &BundleModule<'_, 'a>,
) -> Result<Vec<Stmt>, AllocError>
    ensures { IfOk result (λ own.
        (q : Program) (list : List ℕ) (answers : ℕ → Option given.HookAnswer)
        (context : given.BundleContexts) (kind : ModuleKind) →
        IsNamedBundle q list answers context bundle.now names.now →
        slice_get bundle.now.parts.now which ≡ Some part.now →
        HasKind q which kind →
        AreStatedAs q list context which kind (map (stmt_items 0) own.items)) }
{
    let list = pieces_of_body(alloc, part.own_items())?;
    let body = body_of(alloc, part, &list, which, bundle.linking, names)?;
    let default = names.local(which, "default");
    let nodes = parts::top_items(alloc, &list)?;
    stated_items(alloc, part.own_items(), &nodes, &body, default)
}

// What items state in turn, where these are the nodes of their list.
fn stated_items<'a>(
    alloc: Global,
    items: &[ModuleItem],
    nodes: &[parts::NodeAt<'_, 'a>],
    body: &Body<'a>,
    default: Name<'a>,
) -> Result<Vec<Stmt>, AllocError>
    ensures { IfOk result (λ stmts.
        StateInTurn (option_map ident_of body.now.meta) (ident_of default.entry) items.now
        (map part_items nodes.now) body.now.rewrites.items (map (stmt_items 0) stmts.items)) }
{
    let mut rewrites: &[Rewrite<'a>] = &body.rewrites;
    let mut stmts = Vec::new(alloc);
    for (item, node) in items.iter().zip(nodes) {
        add_stated(alloc, rewrites, body.meta, default, item, &mut stmts)?;
        rewrites = rewrites_behind(rewrites, node.pieces);
    }
    Ok(stmts)
}

// Adds what an item states, if it states something, where these become its occurrences in turn.
fn add_stated<'a>(
    alloc: Global,
    rewrites: &[Rewrite<'a>],
    meta: Option<Name<'a>>,
    default: Name<'a>,
    item: &ModuleItem,
    stmts: &mut Vec<Stmt>,
) -> Result<(), AllocError>
    ensures { OnOk result ((made : Option tree.Stmt)
        × States (work_by rewrites.now (option_map ident_of meta.entry)) (ident_of default.entry)
        item.now (option_items (stmt_items 0) made)
        × (map (stmt_items 0) stmts.new.items
        ≡ map (stmt_items 0) stmts.old.items ++ stated.as_list made)) }
{
    match stated_by(alloc, rewrites, meta, default, item)? {
        Some(stmt) => add_own(stmts, stmt),
        None => Ok(()),
    }
}

// What an item states, if it states something.
fn stated_by<'a>(
    alloc: Global,
    rewrites: &[Rewrite<'a>],
    meta: Option<Name<'a>>,
    default: Name<'a>,
    item: &ModuleItem,
) -> Result<Option<Stmt>, AllocError>
    ensures { IfOk result (λ made. States (work_by rewrites.now (option_map ident_of meta.entry))
        (ident_of default.entry) item.now (option_items (stmt_items 0) made)) }
{
    let rewriting = Rewriting { rewrites, meta };
    stated_item(alloc, item, rewriting, default)
}

// What becomes of the occurrences behind those of a list.
#[tactic(auto, using(crate::proofs::Parting::drop_end))]
fn rewrites_behind<'b, 'a>(rewrites: &'b [Rewrite<'a>], pieces: &[Piece<'_>]) -> &'b [Rewrite<'a>]
    ensures { result.now ≡ drop (occurrence_count (map item_of pieces.now)) rewrites.now }
{
    let many = count(pieces);
    if many < rewrites.len() {
        &rewrites[many..]
    } else {
        &rewrites[rewrites.len()..]
    }
}

// How many occurrences stand in a list.
#[tactic(auto, using(crate::proofs::Parting::filter_mapped))]
fn count(pieces: &[Piece<'_>]) -> usize
    ensures { result ≡ occurrence_count (map item_of pieces.now) }
{
    count_names(pieces)
}

// The same, asked of each element.
fn count_names(pieces: &[Piece<'_>]) -> usize
    ensures { result ≡ length (filter (λ piece. stated.is_name (item_of piece)) pieces.now) }
{
    pieces.iter().filter(|piece| is_name(piece)).count()
}

// Whether an element is an occurrence.
fn is_name(piece: &Piece<'_>) -> bool
    ensures { result ≡ stated.is_name (item_of piece.now) }
{
    match piece {
        Piece::Ident { role, .. } => *role != Role::Word,
        _ => false,
    }
}

// Adds an own statement.
fn add_own(stmts: &mut Vec<Stmt>, stmt: Stmt) -> Result<(), AllocError>
    ensures { OnOk result
        (map (stmt_items 0) stmts.new.items
        ≡ map (stmt_items 0) stmts.old.items ++ stmt_items 0 stmt ∷ []) }
{
    stmts.push(stmt)?;
    Ok(())
}

/// Adds an item.
pub(crate) fn add_item(items: &mut Module, item: ModuleItem) -> Result<(), AllocError>
    ensures { OnOk result
        (module_item_lists items.new ≡ module_item_lists items.old ++ module_item_items 0 item ∷ []) }
{
    items.body.push(item)?;
    Ok(())
}

/// Adds a statement.
pub(crate) fn add_stmt(items: &mut Module, stmt: Stmt) -> Result<(), AllocError>
    ensures { OnOk result
        (module_item_lists items.new ≡ module_item_lists items.old ++ stmt_items 0 stmt ∷ []) }
{
    add_item(items, ModuleItem::Stmt(stmt))
}

// Adds statements.
fn add_stmts(items: &mut Module, stmts: Vec<Stmt>) -> Result<(), AllocError>
    ensures { OnOk result
        (module_item_lists items.new ≡ module_item_lists items.old ++ map (stmt_items 0) stmts.items) }
{
    for stmt in stmts {
        add_stmt(items, stmt)?;
    }
    Ok(())
}
