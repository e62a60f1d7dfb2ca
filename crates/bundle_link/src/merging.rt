//! What a merge asks of a linker, beside what its users ask: the modules of the entry, and tables and links of lists
//! that are read anew.

ghost use Rattle.std.specs.Prelude.{◌≡◌, ◌-◌, ℕ, Contains, IfErr, IfOk, IfSome, IsNone, Some, length, map, option_map, slice_get};
ghost use Rattle.bundle_tree_names.specs.FileName.{name_of};
ghost use Rattle.bundle_syntax.specs.Item.{item_of};
ghost use Rattle.bundle_rules.specs.Entries.{has_import_meta};
ghost use Rattle.bundle_rules.specs.Program.{Program};
ghost use Rattle.bundle_link_index.specs.Programs.{IsLinkProgram};
ghost use Rattle.bundle_link_targets.specs.Linked.{HandsOver, IsJudgedBy, IsLinkingOf};
ghost use Rattle.bundle_link.specs.Held.{LacksNumber, config_of, entry_of, graph_of, list_of, modules_of, place_of};
ghost use Rattle.bundle_link.specs.Judged.{numbers_below};
ghost use Rattle.bundle_link.specs.Programs.{is_one_call};
ghost use Rattle.bundle_link.specs.Read.{AreTablesOf};
ghost use Rattle.bundle_link.specs.Refusals.{HasExternals, IsTreeRefusal};

use crate::link::{Linker, TransformedModule, setting_of};
use crate::tables::{externals_of, read_list};
use bundle_link_tables::Tables;
use bundle_link_targets::{LinkModule, Linking};
use bundle_order_graph::graph::ModuleGraph;
use bundle_scope_denote::texts::TextSet;
use bundle_syntax::Piece;
use bundle_tree_names::{Error, FileName, ModuleId};
use std::alloc::AllocError;

/// The number of the entry.
pub fn entry(linker: &Linker<'_>) -> ModuleId
    ensures { result ≡ entry_of linker.now }
{
    linker.entry
}

/// The numbers of the modules that the entry reaches, in post-order of their requests.
pub fn list<'l, 'a>(linker: &'l Linker<'a>) -> &'l [ModuleId]
    ensures { result.now ≡ list_of linker.now }
{
    &linker.linked.list
}

/// Which module requests which.
pub fn graph<'l, 'a>(linker: &'l Linker<'a>) -> &'l ModuleGraph
    ensures { result.now ≡ graph_of linker.now }
{
    &linker.linked.graph
}

/// The module with this number.
pub fn module<'l, 'a>(linker: &'l Linker<'a>, id: ModuleId) -> Option<&'l TransformedModule<'a>>
    ensures found { IfSome result (λ m. Contains (modules_of linker.now) m.now) }
    ensures absent { LacksNumber linker.now id → IsNone result }
    ensures at { (k : ℕ) → place_of linker.now id ≡ Some k →
        option_map (λ m. m.now) result ≡ slice_get (modules_of linker.now) k }
{
    linker.modules.get(linker.linked.ids.get_index_of(&id)?)
}

/// The texts that are external by the settings: made once for all lists whose tables are asked for.
pub fn externals<'l, 'a>(linker: &'l Linker<'a>) -> Result<TextSet<&'l str>, AllocError>
    ensures { IfOk result (λ external. HasExternals external (config_of linker.now)) }
{
    externals_of(linker.alloc, &linker.config)
}

/// The tables of the list of a module, by the settings of the linker, where these are the texts that are external
/// (`externals`). Refused where the tree has a fault of its own, and where memory runs out.
pub fn tables_of<'x>(
    linker: &Linker<'_>,
    file: &FileName,
    pieces: &[Piece<'x>],
    external: &TextSet<&str>,
) -> Result<Tables<'x>, Error>
    requires { HasExternals external.now (config_of linker.now) }
    ensures refused { IfErr result (IsTreeRefusal (name_of file.now) (map item_of pieces.now)) }
    ensures given { IfOk result
        (AreTablesOf (config_of linker.now) (name_of file.now) (map item_of pieces.now)) }
    ensures meta { IfOk result (λ tables.
        tables.has_import_meta ≡ has_import_meta (map item_of pieces.now)) }
{
    read_list(linker.alloc, file, pieces, &linker.config, external)
}

/// What the names of the modules on the list stand for, where these are their tables in turn, their requests lead to
/// places of the list, and the last is the entry.
pub fn linking_of<'x>(
    linker: &Linker<'_>,
    modules: &[LinkModule<'_, 'x>],
) -> Result<Linking<'x>, AllocError>
    ensures linked { IfOk result (λ linking. (q : Program) →
        IsLinkProgram q modules.now (numbers_below (length modules.now))
        (length modules.now - 1) (config_of linker.now).require
        → IsLinkingOf q linking) }
    ensures judged { IfOk result (λ linking. (q : Program) →
        IsLinkProgram q modules.now (numbers_below (length modules.now))
        (length modules.now - 1) (config_of linker.now).require
        → q.settings.iife ≡ is_one_call (config_of linker.now).module
        → IsJudgedBy q (numbers_below (length modules.now)) linking) }
    ensures handed { IfOk result (λ linking. (q : Program) →
        IsLinkProgram q modules.now (numbers_below (length modules.now))
        (length modules.now - 1) (config_of linker.now).require
        → HandsOver q (numbers_below (length modules.now)) linking) }
{
    let mut list = Vec::new(linker.alloc);
    for place in 0..modules.len() {
        list.push(place)?;
    }
    let entry = modules.len().saturating_sub(1);
    Linking::new(
        linker.alloc,
        modules,
        &list,
        entry,
        setting_of(&linker.config),
    )
}
