//! References to the aliases that the linker made become the ends of their chains, and the aliases go.

ghost use Rattle.std.specs.Prelude.{◌≡◌, ◌++◌, IfErr, IfOk, OnErr, OnOk, is_some, map, option_map};
ghost use Rattle.bundle_merge_modules.specs.Held.{MapsSome};
ghost use Rattle.bundle_tree_places.specs.Marks.{ident_of};
ghost use Rattle.bundle_syntax.specs.Item.{item_of};
ghost use Rattle.bundle_tree_listed.specs.Tree.{module_item_items};
ghost use Rattle.bundle_marks.specs.Idents.{ident_named, pair_named};
ghost use Rattle.bundle_rules.specs.Aliases.{HasCycle, Inlines, IsAlias};
ghost use Rattle.bundle_rules.specs.Parts.{in_order};
ghost use Rattle.bundle_merge_modules.specs.Aliased.{alias_in};
ghost use Rattle.bundle_merge_modules.specs.Made.{AreAliasesOnce, ArePairsOf, IsItemInlined, alias_list};
ghost use Rattle.bundle_merge_modules.specs.declared.inline.InlineError.TheVariants.{Cycle, Memory};

use crate::Modules;
use crate::alias::alias_of;
use crate::ends::renaming_to_ends;
use bundle_marks::Renaming;
use bundle_scope::scope::rename_item;
use bundle_syntax::Piece;
use bundle_tree::Id;
use bundle_tree_ast::ModuleItem;
use bundle_tree_list::pieces;
use bundle_tree_names::{ModuleId, SyntaxContext};
use bundle_tree_places::Name;
use std::alloc::{AllocError, Global};
use std::{fmt, slice};

/// Why aliases are not inlined.
#[derive(Clone, Copy, PartialEq, Eq, Debug, Drop)]
pub enum InlineError {
    /// Some chain of aliases leads back to where it began.
    Cycle,
    /// Memory ran out.
    Memory,
}

/// Writes why.
impl fmt::Display for InlineError {
    ghost use Rattle.std.specs.Prelude.{Some};
    ghost use Rattle.bundle_merge_modules.specs.Error.{shown};

    ghost output = { λ refusal. Some (shown refusal) };

    fn fmt<W: fmt::Write>(&self, f: &mut fmt::Formatter<W>) -> fmt::Result {
        let reason = match self {
            InlineError::Cycle => "aliases form a cycle",
            InlineError::Memory => "out of memory",
        };
        write!(f, "{reason}")
    }
}

impl std::error::Error for InlineError {}

/// Takes out the aliases: the linker's own `const` of one declarator of two identifiers, `a = b`. Each identifier that
/// is an alias becomes the end of its chain. Refused with `Cycle` only where aliases form a cycle, and else only where
/// memory runs out; then nothing changes. The caller sees to it that none is made an alias of two.
pub fn inline(alloc: Global, modules: &mut Modules) -> Result<(), InlineError>
    ensures inlined { OnOk result (Inlines modules.old modules.new) }
    ensures whole { OnOk result
        (AreAliasesOnce modules.old → HasCycle (IsAlias modules.old) → ⊥) }
    ensures cycle { IfErr result
        (λ refusal. refusal ≡ Cycle → HasCycle (IsAlias modules.old)) }
    ensures refused { OnErr result (modules.new ≡ modules.old) }
{
    let pairs = match pairs_in(alloc, modules) {
        Ok(pairs) => pairs,
        Err(AllocError) => return Err(InlineError::Memory),
    };
    match renaming_to_ends(alloc, &pairs) {
        Ok(Some(renaming)) => replace(alloc, modules, &renaming),
        Ok(None) => Err(InlineError::Cycle),
        Err(AllocError) => Err(InlineError::Memory),
    }
}

// What the items make an alias, and of what.
fn pairs_in(alloc: Global, modules: &Modules) -> Result<Vec<(Id, Id)>, AllocError>
    ensures { IfOk result (λ pairs. ArePairsOf (in_order modules.now) pairs.items) }
{
    let mut pairs = Vec::new(alloc);
    for (_, item) in modules.iter() {
        add_pair(alloc, &mut pairs, item)?;
    }
    Ok(pairs)
}

// Adds what an item makes an alias, and of what.
fn add_pair(alloc: Global, pairs: &mut Vec<(Id, Id)>, item: &ModuleItem) -> Result<(), AllocError>
    ensures { OnOk result (map pair_named pairs.new.items
        ≡ map pair_named pairs.old.items ++ alias_list (module_item_items 0 item.now)) }
{
    let list = list_of(alloc, item)?;
    if let Some((name, end)) = alias_of(&list) {
        pairs.push((id_of(alloc, name)?, id_of(alloc, end)?))?;
    }
    Ok(())
}

// The name of a binding by what stands in the list.
fn id_of<'a>(alloc: Global, name: Name<'a>) -> Result<Id, AllocError>
    ensures { IfOk result (λ id. ident_named id ≡ ident_of name.entry) }
{
    let sym = String::from_str(alloc, name.sym)?;
    Ok(Id::new(sym, SyntaxContext::from_u32(name.ctxt)))
}

// The list of an item.
fn list_of<'a>(alloc: Global, item: &'a ModuleItem) -> Result<Vec<Piece<'a>>, AllocError>
    ensures { IfOk result (λ list. map item_of list.items ≡ module_item_items 0 item.now) }
{
    let list = pieces(alloc, slice::from_ref(item))?;
    Ok(list)
}

// Renames each item that makes no alias, and takes out the others.
fn replace(alloc: Global, modules: &mut Modules, renaming: &Renaming) -> Result<(), InlineError>
    ensures made { OnOk result
        (MapsSome (λ m item made. IsItemInlined renaming.now item made) modules.old modules.new) }
    ensures memory { IfErr result (λ refusal. refusal ≡ Memory) }
    ensures refused { OnErr result (modules.new ≡ modules.old) }
{
    match modules.map_some_items(&|_id: ModuleId, item: &ModuleItem| {
        made_of(alloc, item, renaming)
    }) {
        Ok(()) => Ok(()),
        Err(AllocError) => Err(InlineError::Memory),
    }
}

// The item renamed, or none where it makes an alias.
fn made_of(
    alloc: Global,
    item: &ModuleItem,
    renaming: &Renaming,
) -> Result<Option<ModuleItem>, AllocError>
    ensures { IfOk result (λ made. IsItemInlined renaming.now
        (module_item_items 0 item.now) (option_map (module_item_items 0) made)) }
{
    let makes = makes_alias(alloc, item)?;
    if makes {
        return Ok(None);
    }
    let made = rename_item(alloc, item, renaming)?;
    Ok(Some(made))
}

// Whether an item makes an alias.
fn makes_alias(alloc: Global, item: &ModuleItem) -> Result<bool, AllocError>
    ensures { IfOk result (λ makes. makes ≡ is_some (alias_in (module_item_items 0 item.now))) }
{
    let list = list_of(alloc, item)?;
    Ok(alias_of(&list).is_some())
}
