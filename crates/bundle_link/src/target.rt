//! What the names that modules export stand for, with the numbers of modules and texts of their own.

ghost use Rattle.std.specs.Prelude.{◌≡◌, IfOk, option_map, slice_get};
ghost use Rattle.bundle_rules.specs.Linking.{Declared};
ghost use Rattle.bundle_link_tables.specs.TablesOf.{taken_of};
ghost use Rattle.bundle_link.specs.Resolutions.{common_js, single_target, resolution_read, target_read, two};
ghost use Rattle.bundle_link.specs.Resolved.{resolution_says, taken_says, target_says};

use bundle_link_tables::Taken;
use bundle_link_targets as places;
use bundle_tree_names::ModuleId;
use indexmap::IndexSet;
use std::alloc::{AllocError, Global};

/// What a name can stand for.
#[derive(Drop, PartialEq, Eq, Debug)]
pub enum Target {
    /// A declaration of a module.
    Decl(ModuleId, String),
    /// The namespace of a module.
    Namespace(ModuleId),
    /// A name of an external, or its whole.
    External(String, Option<String>),
    /// A property of a CommonJS module, or its whole, as the first of the two modules takes it of the second.
    Cjs(ModuleId, ModuleId, Option<String>),
}

/// What a module gives for a name (ECMA-262, 16.2.1.6.3 ResolveExport).
#[derive(Drop, PartialEq, Eq, Debug)]
pub enum Resolution {
    /// One target.
    One(Target),
    /// No target.
    None,
    /// More than one; these two count as two. They are equal where they come from different names that
    /// `import * as` binds.
    Two(Target, Target),
    /// No target, but an external that is starred may hold it.
    ExternalStar,
}

/// The resolution of a name, in which modules stand by their places among these numbers.
pub(crate) fn resolution_of<'a>(
    alloc: Global,
    ids: &IndexSet<ModuleId>,
    found: places::ResolvedTo<'a>,
) -> Result<Resolution, AllocError>
    ensures { IfOk result (λ resolution.
        resolution_says resolution ≡ resolution_read ids.now.keys found.entry) }
{
    match found {
        places::ResolvedTo::One(target) => one_target(alloc, ids, target),
        places::ResolvedTo::Two(first, second) => two_targets(alloc, ids, first, second),
        places::ResolvedTo::None => Ok(Resolution::None),
        places::ResolvedTo::ExternalStar => Ok(Resolution::ExternalStar),
    }
}

fn one_target<'a>(
    alloc: Global,
    ids: &IndexSet<ModuleId>,
    target: places::TargetRef<'a>,
) -> Result<Resolution, AllocError>
    ensures { IfOk result (λ resolution.
        resolution_says resolution ≡ single_target (target_read ids.now.keys target.entry)) }
{
    Ok(match target_of(alloc, ids, target)? {
        Some(target) => Resolution::One(target),
        None => Resolution::None,
    })
}

fn two_targets<'a>(
    alloc: Global,
    ids: &IndexSet<ModuleId>,
    first: places::TargetRef<'a>,
    second: places::TargetRef<'a>,
) -> Result<Resolution, AllocError>
    ensures { IfOk result (λ resolution.
        resolution_says resolution
        ≡ two (target_read ids.now.keys first.entry) (target_read ids.now.keys second.entry)) }
{
    let first = target_of(alloc, ids, first)?;
    let second = target_of(alloc, ids, second)?;
    Ok(match (first, second) {
        (Some(first), Some(second)) => Resolution::Two(first, second),
        _ => Resolution::None,
    })
}

// The target of a name; None where the place of a module is none.
fn target_of<'a>(
    alloc: Global,
    ids: &IndexSet<ModuleId>,
    target: places::TargetRef<'a>,
) -> Result<Option<Target>, AllocError>
    ensures { IfOk result (λ answer.
        option_map target_says answer ≡ target_read ids.now.keys target.entry) }
{
    match target {
        places::TargetRef::Declared { which, name } => declared(alloc, id_at(ids, which), name),
        places::TargetRef::Namespace { which } => Ok(match id_at(ids, which) {
            Some(id) => Some(Target::Namespace(id)),
            None => None,
        }),
        places::TargetRef::External { specifier, taken } => {
            let specifier = String::from_str(alloc, specifier)?;
            let name = name_in(alloc, taken)?;
            Ok(Some(Target::External(specifier, name)))
        }
        places::TargetRef::CommonJs {
            taker,
            which,
            taken,
        } => common_js_of(alloc, id_at(ids, taker), id_at(ids, which), taken),
    }
}

fn declared(alloc: Global, id: Option<ModuleId>, name: &str) -> Result<Option<Target>, AllocError>
    ensures { IfOk result (λ answer.
        option_map target_says answer ≡ option_map (λ n. Declared n name.now) id) }
{
    Ok(match id {
        Some(id) => Some(Target::Decl(id, String::from_str(alloc, name)?)),
        None => None,
    })
}

fn common_js_of<'a>(
    alloc: Global,
    taker: Option<ModuleId>,
    id: Option<ModuleId>,
    taken: Taken<'a>,
) -> Result<Option<Target>, AllocError>
    ensures { IfOk result (λ answer.
        option_map target_says answer ≡ common_js taker id (taken_of taken.entry)) }
{
    Ok(match (taker, id) {
        (Some(taker), Some(id)) => Some(Target::Cjs(taker, id, name_in(alloc, taken)?)),
        _ => None,
    })
}

fn id_at(ids: &IndexSet<ModuleId>, place: usize) -> Option<ModuleId>
    ensures { result ≡ slice_get ids.now.keys place }
{
    ids.get_index(place).copied()
}

fn name_in<'a>(alloc: Global, taken: Taken<'a>) -> Result<Option<String>, AllocError>
    ensures { IfOk result (λ name. taken_says name ≡ taken_of taken.entry) }
{
    Ok(match taken {
        Taken::Named(name) => Some(String::from_str(alloc, name)?),
        Taken::Whole => None,
    })
}
