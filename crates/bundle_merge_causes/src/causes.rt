//! The causes of a bundle's items, in their order.

ghost use Rattle.std.specs.Prelude.{◌≡◌, ◌++◌, ◌||◌, IfOk, List, OnOk, flat_map, length, map, zero};
ghost use Rattle.bundle_rules.specs.Bundle.{AsModule, Stars};
ghost use Rattle.bundle_rules.specs.Program.{Program};
ghost use Rattle.bundle_merge_theory.specs.planned.Decided.{AreDecided, DecidedBlock, numbers_from};
ghost use Rattle.bundle_merge_theory.specs.sound.Decided.{AreTablesLinked, has_some};
ghost use Rattle.bundle_merge_causes.specs.Told.{causes_told};
ghost use Rattle.bundle_merge_causes.specs.Shape.{count_in, meta_in};
ghost use Rattle.bundle_merge_causes.specs.Planned.{Adds, AreCausesDue, decided_in, handed_plan, whole_plan};

use crate::cause::{ItemCause, add, add_if};
use crate::front::add_front;
use crate::module::add_module;
use crate::shape::ModuleShape;
use bundle_link_targets::{Linking, TargetRef};
use std::alloc::{AllocError, Global};

/// What the items of a bundle are made for, in their order, where its modules have these shapes and stand in
/// post-order of requests (ECMA-262, 16.2.1.5.2), each by itself: all that is due, as a module or as one function's
/// call. Refused only where memory runs out.
pub fn causes_of(
    alloc: Global,
    linking: &Linking<'_>,
    shapes: &[ModuleShape],
    is_call: bool,
) -> Result<Vec<ItemCause>, AllocError>
    ensures { IfOk result (λ causes. (q : Program) (blocks : List DecidedBlock) →
        AreTablesLinked q (length shapes.now) linking.now (meta_in shapes.now) (count_in shapes.now) →
        AreDecided q AsModule (decided_in linking.now shapes.now blocks) →
        AreCausesDue q (length shapes.now) is_call causes.items) }
{
    let mut causes = Vec::new(alloc);
    add_front(alloc, linking, shapes, &mut causes)?;
    add_modules(linking, shapes, &mut causes)?;
    add_back(alloc, linking, shapes, is_call, &mut causes)?;
    Ok(causes)
}

// Adds the causes of the modules, each with the object of its namespace.
fn add_modules(
    linking: &Linking<'_>,
    shapes: &[ModuleShape],
    causes: &mut Vec<ItemCause>,
) -> Result<(), AllocError>
    ensures { OnOk result (Adds linking.now shapes.now
        (λ d. flat_map (whole_plan d) (numbers_from zero (length shapes.now)))
        (causes_told causes.old.items) (causes_told causes.new.items)) }
{
    for which in 0..shapes.len() {
        add_module(linking, shapes, which, causes)?;
    }
    Ok(())
}

// Adds the causes behind the modules: stars of externals, and what is handed out: always by one function's call, else
// where the last of the modules, the entry, links a name.
fn add_back(
    alloc: Global,
    linking: &Linking<'_>,
    shapes: &[ModuleShape],
    is_call: bool,
    causes: &mut Vec<ItemCause>,
) -> Result<(), AllocError>
    ensures { OnOk result (Adds linking.now shapes.now (λ d. handed_plan is_call d)
        (causes_told causes.old.items) (causes_told causes.new.items)) }
{
    add_stars(alloc, linking.external_stars(), causes)?;
    let links = links_some(linking.linked_names(shapes.len().saturating_sub(1)));
    add_if(is_handed_out(is_call, links), ItemCause::Exports, causes)
}

// Whether there are linked names.
fn links_some(names: &[(&str, TargetRef<'_>)]) -> bool
    ensures { result ≡ has_some names.now }
{
    if names.is_empty() {
        return false;
    }
    true
}

// Whether something is handed out: always by one function's call, else where a name is linked.
fn is_handed_out(is_call: bool, links: bool) -> bool
    ensures { result ≡ (is_call || links) }
{
    is_call || links
}

// Adds the causes of the stars of externals.
#[tactic(auto, using(crate::proofs::Adding::adding))]
fn add_stars(alloc: Global, stars: &[&str], causes: &mut Vec<ItemCause>) -> Result<(), AllocError>
    ensures { OnOk result (causes_told causes.new.items
        ≡ causes_told causes.old.items ++ map (λ star. Stars star.now) stars.now) }
{
    for star in stars {
        let specifier = String::from_str(alloc, *star)?;
        add(causes, ItemCause::ExternalStar { specifier })?;
    }
    Ok(())
}
