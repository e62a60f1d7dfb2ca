//! The causes of one module, as linking has it.

ghost use Rattle.std.specs.Prelude.{◌≡◌, ◌++◌, ◌<◌, OnOk, length, map, zero};
ghost use Rattle.bundle_rules.specs.Bundle.{Loads, Own};
ghost use Rattle.bundle_merge_theory.specs.planned.Decided.{numbers_from};
ghost use Rattle.bundle_merge_causes.specs.Shape.{shape_at};
ghost use Rattle.bundle_merge_causes.specs.Told.{causes_told, es_causes, own_causes};
ghost use Rattle.bundle_merge_causes.specs.Planned.{Adds, whole_plan};

use crate::cause::{ItemCause, add, add_if};
use crate::shape::ModuleShape;
use bundle_link_targets::{Linking, Loaded};
use std::alloc::AllocError;

/// Adds the causes of a module, and of the object of its namespace.
pub(crate) fn add_module(
    linking: &Linking<'_>,
    shapes: &[ModuleShape],
    which: usize,
    causes: &mut Vec<ItemCause>,
) -> Result<(), AllocError>
    requires { which < length shapes.now }
    ensures { OnOk result (Adds linking.now shapes.now (λ d. whole_plan d which)
        (causes_told causes.old.items) (causes_told causes.new.items)) }
{
    let shape = shape_in(shapes, which);
    let is_common_js = linking.is_common_js(which);
    add_own(which, shape, is_common_js, linking.loads(which), causes)?;
    let object = ItemCause::NamespaceObject { module: which };
    add_if(linking.is_object_meant(which), object, causes)
}

// The shape of a module, that of an empty one where there is none.
fn shape_in(shapes: &[ModuleShape], which: usize) -> ModuleShape
    ensures { result ≡ shape_at shapes.now which }
{
    let empty = ModuleShape {
        has_import_meta: false,
        statements: 0,
    };
    shapes.get(which).copied().unwrap_or(empty)
}

// Adds the causes of a module by itself: its load function, or those of an ES module.
fn add_own(
    which: usize,
    shape: ModuleShape,
    is_common_js: bool,
    loads: &[Loaded<'_>],
    causes: &mut Vec<ItemCause>,
) -> Result<(), AllocError>
    ensures { OnOk result (causes_told causes.new.items
        ≡ causes_told causes.old.items ++ own_causes which shape is_common_js loads.now) }
{
    match is_common_js {
        true => add(causes, ItemCause::LoadFunction { module: which }),
        false => add_es(which, shape, loads, causes),
    }
}

// Adds the causes of an ES module: the object for its `import.meta`, what it loads, and its own statements.
#[tactic(auto, using(crate::proofs::Adding::adding))]
fn add_es(
    which: usize,
    shape: ModuleShape,
    loads: &[Loaded<'_>],
    causes: &mut Vec<ItemCause>,
) -> Result<(), AllocError>
    ensures { OnOk result (causes_told causes.new.items
        ≡ causes_told causes.old.items ++ es_causes which shape loads.now) }
{
    add_if(
        shape.has_import_meta,
        ItemCause::MetaObject { module: which },
        causes,
    )?;
    add_loads(which, loads, causes)?;
    add_statements(which, shape.statements, causes)
}

// Adds the causes of the statements by which a module loads CommonJS modules.
#[tactic(auto, using(crate::proofs::Adding::adding))]
fn add_loads(
    which: usize,
    loads: &[Loaded<'_>],
    causes: &mut Vec<ItemCause>,
) -> Result<(), AllocError>
    ensures { OnOk result (causes_told causes.new.items
        ≡ causes_told causes.old.items ++ map (λ load. Loads which load.which) loads.now) }
{
    for load in loads {
        let loaded = load.which;
        let module = which;
        add(causes, ItemCause::LoadStatement { module, loaded })?;
    }
    Ok(())
}

// Adds the causes of so many statements of a module.
fn add_statements(which: usize, count: usize, causes: &mut Vec<ItemCause>) -> Result<(), AllocError>
    ensures { OnOk result (causes_told causes.new.items
        ≡ causes_told causes.old.items ++ map (Own which) (numbers_from zero count)) }
{
    for statement in 0..count {
        let module = which;
        add(causes, ItemCause::OwnStatement { module, statement })?;
    }
    Ok(())
}
