//! What a linker adds, as items of a module.

ghost use Rattle.std.specs.Prelude.{◌≡◌, IfErr, IfOk, map};
ghost use Rattle.bundle_tree_names.specs.declared.error.Error.TheVariants.{OutOfMemory};
ghost use Rattle.bundle_tree_listed.specs.Tree.{each_stmt_items, module_item_items};
ghost use Rattle.bundle_rules.specs.Forms.{IsHelperItem, IsLoadItem, IsNamespaceItem};
ghost use Rattle.bundle_tree_places.specs.Marks.{ident_of};
ghost use Rattle.bundle_merge_injected.specs.Listed as Listed;
ghost use Rattle.bundle_merge_injected.specs.Listed.{helper_function, pair_of};
ghost use Rattle.bundle_merge_forms.specs.Named as named;
ghost use Rattle.bundle_merge_forms.specs.Named.{AreExportsApart, id_ident, prop_of};

use bundle_merge_injected::{
    HelperNames, LoadNames, Pair, helper as helper_function_of, load_function,
    namespace_object as object_of,
};
use bundle_tree::Id;
use bundle_tree_ast::{ExportMetadata, ModuleItem, Stmt};
use bundle_tree_names::Error;
use bundle_tree_places::Name;
use std::alloc::{AllocError, Global};

/// The helper by which CommonJS modules are loaded: `function helper(func) { var module; return function () {
/// if (!module) { module = { exports: {} }; func.call(module.exports, module, module.exports); }
/// return module.exports; }; }`. The caller sees to it that the names differ. Refused only where memory runs out.
pub fn helper_item(
    alloc: Global,
    helper: Id,
    func: Id,
    module_object: Id,
) -> Result<ModuleItem, Error>
    ensures listed { IfOk result (λ item. module_item_items 0 item
        ≡ helper_function (id_ident helper) (id_ident func) (id_ident module_object)) }
    ensures built { IfOk result (λ item. IsHelperItem (id_ident helper) (id_ident func)
        (id_ident module_object) (module_item_items 0 item)) }
    ensures refused { IfErr result (λ refusal. refusal ≡ OutOfMemory) }
{
    let names = HelperNames {
        helper: name_of(&helper),
        func: name_of(&func),
        module_object: name_of(&module_object),
    };
    let made = helper_function_of(alloc, names)?;
    Ok(ModuleItem::Stmt(made))
}

/// The function of a CommonJS module with these statements: `var load = helper(function (module, exports) { .. });`.
/// The caller sees to it that the names differ. Refused only where memory runs out.
pub fn wrap_cjs_module(
    alloc: Global,
    load: Id,
    helper: Id,
    module_object: Id,
    exports: Id,
    stmts: Vec<Stmt>,
) -> Result<ModuleItem, Error>
    ensures listed { IfOk result (λ item. module_item_items 0 item
        ≡ Listed.load_function (id_ident load) (id_ident helper) (id_ident module_object)
        (id_ident exports) (each_stmt_items 0 stmts)) }
    ensures built { IfOk result (λ item. IsLoadItem (id_ident load) (id_ident helper)
        (id_ident module_object) (id_ident exports) (each_stmt_items 0 stmts)
        (module_item_items 0 item)) }
    ensures refused { IfErr result (λ refusal. refusal ≡ OutOfMemory) }
{
    let names = LoadNames {
        load: name_of(&load),
        helper: name_of(&helper),
        module_object: name_of(&module_object),
        exports: name_of(&exports),
    };
    let made = load_function(alloc, names, stmts)?;
    Ok(ModuleItem::Stmt(made))
}

/// The object of a namespace (ECMA-262, 10.4.6), noted as the linker's own: `const object = function () { return
/// { k: l, .. }; }();`. The caller hands in distinct keys, ascending. Refused only where memory runs out.
pub fn namespace_object(
    alloc: Global,
    object: Id,
    props: &[(String, Id)],
) -> Result<ModuleItem, Error>
    ensures listed { IfOk result (λ item. module_item_items 0 item
        ≡ Listed.namespace_object named.injected (id_ident object) (map prop_of props.now)) }
    ensures built { AreExportsApart (map prop_of props.now) → IfOk result
        (λ item. IsNamespaceItem (id_ident object) (map prop_of props.now)
        (module_item_items 0 item)) }
    ensures refused { IfErr result (λ refusal. refusal ≡ OutOfMemory) }
{
    let pairs = pairs_of(alloc, props)?;
    let notes = ExportMetadata {
        injected: true,
        export_ctxt: None,
    };
    let made = object_of(alloc, name_of(&object), &pairs, notes)?;
    Ok(ModuleItem::Stmt(made))
}

// The names, borrowed.
fn pairs_of<'a>(alloc: Global, props: &'a [(String, Id)]) -> Result<Vec<Pair<'a>>, AllocError>
    ensures { IfOk result (λ pairs. map pair_of pairs.items ≡ map prop_of props.now) }
{
    let mut pairs = Vec::new(alloc);
    for prop in props {
        let pair = Pair {
            name: prop.0.as_str(),
            local: name_of(&prop.1),
        };
        pairs.push(pair)?;
    }
    Ok(pairs)
}

// The name, borrowed.
fn name_of<'a>(id: &'a Id) -> Name<'a>
    ensures { ident_of result ≡ id_ident id.now }
{
    Name {
        sym: id.sym(),
        ctxt: id.ctxt().as_u32(),
    }
}
