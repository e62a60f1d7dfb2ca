//! The JSON text of bundles.

ghost use Rattle.std.specs.Prelude.{◌≡◌, string_bytes, IfOk, IfErr, OnOk};
ghost use Rattle.bundle_tree_listed.specs.Tree.{module_item_items, module_items};
ghost use Rattle.bundle_json_form.specs.Texts.{AppendsForm};
ghost use Rattle.bundle_json_document.specs.Bundles.{bundle_name, AppendsBundle, IsBundlesText};

use bundle_json_form::{push_comma, push_quoted, push_tree};
use bundle_tree_ast::{Module, ModuleItem};
use bundle_tree_list::pieces;
use bundle_tree_names::error::Error;
use bundler_call::{Bundle, BundleKind};
use std::alloc::{AllocError, Global};
use std::slice;

/// The JSON text of the bundles: an array with an object for each, in their order, which has its number
/// as a text, its kind, its module and its name. Refused only for memory. Each bundle is to be of the
/// kind `Named`, and each is written as one.
pub fn bundles_text(alloc: Global, bundles: &[Bundle]) -> Result<String, Error>
    ensures text { IfOk result (λ text. IsBundlesText bundles.now (string_bytes text)) }
    ensures refused { IfErr result (λ refusal. refusal ≡ Error.OutOfMemory) }
{
    let mut text = String::new(alloc);
    text.push('[')?;
    let mut is_later = false;
    for bundle in bundles {
        push_comma(&mut text, is_later)?;
        push_object(alloc, &mut text, bundle)?;
        is_later = true;
    }
    text.push(']')?;
    Ok(text)
}

// Puts the object of a bundle behind a text.
fn push_object(alloc: Global, text: &mut String, bundle: &Bundle) -> Result<(), AllocError>
    ensures { OnOk result
        (AppendsBundle bundle.now (string_bytes text.old) (string_bytes text.new)) }
{
    let id = format!(in alloc; "{}", bundle.id)?;
    text.push_str("{\"id\":")?;
    push_quoted(alloc, text, id.as_str())?;
    text.push_str(",\"kind\":\"Named\",\"module\":")?;
    push_module(alloc, text, &bundle.module)?;
    text.push_str(",\"name\":")?;
    push_quoted(alloc, text, name_of(&bundle.kind))?;
    text.push('}')?;
    Ok(())
}

// Puts the form of a module behind a text, item by item, so that one item is listed at a time.
fn push_module(alloc: Global, text: &mut String, tree: &Module) -> Result<(), AllocError>
    ensures { OnOk result (AppendsForm (module_items 0 tree.now) (string_bytes text.old)
        (string_bytes text.new)) }
{
    text.push_str("{\"body\":[")?;
    let mut is_later = false;
    for item in &tree.body {
        push_comma(text, is_later)?;
        push_item(alloc, text, item)?;
        is_later = true;
    }
    text.push_str("],\"type\":\"Module\"}")?;
    Ok(())
}

// Puts the form of an item behind a text.
fn push_item(alloc: Global, text: &mut String, item: &ModuleItem) -> Result<(), AllocError>
    ensures { OnOk result (AppendsForm (module_item_items 0 item.now) (string_bytes text.old)
        (string_bytes text.new)) }
{
    let list = pieces(alloc, slice::from_ref(item))?;
    push_tree(alloc, text, list.as_slice())
}

// The name of a bundle of this kind.
fn name_of(kind: &BundleKind) -> &str
    ensures { result.now ≡ bundle_name kind.now }
{
    match kind {
        BundleKind::Named { name } | BundleKind::Lib { name } => name.as_str(),
        BundleKind::Dynamic => "",
    }
}
