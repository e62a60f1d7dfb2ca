//! From the list of a tree to the compact text of its JSON form, with no value between them.

ghost use Rattle.std.specs.Prelude.{◌≡◌, ◌+◌, ◌^◌, ◌<◌, ◌≤◌, [], ◌∷◌, ◌++◌, length, map, string_bytes, IfNone, IfSome, OnOk, OnSome};
ghost use Rattle.bundle_syntax.specs.Item.{head_of, item_of};
ghost use Rattle.bundle_syntax.specs.declared.piece.Role.TheVariants.{Reference};
ghost use Rattle.serde_json.specs.Written.{compact_text, comma_if};
ghost use Rattle.json.specs.Print.{quoted};
ghost use Rattle.bundle_json_form.specs.Form.{ident, written};
ghost use Rattle.bundle_json_form.specs.declared.layout.Shape.TheVariants.{Optional as OneOrNone, List as AList};
ghost use Rattle.bundle_json_form.specs.Plan.{content_of, plan};
ghost use Rattle.bundle_json_form.specs.Texts.{AppendsContent, AppendsField, AppendsFirst, AppendsForm, AppendsObject, HasNoneIn, IsAfterFirst, IsFirstNode, context_text, depth_after, field_of_first, from};

use crate::layout::Shape;
use crate::plan::{Content, members_of};
use crate::quoted::push_quoted;
use bundle_syntax::{Node, Piece};
use std::alloc::{AllocError, Global};

/// Puts the compact text of the JSON form of a tree behind a text, by the tree's pieces. Refused only
/// for memory, and then a front of it may stand there. Of pieces of no tree some text is put there.
pub fn push_tree(alloc: Global, out: &mut String, pieces: &[Piece]) -> Result<(), AllocError>
    ensures { OnOk result
        (AppendsForm (map item_of pieces.now) (string_bytes out.old) (string_bytes out.new)) }
{
    push_first(alloc, out, pieces, 0)
}

// Puts in the form of the tree that begins at a place of the list.
#[cycle(push)]
fn push_first(
    alloc: Global,
    out: &mut String,
    pieces: &[Piece],
    at: usize,
) -> Result<(), AllocError>
    ensures { OnOk result
        (AppendsFirst (from at pieces.now) (string_bytes out.old) (string_bytes out.new)) }
{
    if at >= pieces.len() {
        return Ok(());
    }
    match &pieces[at] {
        Piece::Open { node, .. } => push_object(alloc, out, node, pieces, at + 1),
        Piece::Ident { sym, ctxt, .. } => push_ident(alloc, out, sym, *ctxt),
        Piece::Hole { .. } => out.push_str("null"),
        Piece::Close => Ok(()),
    }
}

// Puts in the object of a node whose inside begins at a place of the list.
#[cycle(push)]
fn push_object(
    alloc: Global,
    out: &mut String,
    node: &Node,
    pieces: &[Piece],
    at: usize,
) -> Result<(), AllocError>
    ensures { OnOk result (AppendsObject (plan (head_of node.now)) (from at pieces.now)
        (string_bytes out.old) (string_bytes out.new)) }
{
    let members = members_of(alloc, node)?;
    out.push('{')?;
    let mut is_later = false;
    for member in &members {
        push_key(alloc, out, is_later, member.key)?;
        push_content(alloc, out, member.content, pieces, at)?;
        is_later = true;
    }
    out.push('}')
}

// Puts in a key, behind a comma where something stands before it.
fn push_key(alloc: Global, out: &mut String, is_later: bool, key: &str) -> Result<(), AllocError>
    ensures { OnOk result
        (string_bytes out.new
        ≡ string_bytes out.old ++ comma_if is_later ++ quoted key.now ++ 58 ∷ []) }
{
    push_comma(out, is_later)?;
    push_quoted(alloc, out, key)?;
    out.push(':')
}

// Puts in what stands under a key.
#[cycle(push)]
fn push_content(
    alloc: Global,
    out: &mut String,
    content: Content<'_>,
    pieces: &[Piece],
    at: usize,
) -> Result<(), AllocError>
    ensures { OnOk result (AppendsContent (content_of content.entry) (from at pieces.now)
        (string_bytes out.old) (string_bytes out.new)) }
{
    match content {
        Content::Null => out.push_str("null"),
        Content::Truth(true) => out.push_str("true"),
        Content::Truth(false) => out.push_str("false"),
        Content::Text(text) => push_quoted(alloc, out, text),
        Content::Nodes(Shape::One, number) => push_only(alloc, out, number, pieces, at),
        Content::Nodes(Shape::Optional, number) => push_only(alloc, out, number, pieces, at),
        Content::Nodes(Shape::List, number) => push_list(alloc, out, number, pieces, at),
        Content::Nodes(Shape::Places, number) => push_list(alloc, out, number, pieces, at),
    }
}

// Puts in the node in the field of a number, or `null`.
#[cycle(push)]
fn push_only(
    alloc: Global,
    out: &mut String,
    number: u8,
    pieces: &[Piece],
    at: usize,
) -> Result<(), AllocError>
    ensures { OnOk result (AppendsField OneOrNone number (from at pieces.now)
        (string_bytes out.old) (string_bytes out.new)) }
{
    match first_in(number, pieces, at) {
        Some(child) => push_first(alloc, out, pieces, child),
        None => out.push_str("null"),
    }
}

// Puts in the list of the nodes in the field of a number.
#[cycle(push)]
fn push_list(
    alloc: Global,
    out: &mut String,
    number: u8,
    pieces: &[Piece],
    at: usize,
) -> Result<(), AllocError>
    ensures { OnOk result (AppendsField AList number (from at pieces.now)
        (string_bytes out.old) (string_bytes out.new)) }
{
    out.push('[')?;
    let mut child = at;
    let mut is_later = false;
    'children: while let Some(field) = field_at(pieces, child) {
        if field == number {
            push_comma(out, is_later)?;
            push_first(alloc, out, pieces, child)?;
            is_later = true;
        }
        child = after_first(pieces, child);
    }
    out.push(']')?;
    Ok(())
}

/// Puts a comma behind a text where something stands before it.
pub fn push_comma(out: &mut String, is_later: bool) -> Result<(), AllocError>
    ensures { OnOk result (string_bytes out.new ≡ string_bytes out.old ++ comma_if is_later) }
{
    if is_later {
        return out.push(',');
    }
    Ok(())
}

// Where the first of the nodes in the field of a number begins.
fn first_in(number: u8, pieces: &[Piece], at: usize) -> Option<usize>
    ensures found { IfSome result (λ child.
        IsFirstNode number (from at pieces.now) (from child pieces.now)) }
    ensures none { IfNone result (HasNoneIn number (from at pieces.now)) }
    ensures later { IfSome result (λ child. at ≤ child) }
{
    let mut child = at;
    'children: while let Some(field) = field_at(pieces, child) {
        if field == number {
            return Some(child);
        }
        child = after_first(pieces, child);
    }
    None
}

// The field that a node lies in, or none where the node around it ends.
fn field_at(pieces: &[Piece], at: usize) -> Option<u8>
    ensures field { result ≡ field_of_first (from at pieces.now) }
    ensures within { OnSome result (at < length pieces.now) }
{
    if at >= pieces.len() {
        return None;
    }
    match pieces[at] {
        Piece::Open { field, .. } => Some(field),
        Piece::Ident { field, .. } => Some(field),
        Piece::Hole { field } => Some(field),
        Piece::Close => None,
    }
}

// Where what follows the tree begins that begins at a place of the list.
fn after_first(pieces: &[Piece], at: usize) -> usize
    requires { at < length pieces.now }
    ensures rest { IsAfterFirst (from at pieces.now) (from result pieces.now) }
    ensures later { at < result }
{
    let mut rest = at;
    let mut opened: usize = 0;
    'pieces: while rest < pieces.len() {
        opened = count(&pieces[rest], opened);
        rest += 1;
        if opened == 0 {
            return rest;
        }
    }
    rest
}

// How many nodes are open behind a piece, where so many are before it.
fn count(piece: &Piece, opened: usize) -> usize
    requires { opened + 1 < 2 ^ 64 }
    ensures { result ≡ depth_after (item_of piece.now) opened }
{
    match piece {
        Piece::Open { .. } => opened + 1,
        Piece::Close => opened.saturating_sub(1),
        _ => opened,
    }
}

// Puts in the form of an identifier.
fn push_ident(alloc: Global, out: &mut String, sym: &str, ctxt: u32) -> Result<(), AllocError>
    ensures { OnOk result (string_bytes out.new
        ≡ string_bytes out.old ++ compact_text (written (ident sym.now ctxt Reference))) }
{
    out.push('{')?;
    push_context(alloc, out, ctxt)?;
    out.push_str("\"sym\":")?;
    push_quoted(alloc, out, sym)?;
    out.push_str(",\"type\":\"Ident\"}")?;
    Ok(())
}

// Puts in the member with a context, if it is not 0.
fn push_context(alloc: Global, out: &mut String, ctxt: u32) -> Result<(), AllocError>
    ensures { OnOk result (string_bytes out.new ≡ string_bytes out.old ++ context_text ctxt) }
{
    if ctxt == 0 {
        return Ok(());
    }
    let member = format!(in alloc; "\"ctxt\":{ctxt},")?;
    out.push_str(member.as_str())
}
