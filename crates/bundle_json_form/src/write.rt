//! From the list of a tree to its JSON form.

ghost use Rattle.std.specs.Prelude.{◌≡◌, [], map, option_map, OnOk, IfOk};
ghost use Rattle.serde_json.specs.View.{view};
ghost use Rattle.bundle_syntax.specs.Item.{head_of, item_of};
ghost use Rattle.bundle_syntax.specs.declared.piece.Role.TheVariants.{Reference};
ghost use Rattle.bundle_json_form.specs.Form.{written, ident, IsFormWritten};
ghost use Rattle.bundle_json_form.specs.Writing.{child_of, frames, with_child, first_child_in, after_first_in, all_in, after_all_in, value_in, rest_in, node_form};

use crate::layout::{Field, Shape, fields_of, name_of};
use crate::scalar::Object;
use bundle_syntax::{Node, Piece};
use serde_json::Value;
use std::alloc::{AllocError, Global};
use std::collections::VecDeque;

/// A node that is still open: the field of its parent that it lies in, and the values of the nodes in
/// it so far, each with the number of its field.
#[derive(Drop)]
pub struct OpenNode<'a> {
    field: u8,
    node: Node<'a>,
    children: VecDeque<(u8, Value)>,
}

/// The JSON form of the tree with these pieces, `null` where they are those of no tree. Refused only for
/// memory.
pub fn tree_value(alloc: Global, pieces: &[Piece]) -> Result<Value, AllocError>
    ensures { IfOk result (λ value. IsFormWritten (view value) (map item_of pieces.now)) }
{
    let mut open: Vec<OpenNode> = Vec::new(alloc);
    for piece in pieces {
        match piece {
            Piece::Open { field, node } => open.push(OpenNode {
                field: *field,
                node: *node,
                children: VecDeque::new(alloc),
            })?,
            Piece::Ident {
                field,
                sym,
                ctxt,
                ..
            } => {
                let ident = ident_value(alloc, sym, *ctxt)?;
                add(&mut open, *field, ident)?;
            }
            Piece::Hole { field } => add(&mut open, *field, Value::Null)?,
            Piece::Close => {
                let Some(node) = open.pop() else {
                    return Ok(Value::Null);
                };
                let field = node.field;
                let value = node_value(alloc, node)?;
                if open.is_empty() {
                    return Ok(value);
                }
                add(&mut open, field, value)?;
            }
        }
    }
    Ok(Value::Null)
}

// Adds a value to the innermost of the open nodes.
fn add(nodes: &mut Vec<OpenNode>, field: u8, value: Value) -> Result<(), AllocError>
    ensures { OnOk result
        (frames nodes.new.items ≡ with_child (field, view value) (frames nodes.old.items)) }
{
    if let Some(mut parent) = nodes.pop() {
        parent.children.push_back((field, value))?;
        nodes.push(parent)?;
    }
    Ok(())
}

fn ident_value(alloc: Global, sym: &str, ctxt: u32) -> Result<Value, AllocError>
    ensures { IfOk result (λ value. view value ≡ written (ident sym.now ctxt Reference)) }
{
    let mut object = Object::new(alloc);
    object.put_text("type", "Ident")?;
    object.put_text("sym", sym)?;
    if ctxt != 0 {
        object.put("ctxt", Value::from(ctxt))?;
    }
    Ok(object.into_value())
}

fn node_value(alloc: Global, node: OpenNode) -> Result<Value, AllocError>
    ensures { IfOk result (λ value.
        view value
        ≡ node_form (head_of node.entry.node) (map child_of node.entry.children.items)) }
{
    let OpenNode {
        node,
        mut children,
        ..
    } = node;
    let mut object = Object::new(alloc);
    object.put_text("type", name_of(&node))?;
    object.put_scalars(&node)?;
    for field in fields_of(&node) {
        if let Some(field) = field {
            let value = field_value(alloc, &mut children, field)?;
            object.put(field.key, value)?;
        }
    }
    Ok(object.into_value())
}

// What stands under the key of a field, taken from the front of `children`.
fn field_value(
    alloc: Global,
    children: &mut VecDeque<(u8, Value)>,
    field: Field,
) -> Result<Value, AllocError>
    ensures value { IfOk result (λ value.
        view value ≡ value_in field.shape field.number (map child_of children.old.items)) }
    ensures rest { OnOk result
        (map child_of children.new.items
        ≡ rest_in field.shape field.number (map child_of children.old.items)) }
{
    match field.shape {
        Shape::One => Ok(take(children, field.number).unwrap_or(Value::Null)),
        Shape::Optional => Ok(take(children, field.number).unwrap_or(Value::Null)),
        Shape::List => Ok(Value::Array(take_all(alloc, children, field.number)?)),
        Shape::Places => Ok(Value::Array(take_all(alloc, children, field.number)?)),
    }
}

// The first of the values, if it lies in the field.
fn take(children: &mut VecDeque<(u8, Value)>, field: u8) -> Option<Value>
    ensures value { option_map view result
        ≡ first_child_in field (map child_of children.old.items) }
    ensures rest { map child_of children.new.items
        ≡ after_first_in field (map child_of children.old.items) }
{
    match children.front() {
        Some((number, _)) if *number == field => match children.pop_front() {
            Some((_, value)) => Some(value),
            None => None,
        },
        _ => None,
    }
}

// The first of the values, as far as they lie in the field.
fn take_all(
    alloc: Global,
    children: &mut VecDeque<(u8, Value)>,
    field: u8,
) -> Result<Vec<Value>, AllocError>
    ensures values { IfOk result (λ list.
        map view list.items ≡ all_in field (map child_of children.old.items)) }
    ensures rest { OnOk result
        (map child_of children.new.items ≡ after_all_in field (map child_of children.old.items)) }
{
    let mut list = Vec::new(alloc);
    while let Some(value) = take(children, field) {
        list.push(value)?;
    }
    Ok(list)
}
