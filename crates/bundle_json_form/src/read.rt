//! From the JSON form of a tree to its list.

ghost use Rattle.std.specs.Prelude.{◌≡◌, [], ◌∷◌, ◌++◌, List, Some, map, codes, IfErr, IfOk, OnOk, IsSomeAnd};
ghost use Rattle.serde_json.specs.Find.{as_array, get};
ghost use Rattle.bundle_syntax.specs.Item.{head_of, item_of, Item};
ghost use Rattle.bundle_json_form.specs.Form.{text_at, top, values, place_in as place_of_field, IsForm, AreForms};
ghost use Rattle.bundle_json_form.specs.Layout.{layout_field};
ghost use Rattle.bundle_json_form.specs.Reading.{GrowsBy, HasNoField, HasNoNode, HasNoNodes, RefusesReading};
ghost use Rattle.bundle_json_form.specs.declared.error.FormError.TheVariants.{OutOfMemory};
ghost use Rattle.bundle_json_form.specs.Plain.{items_seen, seen};

use crate::error::FormError;
use crate::layout::{Field, Shape, fields_of};
use crate::node::NodeValue;
use crate::role::{NodePlace, role_in, role_of_ident};
use crate::seen::{get as get_in, is_null, is_same, items};
use bundle_syntax::kind::ExportMetadata;
use bundle_syntax::{Node, Piece, Role};
use json::Value;
use std::alloc::Global;

/// The pieces of the module whose JSON form `value` is; its declarations have the notes `meta`. Refused
/// only where it is the form of none, and for memory.
pub fn read_module<'v, 'a>(
    alloc: Global,
    value: &'v Value<'a>,
    meta: &'a ExportMetadata,
) -> Result<Vec<Piece<'a>>, FormError>
    ensures read { IfOk result (λ list.
        IsForm meta.now top (seen value.now) (map item_of list.items)) }
    ensures only { IfOk result (λ list. (other : List Item) →
        IsForm meta.now top (seen value.now) other → other ≡ map item_of list.items) }
    ensures refused { IfErr result (RefusesReading
        ((list : List Item) → ¬ IsForm meta.now top (seen value.now) list)) }
{
    let mut pieces = Vec::new(alloc);
    read_node(&mut pieces, NodeValue { value, meta }, NodePlace::top())?;
    Ok(pieces)
}

/// The pieces of the properties whose JSON forms stand in the list `value`, each in field 0. Refused
/// only where it is no list of forms, and for memory.
pub fn read_properties<'v, 'a>(
    alloc: Global,
    value: &'v Value<'a>,
    meta: &'a ExportMetadata,
) -> Result<Vec<Piece<'a>>, FormError>
    ensures read { IfOk result (λ list. IsSomeAnd (as_array (seen value.now))
        (λ forms. AreForms meta.now top forms (map item_of list.items))) }
    ensures only { IfOk result (λ list. (other : List Item) →
        IsSomeAnd (as_array (seen value.now)) (λ forms. AreForms meta.now top forms other)
        → other ≡ map item_of list.items) }
    ensures refused { IfErr result (RefusesReading
        ((list : List Item) → ¬ IsSomeAnd (as_array (seen value.now))
        (λ forms. AreForms meta.now top forms list))) }
{
    let mut pieces = Vec::new(alloc);
    let Some(list) = items(value) else {
        return Err(FormError::Form);
    };
    read_list(&mut pieces, list, meta, NodePlace::top())?;
    Ok(pieces)
}

fn add<'a>(pieces: &mut Vec<Piece<'a>>, piece: Piece<'a>) -> Result<(), FormError>
    ensures added { OnOk result
        (map item_of pieces.new.items
        ≡ map item_of pieces.old.items ++ item_of piece.entry ∷ []) }
    ensures refused { IfErr result (λ refusal. refusal ≡ OutOfMemory) }
{
    pieces.push(piece)?;
    Ok(())
}

// Adds the node that the object stands for.
#[cycle(read)]
fn read_node<'v, 'a>(
    pieces: &mut Vec<Piece<'a>>,
    object: NodeValue<'v, 'a>,
    place: NodePlace,
) -> Result<(), FormError>
    ensures read { OnOk result
        (GrowsBy (IsForm object.entry.meta.now place (seen object.entry.value.now))
        (map item_of pieces.old.items) (map item_of pieces.new.items)) }
    ensures refused { IfErr result (RefusesReading
        (HasNoNode object.entry.meta.now place (seen object.entry.value.now))) }
{
    let name = object.text("type")?;
    if is_same(name, "Ident") {
        return read_ident(pieces, object, place);
    }
    let node = object.node(name)?;
    let field = place.field;
    add(pieces, Piece::Open { field, node })?;
    for field in fields_of(&node) {
        if let Some(field) = field {
            read_field(pieces, object, &node, place.names, field)?;
        }
    }
    add(pieces, Piece::Close)
}

// Adds the identifier that the object stands for.
fn read_ident<'v, 'a>(
    pieces: &mut Vec<Piece<'a>>,
    object: NodeValue<'v, 'a>,
    place: NodePlace,
) -> Result<(), FormError>
    requires { text_at (codes "type") (seen object.value.now) ≡ Some (codes "Ident") }
    ensures read { OnOk result
        (GrowsBy (IsForm object.entry.meta.now place (seen object.entry.value.now))
        (map item_of pieces.old.items) (map item_of pieces.new.items)) }
    ensures refused { IfErr result (RefusesReading
        (HasNoNode object.entry.meta.now place (seen object.entry.value.now))) }
{
    let sym = object.text("sym")?;
    let NodePlace {
        field,
        ident: role,
        ..
    } = place;
    add(
        pieces,
        Piece::Ident {
            field,
            sym,
            ctxt: 0,
            role,
        },
    )
}

// Where the nodes in a field of `node` stand, whose names as a pattern are `names`.
fn place_in(object: NodeValue<'_, '_>, node: &Node, names: Role, field: Field) -> NodePlace
    ensures { result
        ≡ place_of_field (head_of node.now) names (seen object.entry.value.now)
        (layout_field field) }
{
    let number = field.number;
    NodePlace {
        field: number,
        ident: role_of_ident(node, number, names),
        names: role_in(node, number, names, object.has("src")),
        has_holes: match field.shape {
            Shape::Places => true,
            _ => false,
        },
    }
}

// Adds what stands in a field of a node.
#[cycle(read)]
fn read_field<'v, 'a>(
    pieces: &mut Vec<Piece<'a>>,
    object: NodeValue<'v, 'a>,
    node: &Node<'a>,
    names: Role,
    field: Field,
) -> Result<(), FormError>
    ensures read { OnOk result (IsSomeAnd
        (values field.shape (get field.key.now (seen object.entry.value.now)))
        (λ forms. GrowsBy
        (AreForms object.entry.meta.now
        (place_of_field (head_of node.now) names (seen object.entry.value.now) (layout_field field))
        forms)
        (map item_of pieces.old.items) (map item_of pieces.new.items))) }
    ensures refused { IfErr result (RefusesReading
        (HasNoField object.entry.meta.now
        (place_of_field (head_of node.now) names (seen object.entry.value.now) (layout_field field))
        field.shape (get field.key.now (seen object.entry.value.now)))) }
{
    let place = place_in(object, node, names, field);
    let meta = object.meta;
    let Some(value) = get_in(object.value, field.key) else {
        return match field.shape {
            Shape::One => Err(FormError::Form),
            Shape::Optional | Shape::List | Shape::Places => Ok(()),
        };
    };
    match field.shape {
        Shape::One => read_node(pieces, NodeValue { value, meta }, place),
        Shape::Optional => {
            if is_null(value) {
                Ok(())
            } else {
                read_node(pieces, NodeValue { value, meta }, place)
            }
        }
        Shape::List | Shape::Places => match items(value) {
            Some(list) => read_list(pieces, list, meta, place),
            None => Err(FormError::Form),
        },
    }
}

// Adds the nodes of a list.
#[cycle(read)]
fn read_list<'v, 'a>(
    pieces: &mut Vec<Piece<'a>>,
    list: &'v [Value<'a>],
    meta: &'a ExportMetadata,
    place: NodePlace,
) -> Result<(), FormError>
    ensures read { OnOk result (GrowsBy (AreForms meta.now place (items_seen list.now))
        (map item_of pieces.old.items) (map item_of pieces.new.items)) }
    ensures refused { IfErr result (RefusesReading
        (HasNoNodes meta.now place (items_seen list.now))) }
{
    for value in list {
        if place.has_holes && is_null(value) {
            let field = place.field;
            add(pieces, Piece::Hole { field })?;
        } else {
            read_node(pieces, NodeValue { value, meta }, place)?;
        }
    }
    Ok(())
}
