//! What stands in the object of a node, member by member in the order of their keys.

ghost use Rattle.std.specs.Prelude.{◌≡◌, IfOk, IfErr, OnOk};
ghost use Rattle.std.specs.Ordering.{nat_cmp};
ghost use Rattle.std.specs.Cmp.Lexicographic.{slice_cmp};
ghost use Rattle.bundle_syntax.specs.Item.{head_of};
ghost use Rattle.bundle_json_form.specs.Scalars.{scalar_of, scalars_in};
ghost use Rattle.bundle_json_form.specs.Plan.{content_of, plan, put_member as with_member, put_scalar as with_scalar, put_scalars as with_scalars, planned, BelongsAt, IsMemberAt};

use crate::layout::{Shape, fields_of, name_of};
use crate::scalar::{Scalar, Scalars, scalars_of};
use bundle_syntax::Node;
use std::alloc::{AllocError, Global};
use std::cmp::Ordering;

/// What stands under a key.
#[derive(Clone, Copy)]
pub enum Content<'a> {
    Null,
    Truth(bool),
    Text(&'a str),
    /// The nodes in the field of this number.
    Nodes(Shape, u8),
}

/// A member of an object that is to be written.
#[derive(Clone, Copy)]
pub struct Member<'a> {
    pub key: &'static str,
    pub content: Content<'a>,
}

/// The members of the object of a node, in the order of their keys.
pub fn members_of<'a>(alloc: Global, node: &Node<'a>) -> Result<Vec<Member<'a>>, AllocError>
    ensures { IfOk result (λ list. planned list.items ≡ plan (head_of node.now)) }
{
    let mut members = Vec::with_capacity(alloc, 8)?;
    put(&mut members, "type", Content::Text(name_of(node)))?;
    put_scalars(&mut members, scalars_of(node))?;
    for field in fields_of(node) {
        if let Some(field) = field {
            put(
                &mut members,
                field.key,
                Content::Nodes(field.shape, field.number),
            )?;
        }
    }
    Ok(members)
}

// Puts in what is no node.
fn put_scalars<'a>(members: &mut Vec<Member<'a>>, them: Scalars<'a>) -> Result<(), AllocError>
    ensures { OnOk result
        (planned members.new.items
        ≡ with_scalars (scalars_in them.entry) (planned members.old.items)) }
{
    match them {
        Scalars::Nothing => Ok(()),
        Scalars::Single(only) => put_scalar(members, only),
        Scalars::Pair(first, second) => {
            put_scalar(members, first)?;
            put_scalar(members, second)
        }
    }
}

fn put_scalar<'a>(members: &mut Vec<Member<'a>>, scalar: Scalar<'a>) -> Result<(), AllocError>
    ensures { OnOk result
        (planned members.new.items
        ≡ with_scalar (scalar_of scalar.entry) (planned members.old.items)) }
{
    match scalar {
        Scalar::Text(key, text) => put(members, key, Content::Text(text)),
        Scalar::OptionalText(key, Some(text)) => put(members, key, Content::Text(text)),
        Scalar::OptionalText(key, None) => put(members, key, Content::Null),
        Scalar::Truth(key, truth) => put(members, key, Content::Truth(truth)),
        Scalar::Given(_, _) => Ok(()),
    }
}

// Puts in a member, in the place of one of the same key if there is one.
fn put<'a>(
    members: &mut Vec<Member<'a>>,
    key: &'static str,
    content: Content<'a>,
) -> Result<(), AllocError>
    ensures { OnOk result
        (planned members.new.items
        ≡ with_member key.now (content_of content.entry) (planned members.old.items)) }
{
    match place_of(members.as_slice(), key) {
        Ok(place) => {
            members[place] = Member { key, content };
            Ok(())
        }
        Err(place) => {
            members.insert(place, Member { key, content })?;
            Ok(())
        }
    }
}

// The place of the member of a key, or else where it is to be put in.
fn place_of(members: &[Member<'_>], key: &'static str) -> Result<usize, usize>
    ensures there { IfOk result (IsMemberAt key.now (planned members.now)) }
    ensures free { IfErr result (BelongsAt key.now (planned members.now)) }
{
    for (place, member) in members.iter().enumerate() {
        match order(key, member.key) {
            Ordering::Less => return Err(place),
            Ordering::Equal => return Ok(place),
            Ordering::Greater => {}
        }
    }
    Err(members.len())
}

// The order of two texts. The words of a form mostly differ in their first byte.
fn order(text: &'static str, other: &'static str) -> Ordering
    ensures { result ≡ slice_cmp nat_cmp text.now other.now }
{
    let (bytes, others) = (text.as_bytes(), other.as_bytes());
    if bytes.is_empty() || others.is_empty() || bytes[0] == others[0] {
        return Ord::cmp(&text, &other);
    }
    if bytes[0] < others[0] {
        Ordering::Less
    } else {
        Ordering::Greater
    }
}
