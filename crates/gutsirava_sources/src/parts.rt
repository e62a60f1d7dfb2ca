//! Which parts of a module a declaration asks for.

ghost use Rattle.std.specs.Prelude.{◌≡◌, slice_get};
ghost use Rattle.gutsirava_sources.specs.Parts as asked;
ghost use Rattle.gutsirava_sources.specs.Places as places;

use crate::outline::SourceRequest;
use crate::pieces::{is_member, name_at, node_at, node_before};
use bundle_syntax::{Node, Piece, Role};

/// Which parts of a module a declaration asks for.
#[derive(Clone, Copy)]
pub struct RequestParts {
    /// Its default export, by that name.
    pub default: bool,
    /// Its namespace, of which only properties are read, none of them `default`.
    pub properties: bool,
    /// Its namespace as a value.
    pub namespace: bool,
    /// All of its names.
    pub star: bool,
}

/// One part of a module.
#[derive(Clone, Copy)]
pub(crate) enum RequestPart {
    Names,
    Default,
    Properties,
    Namespace,
}

/// Which parts the declaration of a request asks for.
pub fn parts_of(pieces: &[Piece<'_>], request: &SourceRequest<'_>) -> RequestParts
    ensures default { result.default
        ≡ asked.asks_for pieces.now RequestPart.Default request.now.begin request.now.place }
    ensures properties { result.properties
        ≡ asked.asks_for pieces.now RequestPart.Properties request.now.begin request.now.place }
    ensures namespace { result.namespace
        ≡ asked.asks_for pieces.now RequestPart.Namespace request.now.begin request.now.place }
    ensures star { result.star
        ≡ asked.is_star_node (places.node_at pieces.now request.now.begin) }
{
    RequestParts {
        default: asks_for(pieces, RequestPart::Default, request),
        properties: asks_for(pieces, RequestPart::Properties, request),
        namespace: asks_for(pieces, RequestPart::Namespace, request),
        star: is_star(node_at(pieces, request.begin)),
    }
}

/// Whether a node is `export * from`.
#[tactic(auto, unfolding(crate::specs::Parts::is_star_node))]
pub(crate) fn is_star(node: Option<Node<'_>>) -> bool
    ensures { result ≡ asked.is_star_node node.entry }
{
    matches!(node, Some(Node::ExportAll { .. }))
}

/// Whether the declaration of a request asks for a part.
pub(crate) fn asks_for(pieces: &[Piece<'_>], part: RequestPart, request: &SourceRequest<'_>) -> bool
    ensures { result ≡ asked.asks_for pieces.now part request.now.begin request.now.place }
{
    let begin = request.begin;
    let place = request.place;
    for at in begin..place {
        if asks_at(pieces, part, at) {
            return true;
        }
    }
    false
}

/// Whether a specifier of this part begins at a place.
pub(crate) fn asks_at(pieces: &[Piece<'_>], part: RequestPart, at: usize) -> bool
    ensures { result ≡ asked.asks_at pieces.now part at }
{
    match part_of(pieces, at) {
        Some(found) => is_same(found, part),
        None => false,
    }
}

/// Whether two parts are one.
pub(crate) fn is_same(one: RequestPart, other: RequestPart) -> bool
    ensures { result ≡ asked.is_same one other }
{
    match one {
        RequestPart::Names => matches!(other, RequestPart::Names),
        RequestPart::Default => matches!(other, RequestPart::Default),
        RequestPart::Properties => matches!(other, RequestPart::Properties),
        RequestPart::Namespace => matches!(other, RequestPart::Namespace),
    }
}

// The part that the specifier at a place asks for, if one begins there.
#[tactic(auto, unfolding(crate::specs::Parts::part_by))]
fn part_of(pieces: &[Piece<'_>], at: usize) -> Option<RequestPart>
    ensures { result ≡ asked.part_of pieces.now at }
{
    match node_at(pieces, at) {
        Some(Node::ImportDefaultSpecifier) => Some(RequestPart::Default),
        Some(Node::ExportNamespaceSpecifier) => Some(RequestPart::Namespace),
        Some(Node::ImportStarAsSpecifier) => Some(star_part(pieces, at.saturating_add(1))),
        // The imported name stands behind the local one.
        Some(Node::ImportNamedSpecifier) => Some(named_part(pieces, at.saturating_add(2))),
        Some(Node::ExportNamedSpecifier) => Some(named_part(pieces, at.saturating_add(1))),
        _ => None,
    }
}

// The part that is asked for by the name at a place.
fn named_part(pieces: &[Piece<'_>], at: usize) -> RequestPart
    ensures { result ≡ asked.named_part (asked.name_at pieces.now at) }
{
    match name_at(pieces, at) {
        Some(name) => if name == "default" {
            RequestPart::Default
        } else {
            RequestPart::Names
        },
        None => RequestPart::Names,
    }
}

// The part that a namespace is whose local name stands at a place.
fn star_part(pieces: &[Piece<'_>], at: usize) -> RequestPart
    ensures { result ≡ asked.star_part pieces.now (asked.name_at pieces.now at) }
{
    match name_at(pieces, at) {
        Some(local) => if reads_properties(pieces, local) {
            RequestPart::Properties
        } else {
            RequestPart::Namespace
        },
        None => RequestPart::Namespace,
    }
}

// Whether each name of this text that refers to something is an object of which a property is read, and that never
// `default`.
fn reads_properties(pieces: &[Piece<'_>], local: &str) -> bool
    ensures { result ≡ asked.reads_properties pieces.now local.now }
{
    for at in 0..pieces.len() {
        if is_value(pieces, at, local) {
            return false;
        }
    }
    true
}

// Whether a name of this text stands at a place, and refers to something of which no property is read, or `default`.
fn is_value(pieces: &[Piece<'_>], at: usize, local: &str) -> bool
    ensures { result ≡ asked.is_value pieces.now local.now at }
{
    is_reference(pieces, at, local) && !is_read(pieces, at)
}

// Whether a name of this text stands at a place, and refers to something.
#[tactic(auto, unfolding(crate::specs::Parts::is_reference_in))]
fn is_reference(pieces: &[Piece<'_>], at: usize, local: &str) -> bool
    ensures { result ≡ asked.is_reference_in local.now (slice_get pieces.now at) }
{
    match pieces.get(at) {
        Some(Piece::Ident { sym, role, .. }) => refers(*role) && *sym == local,
        _ => false,
    }
}

fn refers(role: Role) -> bool
    ensures { result ≡ asked.refers role }
{
    match role {
        Role::Reference => true,
        Role::Binding => false,
        Role::Word => false,
    }
}

// Whether a property that is not `default` is read of the name at a place.
fn is_read(pieces: &[Piece<'_>], at: usize) -> bool
    ensures { result ≡ asked.is_read pieces.now at }
{
    is_member(node_before(pieces, at)) && is_other_word(node_at(pieces, at.saturating_add(1)))
}

// Whether a node is a word that is not `default`.
#[tactic(auto, unfolding(crate::specs::Parts::is_other_word))]
fn is_other_word(node: Option<Node<'_>>) -> bool
    ensures { result ≡ asked.is_other_word node.entry }
{
    match node {
        Some(Node::IdentName { sym }) => sym != "default",
        _ => false,
    }
}
