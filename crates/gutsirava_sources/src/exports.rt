//! The names that a module exports and takes from others, with their places.

ghost use Rattle.std.specs.Prelude.{◌≡◌, ◌≤◌, ◌<◌, All, IfOk, IfSome, IsSomeAnd, OnOk, length, option_map, slice_get};
ghost use Rattle.gutsirava_sources.specs.Exports as ex;
ghost use Rattle.gutsirava_sources.specs.Exports.{IsExported, IsTakenName};
ghost use Rattle.gutsirava_sources.specs.Parts as parts;
ghost use Rattle.gutsirava_sources.specs.Places as places;

use crate::outline::{RequestForm, SourceOutline, SourceRequest};
use crate::pieces::{end_of, name_at, node_at, text_at};
use bundle_syntax::{Node, Piece, Role};
use std::alloc::{AllocError, Global};

/// A name that a module exports, and the piece that says so.
#[derive(Clone, Copy)]
pub struct Exported<'a> {
    pub name: &'a str,
    pub piece: usize,
    /// Whether it stands in a list without `from`, as the name of what the module itself declares.
    pub declared: Option<&'a str>,
}

/// A name that a module takes from another one, with the number of the request and the piece that says so.
#[derive(Clone, Copy)]
pub struct TakenName<'a> {
    pub name: &'a str,
    pub request: usize,
    pub piece: usize,
}

// What a walk knows of the nodes that are open.
#[derive(Clone, Copy)]
struct ExportWalk {
    depth: usize,
    // Whether a declaration that is exported is open.
    is_declaration: bool,
    // Whether a list of exports has a specifier.
    has_source: bool,
    // The depth of the function or class that is open in it.
    inner: Option<usize>,
}

/// The names that a module exports by itself, in the order of the text. What `export *` gives is not among them.
pub fn exports_of<'a>(alloc: Global, pieces: &[Piece<'a>]) -> Result<Vec<Exported<'a>>, AllocError>
    ensures { IfOk result (λ names. All (IsExported pieces.now) names.items) }
{
    let mut names = Vec::new(alloc);
    let mut walk = ExportWalk {
        depth: 0,
        is_declaration: false,
        has_source: false,
        inner: None,
    };
    let mut next = 0;
    for at in 0..pieces.len() {
        if at < next {
            continue;
        }
        if walk.depth == 1 && exports_nothing(node_at(pieces, at)) {
            next = end_of(pieces, at);
            continue;
        }
        add_exported(&mut names, pieces, at, walk)?;
        walk = walk_behind(pieces, at, walk);
    }
    Ok(names)
}

// Whether a node at the top of a module exports nothing.
fn exports_nothing(node: Option<Node<'_>>) -> bool {
    match node {
        Some(
            Node::ExportDecl
            | Node::NamedExport { .. }
            | Node::ExportDefaultDecl
            | Node::ExportDefaultExpr,
        ) => false,
        Some(_) => true,
        None => false,
    }
}

// Adds the name that the piece at a place exports, if it does.
fn add_exported<'a>(
    names: &mut Vec<Exported<'a>>,
    pieces: &[Piece<'a>],
    at: usize,
    walk: ExportWalk,
) -> Result<(), AllocError>
    requires { All (IsExported pieces.now) names.old.items }
    ensures { OnOk result (All (IsExported pieces.now) names.new.items) }
{
    match exported_at(pieces, at, walk) {
        Some(exported) => {
            names.push(exported)?;
            Ok(())
        }
        None => Ok(()),
    }
}

// What is known behind the piece at a place.
fn walk_behind(pieces: &[Piece<'_>], at: usize, walk: ExportWalk) -> ExportWalk {
    match pieces.get(at) {
        Some(Piece::Open { .. }) => walk_within(pieces, at, walk),
        Some(Piece::Close) => walk.out(),
        _ => walk,
    }
}

// What is known within the node that begins at a place.
fn walk_within(pieces: &[Piece<'_>], at: usize, walk: ExportWalk) -> ExportWalk {
    let mut walk = walk;
    match node_at(pieces, at) {
        Some(Node::ExportDecl) => walk.is_declaration = true,
        Some(Node::NamedExport { .. }) => walk.has_source = has_source(pieces, at),
        Some(
            Node::Function { .. }
            | Node::FnExpr
            | Node::ArrowExpr { .. }
            | Node::Class
            | Node::ClassExpr,
        ) => walk.inner = walk.inner_here(),
        _ => {}
    }
    walk.depth = walk.depth.saturating_add(1);
    walk
}

impl ExportWalk {
    // The depth of the function or class that is open in a declaration, where one begins here.
    fn inner_here(self) -> Option<usize> {
        if self.is_declaration && self.inner.is_none() {
            Some(self.depth)
        } else {
            self.inner
        }
    }

    // What is known behind the end of a node.
    fn out(self) -> ExportWalk {
        let mut walk = self;
        walk.depth = self.depth.saturating_sub(1);
        if self.inner == Some(walk.depth) {
            walk.inner = None;
        }
        if walk.depth <= 1 {
            walk.is_declaration = false;
        }
        walk
    }

    // Whether what is bound here is exported.
    fn binds_exports(self) -> bool {
        self.is_declaration && self.inner.is_none()
    }
}

// Whether an identifier is bound where it stands.
fn is_binding(role: Role) -> bool
    ensures { result ≡ ex.is_binding role }
{
    match role {
        Role::Binding => true,
        Role::Reference => false,
        Role::Word => false,
    }
}

// The name that the piece at a place exports.
#[tactic(auto, unfolding(crate::specs::Exports::name_of_piece, crate::specs::Places::node_in))]
fn exported_at<'a>(pieces: &[Piece<'a>], at: usize, walk: ExportWalk) -> Option<Exported<'a>>
    ensures { IfSome result (IsExported pieces.now) }
{
    match pieces.get(at) {
        Some(Piece::Ident { sym, role, .. }) => {
            if is_binding(*role) && walk.binds_exports() {
                Some(Exported {
                    name: *sym,
                    piece: at,
                    declared: None,
                })
            } else {
                None
            }
        }
        _ => match name_by(pieces, at) {
            Some(name) => Some(Exported {
                name,
                piece: at,
                declared: declared_by(pieces, at, walk.has_source),
            }),
            None => None,
        },
    }
}

// The name that the node at a place exports.
#[tactic(auto, unfolding(crate::specs::Exports::name_of_node))]
fn name_by<'a>(pieces: &[Piece<'a>], at: usize) -> Option<&'a str>
    ensures { option_map (λ name. name.now) result
        ≡ ex.name_of_node (places.node_at pieces.now at) pieces.now at }
{
    match node_at(pieces, at) {
        Some(Node::ExportDefaultDecl) => Some("default"),
        Some(Node::ExportDefaultExpr) => Some("default"),
        Some(Node::ExportNamespaceSpecifier) => name_at(pieces, at.saturating_add(1)),
        Some(Node::ExportNamedSpecifier) => listed_name(pieces, at.saturating_add(1)),
        _ => None,
    }
}

// The name that the specifier at a place says of what the module itself declares.
fn declared_by<'a>(pieces: &[Piece<'a>], at: usize, has_source: bool) -> Option<&'a str>
    ensures { IfSome result
        (λ name. parts.name_at pieces.now (places.behind at 1) ≡ Some name.now) }
{
    let is_specifier = matches!(
        node_at(pieces, at),
        Some(Node::ExportNamespaceSpecifier | Node::ExportNamedSpecifier)
    );
    if is_specifier && !has_source {
        name_at(pieces, at.saturating_add(1))
    } else {
        None
    }
}

// The name under which a specifier exports whose first name stands at a place: the second, where it has one.
fn listed_name<'a>(pieces: &[Piece<'a>], first: usize) -> Option<&'a str>
    ensures { option_map (λ name. name.now) result ≡ ex.listed_name pieces.now first }
{
    match name_at(pieces, end_of(pieces, first)) {
        Some(name) => Some(name),
        None => name_at(pieces, first),
    }
}

// Whether a list of exports that begins at a place has a specifier, which then stands right before its end.
fn has_source(pieces: &[Piece<'_>], at: usize) -> bool {
    text_at(pieces, end_of(pieces, at).saturating_sub(3)).is_some()
}

/// The names that a module takes from others, in the order of the text. Namespaces are not among them.
pub fn taken_of<'a>(
    alloc: Global,
    pieces: &[Piece<'a>],
    outline: &SourceOutline<'_>,
) -> Result<Vec<TakenName<'a>>, AllocError>
    ensures { IfOk result (λ taken.
        All (IsTakenName pieces.now outline.now.requests.items) taken.items) }
{
    let requests = outline.requests.as_slice();
    let mut taken = Vec::new(alloc);
    for number in 0..requests.len() {
        if requests[number].asking == RequestForm::Import {
            add_taken(&mut taken, pieces, requests, number)?;
        }
    }
    Ok(taken)
}

// Adds the names that the specifiers of a request take.
fn add_taken<'a>(
    taken: &mut Vec<TakenName<'a>>,
    pieces: &[Piece<'a>],
    requests: &[SourceRequest<'_>],
    number: usize,
) -> Result<(), AllocError>
    requires within { number < length requests.now }
    requires all { All (IsTakenName pieces.now requests.now) taken.old.items }
    ensures { OnOk result (All (IsTakenName pieces.now requests.now) taken.new.items) }
{
    let asked = requests[number];
    for piece in asked.begin..asked.place {
        add_name(taken, pieces, requests, number, piece)?;
    }
    Ok(())
}

// Adds the name that the specifier at a place takes, if one stands there.
fn add_name<'a>(
    taken: &mut Vec<TakenName<'a>>,
    pieces: &[Piece<'a>],
    requests: &[SourceRequest<'_>],
    number: usize,
    piece: usize,
) -> Result<(), AllocError>
    requires asked { IsSomeAnd (slice_get requests.now number)
        (λ request. (request.begin ≤ piece) × (piece < request.place)) }
    requires all { All (IsTakenName pieces.now requests.now) taken.old.items }
    ensures { OnOk result (All (IsTakenName pieces.now requests.now) taken.new.items) }
{
    match taken_name(pieces, piece) {
        Some(name) => {
            taken.push(TakenName {
                name,
                request: number,
                piece,
            })?;
            Ok(())
        }
        None => Ok(()),
    }
}

// The name that a specifier takes.
#[tactic(auto, unfolding(crate::specs::Exports::taken_by))]
fn taken_name<'a>(pieces: &[Piece<'a>], at: usize) -> Option<&'a str>
    ensures { option_map (λ name. name.now) result
        ≡ ex.taken_by (places.node_at pieces.now at) pieces.now at }
{
    match node_at(pieces, at) {
        Some(Node::ImportDefaultSpecifier) => Some("default"),
        Some(Node::ExportNamedSpecifier) => name_at(pieces, at.saturating_add(1)),
        // The imported name stands behind the local one.
        Some(Node::ImportNamedSpecifier) => imported_name(pieces, at),
        _ => None,
    }
}

// The name that a specifier imports that begins at a place.
fn imported_name<'a>(pieces: &[Piece<'a>], at: usize) -> Option<&'a str>
    ensures { option_map (λ name. name.now) result
        ≡ ex.name_or (parts.name_at pieces.now (places.behind at 2))
        (parts.name_at pieces.now (places.behind at 1)) }
{
    match name_at(pieces, at.saturating_add(2)) {
        Some(name) => Some(name),
        None => name_at(pieces, at.saturating_add(1)),
    }
}
