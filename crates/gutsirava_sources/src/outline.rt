//! What a module asks for, and by what it is told what it is.

ghost use Rattle.std.specs.Prelude.{◌≡◌, ◌+◌, ◌^◌, ◌<◌, ◌≤◌, All, IfOk, IfSome, OnOk, length};
ghost use Rattle.gutsirava_sources.specs.Outline.{IsRequest, literal_at, part_text};
ghost use Rattle.gutsirava_sources.specs.Places as places;
ghost use Rattle.std.specs.List.Sorted.{IsNonDecreasing};

use crate::pieces::{contains, end_of, is_end, is_key, is_member, is_name, node_at};
use bundle_scope_denote::{Denoted, ModuleKind, Reading, denotations};
use bundle_syntax::{MetaPropKind, Node, Piece};
use std::alloc::{AllocError, Global};

/// How another module is asked for.
#[derive(Clone, Copy, PartialEq, Eq)]
pub enum RequestForm {
    /// By an `import` or `export` declaration.
    Import,
    /// By a call of `require` where that is no name of the module's own.
    Require,
    /// By `import()`.
    Dynamic,
}

/// A module that is asked for by a literal.
#[derive(Clone, Copy)]
pub struct SourceRequest<'a> {
    pub specifier: &'a str,
    pub asking: RequestForm,
    /// The piece with which the declaration or the call begins.
    pub begin: usize,
    /// The piece with which the specifier begins, and the one behind it.
    pub place: usize,
    pub behind: usize,
    /// Whether it stands in a `try`, or its promise has a `catch`.
    pub is_tried: bool,
}

/// What a module asks for, and by what it is told what it is.
pub struct SourceOutline<'a> {
    /// In the order of the text.
    pub requests: Vec<SourceRequest<'a>>,
    /// Whether it has an import or an export.
    pub has_declarations: bool,
    /// The piece of its first `import.meta`.
    pub meta: Option<usize>,
    /// Whether `require`, `module` or `exports` stands in it where nothing binds it.
    pub names_common_js: bool,
    /// The pieces of `import()` of what is no literal, and of `require()` of it that stands in no `try`.
    pub unknown: Vec<usize>,
    /// The pieces of `require.main`, ascending.
    pub mains: Vec<usize>,
    ghost ascending: { IsNonDecreasing mains.items },
}

impl Drop for SourceOutline<'_> {
    fn drop(self) {
        let SourceOutline {
            requests: _requests,
            has_declarations: _has_declarations,
            meta: _meta,
            names_common_js: _names_common_js,
            unknown: _unknown,
            mains: _mains,
        } = self;
    }
}

// What a node is for what lies in it.
#[derive(Clone, Copy, PartialEq, Eq)]
enum Sort {
    // A declaration that may have a specifier.
    From,
    Try,
    Other,
}

// A node that is open.
#[derive(Clone, Copy)]
struct Around {
    begin: usize,
    sort: Sort,
    is_tried: bool,
}

/// What a module asks for. Refused only for memory.
pub fn outline_of<'a>(alloc: Global, pieces: &[Piece<'a>]) -> Result<SourceOutline<'a>, AllocError>
    ensures { IfOk result (λ outline. All (IsRequest pieces.now) outline.requests.items) }
{
    let signs = signs_of(pieces);
    let free = free_names(alloc, pieces, signs.has_common_js_name)?;
    let mains = mains_of(alloc, pieces, free.as_slice())?;
    let walk = walk_of(alloc, pieces, free.as_slice())?;
    Ok(SourceOutline {
        requests: walk.requests,
        has_declarations: signs.has_declarations,
        meta: signs.meta,
        names_common_js: !free.is_empty(),
        unknown: walk.unknown,
        mains,
    })
}

// What single pieces of a module tell.
#[derive(Clone, Copy)]
struct PieceSigns {
    // Whether it has an import or an export.
    has_declarations: bool,
    // The place of its first `import.meta`.
    meta: Option<usize>,
    // Whether a `require`, `module` or `exports` stands in it.
    has_common_js_name: bool,
}

// What the pieces of a module tell, each by itself.
fn signs_of(pieces: &[Piece<'_>]) -> PieceSigns {
    let mut signs = PieceSigns {
        has_declarations: false,
        meta: None,
        has_common_js_name: false,
    };
    for (at, piece) in pieces.iter().enumerate() {
        match piece {
            Piece::Open { node, .. } => signs = signs.with_node(*node, at),
            Piece::Ident {
                sym: "require" | "module" | "exports",
                ..
            } => signs.has_common_js_name = true,
            _ => {}
        }
    }
    signs
}

impl PieceSigns {
    // What the node that begins at a place tells too.
    fn with_node(self, node: Node<'_>, at: usize) -> PieceSigns {
        let mut signs = self;
        match node {
            Node::ImportDecl { .. }
            | Node::NamedExport { .. }
            | Node::ExportAll { .. }
            | Node::ExportDecl
            | Node::ExportDefaultDecl
            | Node::ExportDefaultExpr => signs.has_declarations = true,
            Node::MetaPropExpr {
                kind: MetaPropKind::ImportMeta,
            } => signs.meta = signs.meta.or(Some(at)),
            _ => {}
        }
        signs
    }
}

// A walk over the pieces of a module.
#[derive(Drop)]
struct RequestWalk<'a> {
    requests: Vec<SourceRequest<'a>>,
    unknown: Vec<usize>,
    // The nodes that are open.
    nodes: Vec<Around>,
}

// What a walk over all pieces finds.
fn walk_of<'a>(
    alloc: Global,
    pieces: &[Piece<'a>],
    free: &[usize],
) -> Result<RequestWalk<'a>, AllocError>
    ensures { IfOk result (λ walk. All (IsRequest pieces.now) walk.requests.items) }
{
    let mut walk = RequestWalk {
        requests: Vec::new(alloc),
        unknown: Vec::new(alloc),
        nodes: Vec::new(alloc),
    };
    for at in 0..pieces.len() {
        walk.step(pieces, at, free)?;
    }
    Ok(walk)
}

impl<'a> RequestWalk<'a> {
    ghost use Rattle.std.specs.Prelude.{◌+◌, ◌^◌, ◌<◌, All, OnOk, length};
    ghost use Rattle.gutsirava_sources.specs.Outline.{IsRequest};

    // Goes over the piece at a place.
    fn step(&mut self, pieces: &[Piece<'a>], at: usize, free: &[usize]) -> Result<(), AllocError>
        requires fits { length pieces.now < 2 ^ 64 }
        requires open { All (λ around. around.begin < at) self.old.nodes.items }
        requires all { All (IsRequest pieces.now) self.old.requests.items }
        ensures open { OnOk result (All (λ around. around.begin < at + 1) self.new.nodes.items) }
        ensures all { OnOk result (All (IsRequest pieces.now) self.new.requests.items) }
    {
        if !begins_node(pieces, at) {
            return go_on(&mut self.nodes, turn_at(pieces, at, None), at);
        }
        let outer = innermost(self.nodes.as_slice(), at);
        add_request(&mut self.requests, pieces, at, outer, free)?;
        if is_unknown(pieces, at, outer, free) {
            self.unknown.push(at)?;
        }
        go_on(&mut self.nodes, turn_at(pieces, at, outer), at)
    }
}

// Whether a node begins at a place.
fn begins_node(pieces: &[Piece<'_>], at: usize) -> bool {
    matches!(pieces.get(at), Some(Piece::Open { .. }))
}

// The last of these nodes, all of which begin before a place.
fn innermost(nodes: &[Around], at: usize) -> Option<Around>
    requires { All (λ around. around.begin < at) nodes.now }
    ensures { IfSome result (λ around. around.begin < at) }
{
    match nodes.last() {
        Some(around) => Some(*around),
        None => None,
    }
}

// What a piece does with the nodes that are open.
#[derive(Clone, Copy)]
enum Turn {
    // A node begins: what it is for what lies in it, and whether that is in a `try`.
    In(Sort, bool),
    // One ends.
    Out,
    On,
}

// Takes what the piece at a place does into the nodes that are open.
fn go_on(nodes: &mut Vec<Around>, turn: Turn, at: usize) -> Result<(), AllocError>
    requires { All (λ around. around.begin < at) nodes.old.items }
    ensures { OnOk result (All (λ around. around.begin < at + 1) nodes.new.items) }
{
    match turn {
        Turn::In(sort, is_tried) => {
            nodes.push(Around {
                begin: at,
                sort,
                is_tried,
            })?;
            Ok(())
        }
        Turn::Out => {
            let _ = nodes.pop();
            Ok(())
        }
        Turn::On => Ok(()),
    }
}

// What the piece at a place does.
fn turn_at(pieces: &[Piece<'_>], at: usize, outer: Option<Around>) -> Turn {
    match pieces.get(at) {
        Some(Piece::Open { field, .. }) => {
            turn_into(node_at(pieces, at), is_tried_at(outer, *field))
        }
        Some(Piece::Close) => Turn::Out,
        _ => Turn::On,
    }
}

// Whether what lies in this field of a node is in a `try`.
fn is_tried_at(outer: Option<Around>, field: u8) -> bool {
    match outer {
        Some(outer) => outer.is_tried || (outer.sort == Sort::Try && field == 0),
        None => false,
    }
}

// What the begin of a node does that is, or is not, in a `try`.
fn turn_into(node: Option<Node<'_>>, is_tried: bool) -> Turn {
    match node {
        Some(Node::ImportDecl { .. } | Node::NamedExport { .. } | Node::ExportAll { .. }) => {
            Turn::In(Sort::From, false)
        }
        Some(Node::TryStmt) => Turn::In(Sort::Try, is_tried),
        Some(
            Node::Function { .. }
            | Node::ArrowExpr { .. }
            | Node::Constructor
            | Node::GetterProp
            | Node::SetterProp
            | Node::StaticBlock,
        ) => Turn::In(Sort::Other, false),
        _ => Turn::In(Sort::Other, is_tried),
    }
}

// Adds the request of the node that begins at a place, if it is one.
fn add_request<'a>(
    requests: &mut Vec<SourceRequest<'a>>,
    pieces: &[Piece<'a>],
    at: usize,
    outer: Option<Around>,
    free: &[usize],
) -> Result<(), AllocError>
    requires fits { length pieces.now < 2 ^ 64 }
    requires outer { IfSome outer (λ around. around.begin < at) }
    requires all { All (IsRequest pieces.now) requests.old.items }
    ensures { OnOk result (All (IsRequest pieces.now) requests.new.items) }
{
    match request_at(pieces, at, outer, free) {
        Some(request) => {
            requests.push(request)?;
            Ok(())
        }
        None => Ok(()),
    }
}

// The request of the node that begins at a place, if it is one.
fn request_at<'a>(
    pieces: &[Piece<'a>],
    at: usize,
    outer: Option<Around>,
    free: &[usize],
) -> Option<SourceRequest<'a>>
    requires fits { length pieces.now < 2 ^ 64 }
    requires outer { IfSome outer (λ around. around.begin < at) }
    ensures { IfSome result (IsRequest pieces.now) }
{
    match node_at(pieces, at) {
        Some(Node::Str { .. }) => match outer {
            Some(around) => declared_request(pieces, at, around),
            None => None,
        },
        Some(Node::CallExpr) => called_request(pieces, at, outer, free),
        _ => None,
    }
}

// The request of a string at a place, where it is the specifier of a declaration.
fn declared_request<'a>(
    pieces: &[Piece<'a>],
    place: usize,
    around: Around,
) -> Option<SourceRequest<'a>>
    requires { around.begin < place }
    ensures { IfSome result (IsRequest pieces.now) }
{
    if around.sort != Sort::From {
        return None;
    }
    let specifier = literal_text(pieces, place)?;
    Some(SourceRequest {
        specifier,
        asking: RequestForm::Import,
        begin: around.begin,
        place,
        behind: place.saturating_add(2),
        is_tried: false,
    })
}

// The request of a call that begins at a place, where it asks for a module by a literal.
fn called_request<'a>(
    pieces: &[Piece<'a>],
    begin: usize,
    outer: Option<Around>,
    free: &[usize],
) -> Option<SourceRequest<'a>>
    requires { length pieces.now < 2 ^ 64 }
    ensures { IfSome result (IsRequest pieces.now) }
{
    let asking = asked_form(pieces, begin.saturating_add(1), free)?;
    let argument = begin.saturating_add(argument_offset(asking));
    let (specifier, behind) = only_text(pieces, argument)?;
    let is_caught = asking == RequestForm::Dynamic && is_caught(pieces, behind);
    let is_tried = is_caught || is_tried_in(outer);
    Some(SourceRequest {
        specifier,
        asking,
        begin,
        place: argument.saturating_add(1),
        behind,
        is_tried,
    })
}

// How many pieces stand before the argument of such a call: the callee of `import()` is a node of its own, with its end.
fn argument_offset(asking: RequestForm) -> usize
    ensures within { result ≤ 3 }
    ensures positive { 0 < result }
{
    match asking {
        RequestForm::Dynamic => 3,
        RequestForm::Require => 2,
        RequestForm::Import => 2,
    }
}

// Whether a call begins at a place that asks for what is no literal: by `import()`, or by `require()` outside of a `try`.
fn is_unknown(pieces: &[Piece<'_>], begin: usize, outer: Option<Around>, free: &[usize]) -> bool {
    if !matches!(node_at(pieces, begin), Some(Node::CallExpr)) {
        return false;
    }
    let Some(asking) = asked_form(pieces, begin.saturating_add(1), free) else {
        return false;
    };
    let argument = begin.saturating_add(argument_offset(asking));
    let is_told = asking == RequestForm::Dynamic || !is_tried_in(outer);
    is_told && only_text(pieces, argument).is_none()
}

// Whether what lies in a node is in a `try`.
fn is_tried_in(outer: Option<Around>) -> bool {
    match outer {
        Some(outer) => outer.is_tried,
        None => false,
    }
}

// How a call asks for a module whose callee begins at a place, if it does.
fn asked_form(pieces: &[Piece<'_>], callee: usize, free: &[usize]) -> Option<RequestForm> {
    if matches!(node_at(pieces, callee), Some(Node::Import)) {
        Some(RequestForm::Dynamic)
    } else if is_name(pieces, callee, "require") && contains(free, callee) {
        Some(RequestForm::Require)
    } else {
        None
    }
}

// The text of a call's only argument, which begins at this place, where it is a literal, and the place behind that.
fn only_text<'a>(pieces: &[Piece<'a>], at: usize) -> Option<(&'a str, usize)>
    ensures literal { IfSome result (λ it.
        literal_at pieces.now (places.behind at 1) ≡ Some it.0.now) }
    ensures within { IfSome result (λ _. places.behind at 1 < length pieces.now) }
{
    if !is_argument(node_at(pieces, at)) {
        return None;
    }
    let literal = at.saturating_add(1);
    let text = literal_text(pieces, literal)?;
    let behind = end_of(pieces, literal);
    if is_end(pieces, behind) && is_end(pieces, behind.saturating_add(1)) {
        Some((text, behind))
    } else {
        None
    }
}

// Whether a node is an argument that is not spread.
fn is_argument(node: Option<Node<'_>>) -> bool {
    match node {
        Some(Node::ExprOrSpread { spread }) => !spread,
        _ => false,
    }
}

// The text of the literal that begins at a place: a string, or a template that has one part, and no escape.
#[tactic(auto, unfolding(crate::specs::Outline::literal_by))]
fn literal_text<'a>(pieces: &[Piece<'a>], at: usize) -> Option<&'a str>
    ensures { IfSome result (λ text. literal_at pieces.now at ≡ Some text.now) }
{
    match node_at(pieces, at) {
        Some(Node::Str { value, .. }) => Some(value),
        Some(Node::Tpl) => plain_template(pieces, at.saturating_add(1)),
        _ => None,
    }
}

// The text of a template whose first part begins at a place, where it has no other, and no escape.
#[tactic(auto, unfolding(crate::specs::Outline::part_text))]
fn plain_template<'a>(pieces: &[Piece<'a>], at: usize) -> Option<&'a str>
    ensures { IfSome result (λ text. part_text (places.node_at pieces.now at) ≡ Some text.now) }
{
    match node_at(pieces, at) {
        Some(Node::TplElement { raw }) => {
            if is_end(pieces, at.saturating_add(2)) && !raw.contains('\\') {
                Some(raw)
            } else {
                None
            }
        }
        _ => None,
    }
}

// Whether `catch` is read of a call of `import()` whose specifier ends before a place.
fn is_caught(pieces: &[Piece<'_>], behind: usize) -> bool {
    is_key(pieces, behind.saturating_add(2), "catch")
}

// The places of `require.main` where nothing binds `require`, ascending.
fn mains_of(alloc: Global, pieces: &[Piece<'_>], free: &[usize]) -> Result<Vec<usize>, AllocError>
    ensures { IfOk result (λ places. IsNonDecreasing places.items) }
{
    let mut places = Vec::new(alloc);
    if free.is_empty() {
        return Ok(places);
    }
    for at in 0..pieces.len() {
        if is_main_read(pieces, at, free) {
            places.push(at)?;
        }
    }
    Ok(places)
}

// Whether `require.main` begins at a place, and nothing binds `require`.
fn is_main_read(pieces: &[Piece<'_>], at: usize, free: &[usize]) -> bool {
    let object = at.saturating_add(1);
    is_member(node_at(pieces, at))
        && is_name(pieces, object, "require")
        && is_key(pieces, at.saturating_add(2), "main")
        && contains(free, object)
}

// The places of `require`, `module` and `exports` where nothing binds them, ascending; none where none of them stands
// in the list.
fn free_names(
    alloc: Global,
    pieces: &[Piece<'_>],
    has_common_js_name: bool,
) -> Result<Vec<usize>, AllocError> {
    if !has_common_js_name {
        return Ok(Vec::new(alloc));
    }
    let names = denotations(alloc, pieces, ModuleKind::Es, Reading::BySymbol)?;
    free_among(alloc, pieces, names.occurrences.as_slice())
}

// The places of these names among what occurs in a list, ascending.
fn free_among(
    alloc: Global,
    pieces: &[Piece<'_>],
    occurrences: &[Denoted],
) -> Result<Vec<usize>, AllocError> {
    let mut places = Vec::new(alloc);
    for occurrence in occurrences {
        if occurrence.binding.is_none() && is_common_js_name(pieces, occurrence.place) {
            places.push(occurrence.place)?;
        }
    }
    places.sort_unstable();
    Ok(places)
}

fn is_common_js_name(pieces: &[Piece<'_>], at: usize) -> bool {
    match pieces.get(at) {
        Some(Piece::Ident { sym, .. }) => matches!(*sym, "require" | "module" | "exports"),
        _ => false,
    }
}
