//! The names that a CommonJS module exports, as far as its text shows them.

ghost use Rattle.std.specs.Prelude.{◌≡◌, All, IfOk, IfSome, OnOk};
ghost use Rattle.std.specs.Bool.{OnTrue};
ghost use Rattle.gutsirava_sources.specs.CommonJs.{IsRequired};

use crate::outline::{RequestForm, SourceOutline, SourceRequest};
use crate::pieces::{end_of, is_end, is_key, is_member, is_name, key_at, node_at, text_at};
use bundle_syntax::{Node, Piece};
use std::alloc::{AllocError, Global};

/// The names that a CommonJS module exports, as far as its text shows them.
pub struct CommonJsExports<'a> {
    /// Those that it gives by itself, in the order of the text, some more than once.
    pub names: Vec<&'a str>,
    /// The numbers of the requests of modules all of whose names it exports.
    pub passed: Vec<usize>,
}

impl Drop for CommonJsExports<'_> {
    fn drop(self) {
        let CommonJsExports {
            names: _names,
            passed: _passed,
        } = self;
    }
}

// What a node shows of the exports.
#[derive(Clone, Copy)]
enum ShownExport<'a> {
    Nothing,
    // A name.
    Name(&'a str),
    // The keys of an object whose first property begins at a place.
    Keys(usize),
    // All names of the module that the first `require` between two places asks for.
    Required(usize, usize),
}

/// The names that a CommonJS module exports, as Node has them: properties of `exports` that are assigned to or defined,
/// the keys of an object that is exported, and all names of a `require` that is exported, or whose names are copied in
/// the way of TypeScript, Babel, swc or esbuild. Refused only for memory.
pub fn common_js_exports<'p, 'a>(
    alloc: Global,
    pieces: &'p [Piece<'a>],
    outline: &'p SourceOutline<'a>,
) -> Result<CommonJsExports<'a>, AllocError>
    ensures { IfOk result (λ exports.
        All (IsRequired outline.now.requests.items) exports.passed.items) }
{
    let mut exports = CommonJsExports {
        names: Vec::new(alloc),
        passed: Vec::new(alloc),
    };
    let requests = outline.requests.as_slice();
    for at in 0..pieces.len() {
        exports.take_node(pieces, requests, at)?;
    }
    Ok(exports)
}

impl<'a> CommonJsExports<'a> {
    ghost use Rattle.std.specs.Prelude.{All, OnOk};
    ghost use Rattle.gutsirava_sources.specs.CommonJs.{IsRequired};

    // Takes in what the node at a place shows.
    fn take_node(
        &mut self,
        pieces: &[Piece<'a>],
        requests: &[SourceRequest<'_>],
        at: usize,
    ) -> Result<(), AllocError>
        requires { All (IsRequired requests.now) self.old.passed.items }
        ensures { OnOk result (All (IsRequired requests.now) self.new.passed.items) }
    {
        let shown = shown_at(pieces, at);
        match shown {
            ShownExport::Keys(first) => self.take_keys(pieces, requests, first),
            _ => self.take(requests, shown),
        }
    }

    // Takes in the properties of an object, the first of which begins at a place.
    fn take_keys(
        &mut self,
        pieces: &[Piece<'a>],
        requests: &[SourceRequest<'_>],
        first: usize,
    ) -> Result<(), AllocError>
        requires { All (IsRequired requests.now) self.old.passed.items }
        ensures { OnOk result (All (IsRequired requests.now) self.new.passed.items) }
    {
        let mut next = first;
        for at in first..pieces.len() {
            if at < next {
                continue;
            }
            if is_end(pieces, at) {
                break;
            }
            self.take(requests, property_at(pieces, at))?;
            next = end_of(pieces, at);
        }
        Ok(())
    }

    // Takes in a name, or the number of a request.
    fn take(
        &mut self,
        requests: &[SourceRequest<'_>],
        shown: ShownExport<'a>,
    ) -> Result<(), AllocError>
        requires { All (IsRequired requests.now) self.old.passed.items }
        ensures { OnOk result (All (IsRequired requests.now) self.new.passed.items) }
    {
        match shown {
            ShownExport::Name(name) => self.names.push(name)?,
            ShownExport::Required(from, to) => {
                if let Some(number) = required_within(requests, from, to) {
                    self.passed.push(number)?;
                }
            }
            ShownExport::Nothing | ShownExport::Keys(_) => {}
        }
        Ok(())
    }
}

// The number of the first `require` that begins between two places.
fn required_within(requests: &[SourceRequest<'_>], from: usize, to: usize) -> Option<usize>
    ensures { IfSome result (IsRequired requests.now) }
{
    for number in 0..requests.len() {
        if is_required(&requests[number], from, to) {
            return Some(number);
        }
    }
    None
}

// Whether a request is a `require` that begins between two places.
fn is_required(request: &SourceRequest<'_>, from: usize, to: usize) -> bool
    ensures { OnTrue result (request.now.asking ≡ RequestForm.Require) }
{
    match request.asking {
        RequestForm::Require => from <= request.begin && request.begin < to,
        RequestForm::Import => false,
        RequestForm::Dynamic => false,
    }
}

// What the node at a place shows.
fn shown_at<'a>(pieces: &[Piece<'a>], at: usize) -> ShownExport<'a> {
    let first = at.saturating_add(1);
    match node_at(pieces, at) {
        Some(Node::AssignExpr { .. }) => shown_by_assignment(pieces, first),
        Some(Node::CallExpr) => shown_by_call(pieces, first),
        _ => ShownExport::Nothing,
    }
}

// What an assignment shows whose left side begins at a place.
fn shown_by_assignment<'a>(pieces: &[Piece<'a>], left: usize) -> ShownExport<'a> {
    if let Some(right) = exports_end(pieces, left) {
        return shown_by_value(pieces, right);
    }
    if !is_member(node_at(pieces, left)) {
        return ShownExport::Nothing;
    }
    match exports_end(pieces, left.saturating_add(1)) {
        Some(property) => shown_by_name(key_at(pieces, property)),
        None => ShownExport::Nothing,
    }
}

// What is shown by what is exported as a whole.
fn shown_by_value<'a>(pieces: &[Piece<'a>], at: usize) -> ShownExport<'a> {
    match node_at(pieces, at) {
        Some(Node::ObjectLit) => ShownExport::Keys(at.saturating_add(1)),
        Some(Node::CallExpr) => shown_by_require(at),
        _ => ShownExport::Nothing,
    }
}

// All names of the module that a call at a place asks for, if that is a `require`.
fn shown_by_require<'a>(at: usize) -> ShownExport<'a> {
    ShownExport::Required(at, at.saturating_add(1))
}

fn shown_by_name<'a>(name: Option<&'a str>) -> ShownExport<'a> {
    match name {
        Some(name) => ShownExport::Name(name),
        None => ShownExport::Nothing,
    }
}

// What the property of an object shows that begins at a place.
fn property_at<'a>(pieces: &[Piece<'a>], at: usize) -> ShownExport<'a> {
    let inner = at.saturating_add(1);
    match pieces.get(at) {
        Some(Piece::Ident { sym, .. }) => ShownExport::Name(*sym),
        Some(Piece::Open { node, .. }) => match node {
            Node::SpreadElement => shown_by_require(inner),
            _ => shown_by_name(key_at(pieces, inner)),
        },
        _ => ShownExport::Nothing,
    }
}

// What a call shows whose callee begins at a place.
fn shown_by_call<'a>(pieces: &[Piece<'a>], callee: usize) -> ShownExport<'a> {
    let behind = end_of(pieces, callee);
    match last_name(pieces, callee, behind) {
        "defineProperty" => shown_by_definition(pieces, behind),
        "forEach" => shown_by_each(pieces, callee),
        "__exportStar" | "__export" | "__reExport" | "_export" | "_export_star" => {
            shown_by_copy(pieces, behind)
        }
        _ => ShownExport::Nothing,
    }
}

// What `Object.defineProperty` shows whose first argument begins at a place.
fn shown_by_definition<'a>(pieces: &[Piece<'a>], first: usize) -> ShownExport<'a> {
    if is_exports(pieces, first) {
        shown_by_name(text_at(pieces, argument(pieces, first, 1)))
    } else {
        ShownExport::Nothing
    }
}

// What a call shows that copies the names of a module, and whose first argument begins at a place.
fn shown_by_copy<'a>(pieces: &[Piece<'a>], first: usize) -> ShownExport<'a> {
    if is_exports(pieces, first) {
        shown_by_value(pieces, argument(pieces, first, 1))
    } else {
        shown_by_require(argument(pieces, first, 0))
    }
}

// What the callee `Object.keys(a).forEach` shows, where `a` is a variable that begins with a module.
fn shown_by_each<'a>(pieces: &[Piece<'a>], callee: usize) -> ShownExport<'a> {
    let keys = callee.saturating_add(2);
    let behind = end_of(pieces, keys);
    if last_name(pieces, keys, behind) != "keys" {
        return ShownExport::Nothing;
    }
    match declarator_of(pieces, argument(pieces, behind, 0)) {
        Some(at) => ShownExport::Required(at, end_of(pieces, at)),
        None => ShownExport::Nothing,
    }
}

// Whether the first argument, which begins at a place, is `exports`.
fn is_exports(pieces: &[Piece<'_>], first: usize) -> bool {
    exports_end(pieces, argument(pieces, first, 0)).is_some()
}

// The place behind `exports` or `module.exports`, where that begins at a place.
fn exports_end(pieces: &[Piece<'_>], at: usize) -> Option<usize> {
    let next = at.saturating_add(1);
    if is_name(pieces, at, "exports") {
        return Some(next);
    }
    let is_property = is_member(node_at(pieces, at))
        && is_name(pieces, next, "module")
        && is_key(pieces, at.saturating_add(2), "exports");
    if is_property {
        Some(end_of(pieces, at))
    } else {
        None
    }
}

// The last name between two places.
fn last_name<'a>(pieces: &[Piece<'a>], from: usize, to: usize) -> &'a str {
    let mut last = "";
    for at in from..to {
        if let Some(name) = called_name(pieces, at) {
            last = name;
        }
    }
    last
}

// The identifier, or the word of a property, that stands at a place.
fn called_name<'a>(pieces: &[Piece<'a>], at: usize) -> Option<&'a str> {
    match pieces.get(at) {
        Some(Piece::Ident { sym, .. }) => Some(*sym),
        Some(Piece::Open { node, .. }) => match node {
            Node::IdentName { sym } => Some(*sym),
            _ => None,
        },
        _ => None,
    }
}

// Where the argument of this number begins, where the first one begins at a place.
fn argument(pieces: &[Piece<'_>], first: usize, number: usize) -> usize {
    let mut at = first;
    for _ in 0..number {
        at = end_of(pieces, at);
    }
    at.saturating_add(1)
}

// The place of the first declarator of the name that stands at a place.
fn declarator_of(pieces: &[Piece<'_>], place: usize) -> Option<usize> {
    let Some(Piece::Ident { sym, .. }) = pieces.get(place) else {
        return None;
    };
    for at in 0..pieces.len() {
        if declares(pieces, at, *sym) {
            return Some(at);
        }
    }
    None
}

// Whether a declarator begins at a place, and declares this name.
fn declares(pieces: &[Piece<'_>], at: usize, name: &str) -> bool {
    if !matches!(node_at(pieces, at), Some(Node::VarDeclarator)) {
        return false;
    }
    let begin = at.saturating_add(1);
    match node_at(pieces, begin) {
        Some(Node::BindingIdent) => is_name(pieces, begin.saturating_add(1), name),
        _ => is_name(pieces, begin, name),
    }
}
