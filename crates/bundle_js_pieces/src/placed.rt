//! The list of pieces, each node around what lies in it.

ghost use Rattle.std.specs.Prelude.{◌≡◌, ◌++◌, ◌∷◌, [], ℕ, suc, ◌<◌, Some, IfOk, OnOk, vec_len, vec_capacity};
ghost use Rattle.std.specs.Bool.{OnFalse};
ghost use Rattle.bundle_js_pieces.specs.Brackets.{behind, Opens, IsBracketed};

use crate::node::{leaf_of, node_of};
use crate::role::{ident_in, names_in};
use crate::texts::{PieceError, RecordTexts};
use bundle_js_record::kind::{Kind, is_leaf};
use bundle_js_record::record::{Rec, record_at};
use bundle_syntax::{ExportMetadata, Node, Piece, Role};
use std::alloc::{AllocError, Global};
use std::mem;

/// The list of a tree, and beside each piece its place in the source: the byte at which it begins, for the end
/// of a node the byte behind it. `depth` is how many nodes lie in each other at most, and `deepest` the byte at
/// which the innermost of these begins.
#[derive(Drop)]
pub struct Placed<'a> {
    pub pieces: Vec<Piece<'a>>,
    pub places: Vec<u32>,
    pub depth: usize,
    pub deepest: u32,
    ghost beside: { vec_len places ≡ vec_len pieces },
}

// A node that is open.
#[derive(Clone, Copy)]
struct BegunNode {
    kind: Kind,
    // What the names of patterns in it are.
    names: Role,
}

// What begins a node.
#[inline]
fn begin_of<'a>(rec: Rec, notes: &'a ExportMetadata) -> Piece<'a>
    ensures { (n : ℕ) → behind (Some n) result ≡ Some (suc n) }
{
    let field = rec.field;
    let node = node_of(rec.kind, rec.op, notes);
    Piece::Open { field, node }
}

// What the names of patterns in a record are, by the node around it.
#[inline]
fn names_of(nodes: &[BegunNode], rec: Rec) -> Role {
    match nodes.last() {
        Some(node) => names_in(node.kind, rec.field, node.names),
        None => Role::Reference,
    }
}

// What an identifier is, by the node around it.
#[inline]
fn ident_of(nodes: &[BegunNode], rec: Rec) -> Role {
    match nodes.last() {
        Some(node) => ident_in(node.kind, rec.field, node.names),
        None => Role::Reference,
    }
}

// Whether the record at this place is that of a list of exports that are another module's, which stands right before
// it.
fn exports_another(records: &[Rec], at: usize, rec: Rec) -> bool {
    rec.kind == Kind::NamedExport
        && (rec.start as usize) < at
        && record_at(records, at.saturating_sub(1)).field == 1
}

impl<'a> Placed<'a> {
    // Whether there is no room for one more piece: the records are those of another text.
    #[inline]
    fn is_full(&self) -> bool
        ensures pieces { OnFalse result (vec_len self.now.pieces < vec_capacity self.now.pieces) }
        ensures places { OnFalse result (vec_len self.now.places < vec_capacity self.now.places) }
    {
        self.pieces.len() >= self.pieces.capacity() || self.places.len() >= self.places.capacity()
    }

    // Adds a piece and its place.
    #[inline]
    fn add(&mut self, piece: Piece<'a>, place: u32) -> Result<(), PieceError>
        ensures { OnOk result (self.new.pieces.items ≡ self.old.pieces.items ++ (piece.entry ∷ [])) }
    {
        if self.is_full() {
            return Err(PieceError::Text);
        }
        self.places.push_reserved(place);
        self.pieces.push_reserved(piece);
        Ok(())
    }

    // Adds the begin of the node whose record stands at this place.
    fn open(
        &mut self,
        nodes: &mut Vec<BegunNode>,
        records: &[Rec],
        at: usize,
        notes: &'a ExportMetadata,
    ) -> Result<(), PieceError>
        requires { Opens (vec_len nodes.old) self.old.pieces.items }
        ensures { OnOk result (Opens (vec_len nodes.new) self.new.pieces.items) }
    {
        let rec = record_at(records, at);
        if rec.kind == Kind::Gone {
            return Ok(());
        }
        let names = names_of(nodes.as_slice(), rec);
        self.add(begin_of(rec, notes), rec.from)?;
        nodes.push(BegunNode {
            kind: rec.kind,
            names: if exports_another(records, at, rec) {
                Role::Word
            } else {
                names
            },
        })?;
        if nodes.len() >= self.depth {
            self.depth = nodes.len();
            self.deepest = rec.from;
        }
        Ok(())
    }

    // Adds the begins of the nodes around the record at this place that begin with it, from the outside in.
    fn open_all(
        &mut self,
        nodes: &mut Vec<BegunNode>,
        records: &[Rec],
        links: &[u32],
        at: usize,
        notes: &'a ExportMetadata,
    ) -> Result<(), PieceError>
        requires { Opens (vec_len nodes.old) self.old.pieces.items }
        ensures { OnOk result (Opens (vec_len nodes.new) self.new.pieces.items) }
    {
        let mut next = link_at(links, at);
        for _ in at..records.len() {
            if next <= at {
                return Ok(());
            }
            self.open(nodes, records, next, notes)?;
            next = link_at(links, next);
        }
        Ok(())
    }

    // Adds the end of the innermost node that is open, which is that of this record.
    #[inline]
    fn close(&mut self, nodes: &mut Vec<BegunNode>, rec: Rec) -> Result<(), PieceError>
        requires { Opens (vec_len nodes.old) self.old.pieces.items }
        ensures { OnOk result (Opens (vec_len nodes.new) self.new.pieces.items) }
    {
        match nodes.pop() {
            Some(_) => self.add(Piece::Close, rec.to),
            None => Err(PieceError::Text),
        }
    }
}

impl<'a> Placed<'a> {
    // Adds a node that no other lies in.
    fn add_node(&mut self, field: u8, node: Node<'a>, rec: Rec) -> Result<(), PieceError>
        ensures { (n : ℕ) → Opens n self.old.pieces.items → OnOk result (Opens n self.new.pieces.items) }
    {
        self.add(Piece::Open { field, node }, rec.from)?;
        self.add(Piece::Close, rec.to)
    }

    // Adds an identifier.
    fn add_ident(&mut self, field: u8, sym: &'a str, role: Role, rec: Rec) -> Result<(), PieceError>
        ensures { (n : ℕ) → Opens n self.old.pieces.items → OnOk result (Opens n self.new.pieces.items) }
    {
        self.add(
            Piece::Ident {
                field,
                sym,
                ctxt: 0,
                role,
            },
            rec.from,
        )
    }

    // Adds an identifier that stands as a pattern in this field.
    fn add_pattern(
        &mut self,
        field: u8,
        sym: &'a str,
        role: Role,
        rec: Rec,
    ) -> Result<(), PieceError>
        ensures { (n : ℕ) → Opens n self.old.pieces.items → OnOk result (Opens n self.new.pieces.items) }
    {
        let node = Node::BindingIdent;
        self.add(Piece::Open { field, node }, rec.from)?;
        self.add_ident(0, sym, role, rec)?;
        self.add(Piece::Close, rec.to)
    }

    // Adds a property of a pattern that is an identifier alone.
    fn add_property(
        &mut self,
        field: u8,
        sym: &'a str,
        role: Role,
        rec: Rec,
    ) -> Result<(), PieceError>
        ensures { (n : ℕ) → Opens n self.old.pieces.items → OnOk result (Opens n self.new.pieces.items) }
    {
        let node = Node::AssignPatProp;
        self.add(Piece::Open { field, node }, rec.from)?;
        self.add_pattern(0, sym, role, rec)?;
        self.add(Piece::Close, rec.to)
    }

    // Adds what no other record lies in.
    fn add_leaf(
        &mut self,
        texts: RecordTexts<'a>,
        nodes: &[BegunNode],
        rec: Rec,
    ) -> Result<(), PieceError>
        ensures { (n : ℕ) → Opens n self.old.pieces.items → OnOk result (Opens n self.new.pieces.items) }
    {
        let field = rec.field;
        match rec.kind {
            Kind::Hole => self.add(Piece::Hole { field }, rec.from),
            Kind::Ident | Kind::Shorthand => {
                self.add_ident(field, texts.value(rec)?, ident_of(nodes, rec), rec)
            }
            Kind::BindingIdent => {
                self.add_pattern(field, texts.value(rec)?, names_of(nodes, rec), rec)
            }
            Kind::ShorthandPat => {
                self.add_property(field, texts.value(rec)?, names_of(nodes, rec), rec)
            }
            _ => self.add_node(field, leaf_of(texts, rec)?, rec),
        }
    }

    // Adds what the record at this place is: a leaf, or the end of a node; and before that what begins here.
    #[inline]
    fn add_record(
        &mut self,
        texts: RecordTexts<'a>,
        nodes: &mut Vec<BegunNode>,
        records: &[Rec],
        links: &[u32],
        at: usize,
    ) -> Result<(), PieceError>
        requires { Opens (vec_len nodes.old) self.old.pieces.items }
        ensures { OnOk result (Opens (vec_len nodes.new) self.new.pieces.items) }
    {
        let rec = record_at(records, at);
        let is_first = rec.start as usize >= at;
        if is_first {
            self.open_all(nodes, records, links, at, texts.notes)?;
        }
        if rec.kind == Kind::Gone {
            return Ok(());
        }
        if is_leaf(rec.kind) {
            return self.add_leaf(texts, nodes.as_slice(), rec);
        }
        if is_first {
            self.open(nodes, records, at, texts.notes)?;
        }
        self.close(nodes, rec)
    }
}

// The place that stands at a place, itself where none does.
#[inline]
fn link_at(links: &[u32], at: usize) -> usize {
    match links.get(at) {
        Some(link) => *link as usize,
        None => at,
    }
}

// Which nodes begin with a record that nothing lies in: at its place the place of the outermost of them, and at the place
// of each of them that of the next inner one, or its own.
fn links_of(alloc: Global, records: &[Rec]) -> Result<Vec<u32>, AllocError> {
    let mut links: Vec<u32> = Vec::with_capacity(alloc, records.len())?;
    for rec in records {
        let at = u32::try_from(links.len()).unwrap_or(u32::MAX);
        let inner = match links.as_mut_slice().get_mut(rec.start as usize) {
            Some(link) => mem::replace(link, at),
            None => at,
        };
        links.push(inner)?;
    }
    Ok(links)
}

// How many pieces these records give.
fn count_of(records: &[Rec]) -> usize {
    let mut count: usize = 0;
    for rec in records {
        count = count.saturating_add(match rec.kind {
            Kind::Gone => 0,
            Kind::Hole | Kind::Ident | Kind::Shorthand => 1,
            Kind::BindingIdent => 3,
            Kind::ShorthandPat => 5,
            _ => 2,
        });
    }
    count
}

/// The list of the tree that the records are of, in the order of its fields. Each node of it is bracketed, and
/// lies in the one around it. Refused only for memory, and where the records are those of another text.
pub fn pieces<'a>(
    alloc: Global,
    texts: RecordTexts<'a>,
    records: &[Rec],
) -> Result<Placed<'a>, PieceError>
    ensures { IfOk result (λ list. IsBracketed list.pieces.items) }
{
    let links = links_of(alloc, records)?;
    let mut nodes: Vec<BegunNode> = Vec::new(alloc);
    let count = count_of(records);
    let mut list = Placed {
        pieces: Vec::with_capacity(alloc, count)?,
        places: Vec::with_capacity(alloc, count)?,
        depth: 0,
        deepest: 0,
    };
    for at in 0..records.len() {
        list.add_record(texts, &mut nodes, records, links.as_slice(), at)?;
    }
    if nodes.is_empty() {
        Ok(list)
    } else {
        Err(PieceError::Text)
    }
}
