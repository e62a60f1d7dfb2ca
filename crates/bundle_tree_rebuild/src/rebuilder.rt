//! The walk over a list that makes it anew.

ghost use Rattle.std.specs.Prelude.{◌≡◌, ◌∷◌, ◌++◌, [], IfOk, OnOk, Some, None, map, option_map, if◌then◌else◌};
ghost use Rattle.bundle_syntax.specs.Item as h;
ghost use Rattle.bundle_syntax.specs.Item.{head_of, item_of};
ghost use Rattle.bundle_rules.specs.Rebuilds as rebuilds;
ghost use Rattle.bundle_tree_places.specs.Changes.{change_of};
ghost use Rattle.bundle_tree_places.specs.Edits.{Anywhere, in_its_place, node};
ghost use Rattle.bundle_tree_places.specs.Marks as marks;
ghost use Rattle.bundle_tree_rebuild.specs.Becomes as becomes;
ghost use Rattle.bundle_tree_rebuild.specs.Becomes.{Reworked};
ghost use Rattle.bundle_tree_rebuild.specs.Fits.{Fits};
ghost use Rattle.bundle_tree_rebuild.specs.Walked as walked;
ghost use Rattle.bundle_tree_rebuild.specs.Walked.{fresh, met, with_items, within};
ghost use Rattle.bundle_syntax.specs.declared.piece.Role.TheVariants.{Word};
ghost use Rattle.bundle_tree_rebuild.specs.declared.kind.NodeKind.TheVariants as kinds;
ghost use Rattle.bundle_tree_rebuild.specs.declared.kind.Enclosing.TheVariants as around;
ghost use Rattle.bundle_tree_rebuild.specs.Work as work;
ghost use Rattle.bundle_tree_rebuild.specs.Work.{after, next, plain, step_of, work_of};

use crate::ahead::{
    are_reads, begins_with_member, has_default, is_alone, is_literal_call, shorthand_symbol,
};
use crate::kind::{Enclosing, NodeKind, kind_of};
use crate::rewrite::{Rewriting, Whole};
use crate::work::{Step, Steps};
use bundle_syntax::{ExportMetadata, MetaPropKind, Node, Piece, Role};
use bundle_tree_places::{Change, Name};
use std::alloc::{AllocError, Global};
use std::marker::Model;

/// The list with these changes of its occurrences in turn; an occurrence for which no change is left stays. Refused
/// only where memory runs out.
#[tactic(auto, using(crate::proofs::Walks::all_made))]
pub fn changed_pieces<'a>(
    alloc: Global,
    pieces: &[Piece<'a>],
    changes: &[Change<'a>],
) -> Result<Vec<Piece<'a>>, AllocError>
    ensures { IfOk result (λ made.
        Fits Anywhere (map item_of pieces.now) →
        Reworked (plain (map change_of changes.now)) (map item_of pieces.now)
        (map item_of made.items)) }
{
    let mut rebuilder = Rebuilder::new(alloc, changes);
    rebuilder.each(pieces)?;
    Ok(rebuilder.into_pieces())
}

/// What is asked of the occurrences that are left, what else is asked, the nodes that are open, and the list that was
/// made so far.
#[derive(Drop)]
pub struct Rebuilder<'r, 'c, 'a> {
    left: Steps<'r, 'c>,
    import_meta: Option<Name<'c>>,
    notes: Option<&'a ExportMetadata>,
    enclosing: Enclosing,
    outer: Vec<Enclosing>,
    made: Vec<Piece<'a>>,
}

impl<'r, 'c, 'a> Model for Rebuilder<'r, 'c, 'a> {
    ghost use Rattle.std.specs.Prelude.{is_some, map, option_map, reverse};
    ghost use Rattle.bundle_syntax.specs.Item.{item_of};
    ghost use Rattle.bundle_tree_places.specs.Marks.{ident_of};
    ghost use Rattle.bundle_tree_rebuild.specs.Walked.{Walking};
    ghost use Rattle.bundle_tree_rebuild.specs.Work.{steps_of};

    ghost Value = { Walking };

    ghost view = { λ it.
        record {
          work = record {
            steps = steps_of it.left;
            meta = option_map ident_of it.import_meta;
            clears_notes = is_some it.notes;
          };
          notes = option_map (λ notes. notes.now) it.notes;
          enclosing = it.enclosing;
          outer = reverse it.outer.items;
          made = map item_of it.made.items;
        } };
}

impl<'r, 'c: 'a, 'a> Rebuilder<'r, 'c, 'a> {
    /// A walk with these changes of the occurrences in turn.
    #[tactic(auto, using(crate::proofs::Steps::changes_plain))]
    pub fn new(alloc: Global, changes: &'r [Change<'c>]) -> Rebuilder<'r, 'c, 'a>
        ensures { result ≡ fresh (plain (map change_of changes.now)) }
    {
        Rebuilder {
            left: Steps::Changes(changes),
            import_meta: None,
            notes: None,
            enclosing: Enclosing::Plain,
            outer: Vec::new(alloc),
            made: Vec::new(alloc),
        }
    }

    /// A walk over a part of a module that stands in a bundle. The second are the notes of a declaration on which
    /// nothing is noted.
    pub fn rewriting(
        alloc: Global,
        rewriting: Rewriting<'r, 'c>,
        cleared: &'a ExportMetadata,
    ) -> Rebuilder<'r, 'c, 'a>
        requires { cleared.now ≡ becomes.no_notes }
        ensures { result ≡ fresh (work_of rewriting.entry) }
    {
        Rebuilder {
            left: Steps::Rewrites(rewriting.rewrites),
            import_meta: rewriting.meta,
            notes: Some(cleared),
            enclosing: Enclosing::Plain,
            outer: Vec::new(alloc),
            made: Vec::new(alloc),
        }
    }

    /// Adds a piece as it is.
    pub fn push(&mut self, piece: Piece<'a>) -> Result<(), AllocError>
        ensures { OnOk result (self.new ≡ with_items self.old (item_of piece.entry ∷ [])) }
    {
        self.made.push(piece)?;
        Ok(())
    }

    /// Adds what becomes of these pieces.
    pub fn each<'p: 'a>(&mut self, pieces: &[Piece<'p>]) -> Result<(), AllocError>
        ensures { OnOk result (self.new ≡ walked.walked self.old (map item_of pieces.now)) }
    {
        let mut left = pieces;
        for _ in 0..pieces.len() {
            match left {
                [piece, ahead @ ..] => {
                    self.piece(*piece, ahead)?;
                    left = ahead;
                }
                [] => {}
            }
        }
        Ok(())
    }

    /// The list that was made.
    pub fn into_pieces(self) -> Vec<Piece<'a>>
        ensures { map item_of result.items ≡ self.entry.made }
    {
        self.made
    }

    /// Adds what becomes of a piece, ahead of which these are.
    pub fn piece<'p: 'a>(&mut self, piece: Piece<'p>, ahead: &[Piece<'p>]) -> Result<(), AllocError>
        ensures { OnOk result
            (self.new ≡ walked.turned self.old (item_of piece.entry) (map item_of ahead.now)) }
    {
        match piece {
            Piece::Open { field, node } => self.open(field, node, ahead),
            Piece::Ident {
                field,
                sym,
                ctxt,
                role,
            } => self.ident(field, Name { sym, ctxt }, role),
            Piece::Hole { field } => self.hole(field),
            Piece::Close => self.close(),
        }
    }

    fn open<'p: 'a>(
        &mut self,
        field: u8,
        node: Node<'a>,
        ahead: &[Piece<'p>],
    ) -> Result<(), AllocError>
        ensures { OnOk result
            (self.new ≡ walked.opened self.old field (head_of node.entry) (map item_of ahead.now)) }
    {
        if self.enclosing.is_gone() {
            self.enter(Enclosing::Gone)
        } else {
            self.begin(self.enclosing.placed(field), node, ahead)
        }
    }

    // A node that is not gone.
    fn begin<'p: 'a>(
        &mut self,
        field: u8,
        node: Node<'a>,
        ahead: &[Piece<'p>],
    ) -> Result<(), AllocError>
        ensures { OnOk result
            (self.new
            ≡ walked.begun (walked.kind_of (head_of node.entry)) self.old field
            (head_of node.entry) (map item_of ahead.now)) }
    {
        match kind_of(node) {
            NodeKind::Ordinary => self.keep(field, node, Enclosing::Plain),
            NodeKind::Object => self.keep(field, node, Enclosing::Object),
            NodeKind::Specifier => self.keep(field, node, in_specifier(ahead)),
            NodeKind::Assignment => self.keep(field, node, in_assignment(ahead)),
            NodeKind::Member => self.member(field, ahead),
            NodeKind::Call => self.call(field, ahead),
            NodeKind::ImportMeta => self.meta(field),
            NodeKind::Shorthand => self.shorthand(field, ahead),
        }
    }

    // A node begins, in which this is around.
    fn enter(&mut self, enclosing: Enclosing) -> Result<(), AllocError>
        ensures { OnOk result (self.new ≡ within self.old enclosing) }
    {
        self.outer.push(self.enclosing.behind())?;
        self.enclosing = enclosing;
        Ok(())
    }

    // A node that stays.
    fn keep(&mut self, field: u8, node: Node<'a>, enclosing: Enclosing) -> Result<(), AllocError>
        ensures { OnOk result
            (self.new ≡ walked.kept self.old field (head_of node.entry) enclosing) }
    {
        let node = self.noted(node);
        self.push(Piece::Open { field, node })?;
        self.enter(enclosing)
    }

    // A member expression, or the name that stands for it.
    fn member(&mut self, field: u8, ahead: &[Piece]) -> Result<(), AllocError>
        ensures { OnOk result
            (self.new
            ≡ walked.begun kinds.Member self.old field h.MemberExpr (map item_of ahead.now)) }
    {
        match self.name_for_member(ahead) {
            Some(name) => {
                self.meet(field, name, Role::Reference)?;
                self.enter(Enclosing::Gone)
            }
            None => self.keep(field, Node::MemberExpr, Enclosing::Plain),
        }
    }

    // A call, or that of a name.
    fn call(&mut self, field: u8, ahead: &[Piece]) -> Result<(), AllocError>
        ensures { OnOk result
            (self.new
            ≡ walked.begun kinds.Call self.old field h.CallExpr (map item_of ahead.now)) }
    {
        let node = Node::CallExpr;
        match self.name_for_call(ahead) {
            Some(name) => {
                self.push(Piece::Open { field, node })?;
                self.meet(0, name, Role::Reference)?;
                self.push(Piece::Close)?;
                self.enter(Enclosing::Gone)
            }
            None => self.keep(field, node, Enclosing::Plain),
        }
    }

    // `import.meta`, or the name that it becomes.
    fn meta(&mut self, field: u8) -> Result<(), AllocError>
        ensures { OnOk result (self.new ≡ walked.meta self.old field self.old.work.meta) }
    {
        match self.import_meta {
            Some(name) => {
                self.push(identifier(field, name, Role::Reference))?;
                self.enter(Enclosing::Gone)
            }
            None => {
                let kind = MetaPropKind::ImportMeta;
                self.keep(field, Node::MetaPropExpr { kind }, Enclosing::Plain)
            }
        }
    }

    // A shorthand property of a pattern, perhaps spelled out: `{ x }` as `{ x: y }`, and `{ x = e }` as `{ x: y = e }`.
    fn shorthand<'p: 'a>(&mut self, field: u8, ahead: &[Piece<'p>]) -> Result<(), AllocError>
        ensures { OnOk result
            (self.new
            ≡ walked.begun kinds.Shorthand self.old field h.AssignPatProp
            (map item_of ahead.now)) }
    {
        match shorthand_symbol(ahead) {
            Some(sym) if self.spells_out(sym) => self.pair(field, sym, has_default(ahead)),
            _ => self.keep(field, Node::AssignPatProp, Enclosing::Plain),
        }
    }

    // The beginning of a shorthand property of a pattern that is spelled out.
    fn pair(&mut self, field: u8, sym: &'a str, has_default: bool) -> Result<(), AllocError>
        ensures { OnOk result (self.new ≡ walked.pair self.old field sym.now has_default) }
    {
        let node = Node::KeyValuePatProp;
        self.push(Piece::Open { field, node })?;
        self.plain_key(sym)?;
        if has_default {
            let node = Node::AssignPat;
            self.push(Piece::Open { field: 1, node })?;
            self.enter(Enclosing::Default)
        } else {
            self.enter(Enclosing::Value)
        }
    }

    // A key that is a plain word.
    fn plain_key(&mut self, sym: &'a str) -> Result<(), AllocError>
        ensures { OnOk result (self.new ≡ with_items self.old (rebuilds.plain_key sym.now)) }
    {
        let node = Node::IdentName { sym };
        self.push(Piece::Open { field: 0, node })?;
        self.push(Piece::Close)
    }

    // The key that a shorthand of an object literal is spelled out with; a plain `__proto__` would set the prototype.
    fn key_in_object(&mut self, sym: &'a str) -> Result<(), AllocError>
        ensures { OnOk result (self.new ≡ with_items self.old (rebuilds.key_in_object sym.now)) }
    {
        if sym == "__proto__" {
            let node = Node::ComputedPropName;
            self.push(Piece::Open { field: 0, node })?;
            let node = Node::Str {
                value: sym,
                raw: None,
            };
            self.push(Piece::Open { field: 0, node })?;
            self.push(Piece::Close)?;
            self.push(Piece::Close)
        } else {
            self.plain_key(sym)
        }
    }

    // An identifier.
    fn ident(&mut self, field: u8, name: Name<'a>, role: Role) -> Result<(), AllocError>
        ensures { OnOk result
            (self.new
            ≡ walked.turned self.old (h.Ident field name.entry.sym.now name.entry.ctxt role) []) }
    {
        if self.enclosing.is_gone() {
            return Ok(());
        }
        match role {
            Role::Word => self.push(identifier(field, name, role)),
            Role::Binding | Role::Reference => self.occurrence(field, name, role),
        }
    }

    // An occurrence.
    fn occurrence(&mut self, field: u8, name: Name<'a>, role: Role) -> Result<(), AllocError>
        ensures { OnOk result
            (self.new
            ≡ met self.old
            (in_its_place (walked.around_of self.old.enclosing)
            (next self.old.work name.entry.sym.now) field name.entry.sym.now name.entry.ctxt
            role)) }
    {
        let is_spelled_out = self.spells_out(name.sym);
        let new = self.name_instead(name);
        match self.enclosing {
            Enclosing::Object if is_spelled_out => self.object_pair(field, name.sym, new, role),
            Enclosing::Specifier if is_spelled_out => {
                self.meet(field, new, role)?;
                self.word(name.sym)
            }
            _ => self.meet(field, new, role),
        }
    }

    // A shorthand of an object literal, spelled out as a pair.
    fn object_pair(
        &mut self,
        field: u8,
        sym: &'a str,
        new: Name<'a>,
        role: Role,
    ) -> Result<(), AllocError>
        ensures { OnOk result
            (self.new
            ≡ met self.old
            (node field h.KeyValueProp (rebuilds.key_in_object sym.now
            ++ h.Ident 1 new.entry.sym.now new.entry.ctxt role ∷ []))) }
    {
        let node = Node::KeyValueProp;
        self.push(Piece::Open { field, node })?;
        self.key_in_object(sym)?;
        self.meet(1, new, role)?;
        self.push(Piece::Close)
    }

    // The other name of a specifier, which was its only one.
    fn word(&mut self, sym: &'a str) -> Result<(), AllocError>
        ensures { OnOk result
            (self.new ≡ with_items self.old (h.Ident 1 sym.now 0 Word ∷ [])) }
    {
        self.push(identifier(1, Name { sym, ctxt: 0 }, Role::Word))
    }

    // An identifier of this name in the place of the next occurrence, which is met.
    fn meet(&mut self, field: u8, name: Name<'a>, role: Role) -> Result<(), AllocError>
        ensures { OnOk result
            (self.new
            ≡ met self.old (h.Ident field name.entry.sym.now name.entry.ctxt role ∷ [])) }
    {
        self.left = self.left.behind_first();
        self.push(identifier(field, name, role))
    }

    // An empty place of a list.
    fn hole(&mut self, field: u8) -> Result<(), AllocError>
        ensures { OnOk result (self.new ≡ walked.turned self.old (h.Hole field) []) }
    {
        if self.enclosing.is_gone() {
            Ok(())
        } else {
            self.push(Piece::Hole { field })
        }
    }

    // The end of a node.
    fn close(&mut self) -> Result<(), AllocError>
        ensures { OnOk result (self.new ≡ walked.ended self.old) }
    {
        match self.enclosing {
            Enclosing::Default => {
                self.push(Piece::Close)?;
                self.push(Piece::Close)?;
            }
            Enclosing::Gone => {}
            _ => self.push(Piece::Close)?,
        }
        self.enclosing = self.outer.pop().unwrap_or(Enclosing::Plain);
        Ok(())
    }

    // What becomes of the next occurrence, if anything is asked of it.
    fn upcoming(&self) -> Option<Step<'c>>
        ensures { option_map step_of result ≡ work.upcoming self.now.work }
    {
        self.left.first()
    }

    // The name that is to stand in the place of the next occurrence, which is this one.
    fn name_instead(&self, name: Name<'a>) -> Name<'a>
        ensures { marks.ident_of result
            ≡ walked.ident_instead (next self.now.work name.entry.sym.now)
            (marks.ident_of name.entry) }
    {
        match self.upcoming() {
            Some(step) => step.name,
            None => name,
        }
    }

    // Whether what is short is spelled out at the next occurrence, whose symbol this is.
    fn spells_out(&self, sym: &str) -> bool
        ensures { result ≡ rebuilds.spells_out (next self.now.work sym.now) }
    {
        match self.upcoming() {
            Some(step) => step.spells_out(sym),
            None => false,
        }
    }

    // The name that stands for a member expression that just began, if one does: it is as many static reads around
    // the next occurrence as that one's name stands for.
    fn name_for_member(&self, ahead: &[Piece]) -> Option<Name<'c>>
        ensures { option_map marks.ident_of result
            ≡ (if walked.is_target self.now.enclosing then None
            else walked.name_for_member_ahead (work.upcoming self.now.work)
            (map item_of ahead.now)) }
    {
        if self.enclosing.is_target() {
            return None;
        }
        let step = self.upcoming()?;
        match step.whole {
            Whole::Alone => None,
            Whole::Reads(count) => name_if(are_reads(ahead, count), step.name),
            Whole::Call => None,
        }
    }

    // The name that is called in the place of a call that just began, if one is: it is a literal call of the next
    // occurrence.
    fn name_for_call(&self, ahead: &[Piece]) -> Option<Name<'c>>
        ensures { option_map marks.ident_of result
            ≡ walked.name_for_call_ahead (work.upcoming self.now.work) (map item_of ahead.now) }
    {
        let step = self.upcoming()?;
        match step.whole {
            Whole::Alone => None,
            Whole::Reads(_) => None,
            Whole::Call => name_if(is_literal_call(ahead), step.name),
        }
    }

    // A node, whose notes may be cleared.
    fn noted(&self, node: Node<'a>) -> Node<'a>
        ensures { head_of result
            ≡ walked.noted self.now.notes (head_of node.entry) }
    {
        match self.notes {
            Some(notes) => with_notes(node, notes),
            None => node,
        }
    }
}

/// The notes of a declaration on which nothing is noted.
pub fn no_notes() -> ExportMetadata
    ensures { result ≡ becomes.no_notes }
{
    ExportMetadata {
        injected: false,
        export_ctxt: None,
    }
}

// A node with these notes, if it has any.
fn with_notes<'a>(node: Node<'a>, notes: &'a ExportMetadata) -> Node<'a>
    ensures { head_of result ≡ walked.noted (Some notes.now) (head_of node.entry) }
{
    match node {
        Node::VarDecl { kind, .. } => Node::VarDecl { kind, meta: notes },
        _ => node,
    }
}

// What is around the names of a specifier that just began.
fn in_specifier(ahead: &[Piece]) -> Enclosing
    ensures { result
        ≡ (if walked.is_alone (map item_of ahead.now) then around.Specifier
        else around.Plain) }
{
    if is_alone(ahead) {
        Enclosing::Specifier
    } else {
        Enclosing::Plain
    }
}

// What is around that which is first in an assignment or an optional chain that just began.
fn in_assignment(ahead: &[Piece]) -> Enclosing
    ensures { result
        ≡ (if becomes.begins_with_member (map item_of ahead.now) then around.Target
        else around.Plain) }
{
    if begins_with_member(ahead) {
        Enclosing::Target
    } else {
        Enclosing::Plain
    }
}

// An identifier of this name.
fn identifier<'a>(field: u8, name: Name<'a>, role: Role) -> Piece<'a>
    ensures { item_of result ≡ h.Ident field name.entry.sym.now name.entry.ctxt role }
{
    Piece::Ident {
        field,
        sym: name.sym,
        ctxt: name.ctxt,
        role,
    }
}

// The name, if it is so.
fn name_if<'a>(is_so: bool, name: Name<'a>) -> Option<Name<'a>>
    ensures { result ≡ (if is_so then Some name.entry else None) }
{
    if is_so { Some(name) } else { None }
}
