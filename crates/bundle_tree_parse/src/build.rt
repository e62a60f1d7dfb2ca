//! What is left of a list, and the tree that it gives.

ghost use Rattle.std.specs.Prelude.{◌≡◌, ◌+◌, ◌∷◌, [], map, length, Option, Some, None, Ok, Err, ◌↔◌, MatchResult, IfOk, IfErr, IsTrue, OnErr};
ghost use Rattle.bundle_syntax.specs.Item.{head_of, item_of, Close, Hole, Ident, Open};
ghost use Rattle.bundle_tree_parse.specs.declared.build.BuildError.TheVariants.{Form};
ghost use Rattle.bundle_tree_parse.specs.Sorts.{Sort, holds, name_of};
ghost use Rattle.bundle_tree_parse.specs.Built.{Leaves};
ghost use Rattle.bundle_tree_parse.specs.Parse.{after_close, after_inside, after_name, closed, after_hole, after_ident, begins_in, begins_with_hole, begins_with_ident, opened, taken, within};

use bundle_syntax::{Node, Piece, Role};
use std::alloc::{AllocError, AllocFailed, Global};
use std::fmt;
use std::marker::Model;

/// Why a list gives no tree.
#[derive(Clone, Copy, PartialEq, Eq, Debug)]
pub enum BuildError {
    /// It is not the list of a tree.
    Form,
    /// A growth was refused.
    OutOfMemory,
}

/// Writes why.
impl fmt::Display for BuildError {
    ghost use Rattle.std.specs.Prelude.{Some};
    ghost use Rattle.bundle_tree_parse.specs.Error.{shown};

    ghost output = { λ refusal. Some (shown refusal) };

    fn fmt<W: fmt::Write>(&self, f: &mut fmt::Formatter<W>) -> fmt::Result {
        let reason = match self {
            BuildError::Form => "not the list of a tree",
            BuildError::OutOfMemory => "out of memory",
        };
        write!(f, "{reason}")
    }
}

impl std::error::Error for BuildError {}

impl From<AllocError> for BuildError {
    ghost use Rattle.std.specs.Prelude.{◌≡◌};
    ghost use Rattle.bundle_tree_parse.specs.declared.build.BuildError.TheVariants.{OutOfMemory};

    ghost from_gives = { λ _ refusal. refusal ≡ OutOfMemory };

    fn from(_refused: AllocError) -> BuildError {
        BuildError::OutOfMemory
    }
}

impl<T: Drop> From<AllocFailed<T>> for BuildError {
    ghost use Rattle.std.specs.Prelude.{◌≡◌};
    ghost use Rattle.bundle_tree_parse.specs.declared.build.BuildError.TheVariants.{OutOfMemory};

    ghost from_gives = { λ _ refusal. refusal ≡ OutOfMemory };

    fn from(_refused: AllocFailed<T>) -> BuildError {
        BuildError::OutOfMemory
    }
}

/// What is left of a list from which a tree is made. Each method takes the pieces of one child; `field` is the number of the child's field
/// in the node around it, and `room` how many more nodes may be open at once. Clauses see the items that are left.
#[derive(Drop)]
pub struct Builder<'p, 'a> {
    pub(crate) alloc: Global,
    pub(crate) pieces: &'p [Piece<'a>],
}

impl<'p, 'a> Model for Builder<'p, 'a> {
    ghost use Rattle.std.specs.Prelude.{List, map};
    ghost use Rattle.bundle_syntax.specs.Item.{Item, item_of};

    ghost Value = { List Item };

    ghost view = { λ builder. map item_of builder.pieces.now };
}

/// The room inside a node that was just opened.
#[tactic(auto, using(crate::proofs::Parsing::parsing))]
pub(crate) fn inside(room: usize) -> Result<usize, BuildError>
    ensures less { IfOk result (λ less. less + 1 ≡ room) }
    ensures within { IfOk result (λ less. within room ≡ Some (taken less)) }
    ensures refused { OnErr result (within room ≡ None) }
{
    match room.checked_sub(1) {
        Some(less) => Ok(less),
        None => Err(BuildError::Form),
    }
}

impl<'p, 'a> Builder<'p, 'a> {
    // The piece that comes next.
    fn next(&mut self) -> Result<Piece<'a>, BuildError>
        ensures taken { IfOk result (λ piece. self.old ≡ item_of piece ∷ self.new) }
        ensures refused { OnErr result (self.old ≡ []) }
    {
        let pieces = self.pieces;
        match pieces {
            [piece, rest @ ..] => {
                self.pieces = rest;
                Ok(*piece)
            }
            [] => Err(BuildError::Form),
        }
    }

    // The node that begins next in this field.
    fn open(&mut self, field: u8) -> Result<Node<'a>, BuildError>
        ensures item { IfOk result (λ node. self.old ≡ Open field (head_of node) ∷ self.new) }
        ensures taken { IfOk result (λ node.
            opened field self.old ≡ Some (record { head = head_of node; inside = self.new })) }
        ensures refused { OnErr result (opened field self.old ≡ None) }
    {
        match self.next()? {
            Piece::Open { field: at, node } if at == field => Ok(node),
            _ => Err(BuildError::Form),
        }
    }

    fn close(&mut self) -> Result<(), BuildError>
        ensures taken { IfOk result (λ done. self.old ≡ Close ∷ self.new) }
        ensures refused { OnErr result (after_close self.old ≡ None) }
    {
        match self.next()? {
            Piece::Close => Ok(()),
            _ => Err(BuildError::Form),
        }
    }

    /// The node that begins next in this field, and the room inside.
    #[tactic(auto, using(crate::proofs::Parsing::parsing))]
    pub(crate) fn enter(&mut self, room: usize, field: u8) -> Result<(Node<'a>, usize), BuildError>
        ensures item { IfOk result (λ it. self.old ≡ Open field (head_of it.0) ∷ self.new) }
        ensures less { IfOk result (λ it. it.1 + 1 ≡ room) }
        ensures taken { IfOk result (λ it. (sort : Sort) →
            taken room sort field self.old ≡
            closed (after_inside (taken it.1) (holds sort (head_of it.0)) self.new)) }
        ensures refused { OnErr result ((sort : Sort) →
            after_name (name_of sort) field self.old ≡ None →
            taken room sort field self.old ≡ None) }
    {
        let node = self.open(field)?;
        let less = inside(room)?;
        Ok((node, less))
    }

    /// What was made of the inside of a node, where the node ends there.
    #[tactic(auto, using(crate::proofs::Parsing::parsing))]
    pub(crate) fn leave<T: Drop>(&mut self, made: Result<T, BuildError>) -> Result<T, BuildError>
        ensures { Leaves made result self.old self.new }
    {
        let it = made?;
        self.close()?;
        Ok(it)
    }

    /// What was made, in a box.
    #[tactic(auto, using(crate::proofs::Parsing::parsing))]
    pub(crate) fn boxed<T: Drop>(&self, made: Result<T, BuildError>) -> Result<Box<T>, BuildError>
        ensures { MatchResult result
            (λ it. made ≡ Ok it.value)
            (λ why. why ≡ Form → made ≡ Err Form) }
    {
        let it = made?;
        Ok(Box::new(self.alloc, it)?)
    }

    pub(crate) fn hole(&mut self, field: u8) -> Result<(), BuildError>
        ensures item { IfOk result (λ done. self.old ≡ Hole field ∷ self.new) }
        ensures taken { IfOk result (λ done. after_hole field self.old ≡ Some self.new) }
        ensures refused { OnErr result (after_hole field self.old ≡ None) }
    {
        match self.next()? {
            Piece::Hole { field: at } if at == field => Ok(()),
            _ => Err(BuildError::Form),
        }
    }

    /// The identifier that comes next in this field, in this role.
    pub(crate) fn take_ident(&mut self, field: u8, role: Role) -> Result<(&'a str, u32), BuildError>
        ensures item { IfOk result (λ it. self.old ≡ Ident field it.0.now it.1 role ∷ self.new) }
        ensures taken { IfOk result (λ it. after_ident role field self.old ≡ Some self.new) }
        ensures refused { OnErr result (after_ident role field self.old ≡ None) }
    {
        match self.next()? {
            Piece::Ident {
                field: at,
                sym,
                ctxt,
                role: found,
            } if at == field && found == role => Ok((sym, ctxt)),
            _ => Err(BuildError::Form),
        }
    }

    /// Whether an identifier comes next.
    pub(crate) fn is_ident(&self) -> bool
        ensures { result ≡ begins_with_ident self.now }
    {
        match self.pieces.first() {
            Some(Piece::Ident { .. }) => true,
            _ => false,
        }
    }

    /// Whether a place without an element comes next.
    pub(crate) fn is_hole(&self) -> bool
        ensures { result ≡ begins_with_hole self.now }
    {
        match self.pieces.first() {
            Some(Piece::Hole { .. }) => true,
            _ => false,
        }
    }

    /// Whether what comes next lies in this field.
    pub(crate) fn is_in(&self, field: u8) -> bool
        ensures { result ≡ begins_in field self.now }
    {
        match self.pieces.first() {
            Some(Piece::Open { field: at, .. }) => *at == field,
            Some(Piece::Ident { field: at, .. }) => *at == field,
            Some(Piece::Hole { field: at }) => *at == field,
            _ => false,
        }
    }

    /// How many elements a list can have at most.
    pub(crate) fn most(&self) -> usize
        ensures { result ≡ length self.now }
    {
        self.pieces.len()
    }

    /// Whether nothing is left.
    pub(crate) fn is_over(&self) -> bool
        ensures { IsTrue result ↔ (self.now ≡ []) }
    {
        self.pieces.is_empty()
    }
}
