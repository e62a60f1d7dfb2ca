//! Each kind of node of a tree, made of its list.

ghost use Rattle.std.specs.Prelude.{◌≡◌, map, length, MatchResult, IfOk};
ghost use Rattle.std.specs.List.{flat_map};
ghost use Rattle.bundle_syntax.specs.Item.{item_of};
ghost use Rattle.bundle_tree_parse.specs.declared.build.BuildError.TheVariants.{Form};
ghost use Rattle.bundle_tree_parse.specs.Built.{Builds};
ghost use Rattle.bundle_tree_parse.specs.Standing.{AreEach, IsIn};
ghost use Rattle.bundle_tree_parse.specs.Parse.{after_each, taken};

pub mod classes;
pub mod decls;
pub mod exprs;
pub mod modules;
pub mod names;
pub mod pats;
pub mod props;
pub mod stmts;

use crate::build::{BuildError, Builder};
use bundle_syntax::Piece;
use std::alloc::{AllocError, Global};

/// A kind of node that is made of its list.
pub trait FromList: Sized + Drop {
    ghost use Rattle.std.specs.Prelude.{ℕ, List};
    ghost use Rattle.bundle_syntax.specs.Item.{Item};
    ghost use Rattle.bundle_tree_parse.specs.Sorts.{Sort};

    // What stands where such a node may stand.
    ghost sort: { Sort };

    // The list of such a node that stands in the field of this number.
    ghost items: { ℕ → Self → List Item };

    /// The node with which the list begins, in this field, where so many nodes may be open at once. Refused, but
    /// for memory, only where the list begins with none.
    fn take<'p, 'a>(
        builder: &mut Builder<'p, 'a>,
        room: usize,
        field: u8,
    ) -> Result<Self, BuildError>
        ensures { Builds result (items field)
            (taken room sort field builder.old) builder.old builder.new };
}

impl<'p, 'a> Builder<'p, 'a> {
    /// The nodes that come next in this field, as many as there are.
    #[tactic(auto, using(crate::proofs::Parsing::building))]
    pub(crate) fn each<T: FromList>(&mut self, room: usize, field: u8) -> Result<Vec<T>, BuildError>
        ensures { Builds result (λ made. flat_map (T.items field) made.items)
            (after_each (taken room T.sort field) field (length self.old) self.old)
            self.old self.new }
    {
        let mut list = Vec::new(self.alloc);
        let most = self.most();
        for count in 0..most {
            if !self.is_in(field) {
                break;
            }
            let it = T::take(self, room, field)?;
            list.push(it)?;
        }
        list.shrink_to_fit();
        Ok(list)
    }
}

/// The node whose list this is, in field 0. Refused, but for memory, only where nothing that may stand there has this
/// list.
#[tactic(auto, using(crate::proofs::Lists::lists))]
pub fn build_node<'a, T: FromList>(alloc: Global, pieces: &[Piece<'a>]) -> Result<T, BuildError>
    ensures { MatchResult result
        (λ made. T.items 0 made ≡ map item_of pieces.now)
        (λ why. why ≡ Form → IsIn T.sort 0 (map item_of pieces.now) → ⊥) }
{
    let mut builder = Builder { alloc, pieces };
    let made = T::take(&mut builder, pieces.len(), 0)?;
    if builder.is_over() {
        Ok(made)
    } else {
        Err(BuildError::Form)
    }
}

/// The nodes whose lists stand here one after the other, each in field 0. Refused, but for memory, only where
/// something else stands here.
#[tactic(auto, using(crate::proofs::Lists::lists))]
pub fn build_nodes<'a, T: FromList>(
    alloc: Global,
    pieces: &[Piece<'a>],
) -> Result<Vec<T>, BuildError>
    ensures { MatchResult result
        (λ made. flat_map (T.items 0) made.items ≡ map item_of pieces.now)
        (λ why. why ≡ Form → AreEach T.sort 0 (map item_of pieces.now) → ⊥) }
{
    let mut builder = Builder { alloc, pieces };
    let made = builder.each(pieces.len(), 0)?;
    if builder.is_over() {
        Ok(made)
    } else {
        Err(BuildError::Form)
    }
}

/// The node whose list this is, in field 0, where it is known to be of that kind. Refused only where memory runs out.
pub fn make_node<'a, T: FromList>(alloc: Global, pieces: &[Piece<'a>]) -> Result<T, AllocError>
    requires { IsIn T.sort 0 (map item_of pieces.now) }
    ensures { IfOk result (λ made. T.items 0 made ≡ map item_of pieces.now) }
{
    match build_node(alloc, pieces) {
        Ok(made) => Ok(made),
        Err(BuildError::OutOfMemory) => Err(AllocError),
        Err(BuildError::Form) => unreachable!(),
    }
}

/// The nodes whose lists stand here one after the other, each in field 0, where they are known to be of that kind.
/// Refused only where memory runs out.
pub fn make_nodes<'a, T: FromList>(
    alloc: Global,
    pieces: &[Piece<'a>],
) -> Result<Vec<T>, AllocError>
    requires { AreEach T.sort 0 (map item_of pieces.now) }
    ensures { IfOk result (λ made. flat_map (T.items 0) made.items ≡ map item_of pieces.now) }
{
    match build_nodes(alloc, pieces) {
        Ok(made) => Ok(made),
        Err(BuildError::OutOfMemory) => Err(AllocError),
        Err(BuildError::Form) => unreachable!(),
    }
}
