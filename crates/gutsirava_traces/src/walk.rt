//! A statement of a module and what stands for it in a bundle, side by side.

use crate::maker::{MapMaker, PrintedList};
use crate::shape::{PieceShape, is_open, is_told};
use crate::source::SourceFile;
use crate::trace::{OwnBegin, OwnForm, SourceTrace};
use std::alloc::{AllocError, Global};

/// How far two lists are gone over.
#[derive(Drop)]
pub(crate) struct StatementWalk<'x, 'a> {
    list: PrintedList<'x, 'a>,
    own: OwnBegin,
    /// The places in the list of the module, and in that of the bundle.
    from: usize,
    to: usize,
    /// How many nodes are open.
    depth: usize,
    /// Of these, those in which one more is open in the bundle.
    deeper: Vec<usize>,
}

impl<'x, 'a> StatementWalk<'x, 'a> {
    ghost use Rattle.std.specs.Prelude.{◌≡◌, ◌≢◌, ◌≤◌, ◌-◌, true, IfOk, OnOk};
    ghost use Rattle.gutsirava_traces.specs.Told.{first_of, has_print, known, BeginsTold, IsOneTold, Tells, TellsFrom};
    ghost use Rattle.gutsirava_traces.specs.Traces.{place_of};
    ghost use Rattle.gutsirava_traces.specs.declared.trace.TheConstants.{NOWHERE};
    ghost use Rattle.gutsirava_traces.specs.Walks.{GoesOn, IsMoved};

    /// Before the first step, where a statement stands in a bundle at a place.
    pub(crate) fn new(
        alloc: Global,
        list: PrintedList<'x, 'a>,
        to: usize,
        own: OwnBegin,
    ) -> StatementWalk<'x, 'a>
        ensures list { result.list ≡ list.entry }
        ensures own { result.own ≡ own }
        ensures from { result.from ≡ own.at }
        ensures to { result.to ≡ to }
    {
        StatementWalk {
            list,
            own,
            from: own.at,
            to,
            depth: 0,
            deeper: Vec::new(alloc),
        }
    }

    /// Goes over the statement, and tells where it comes from. Gives the place behind it in the list of the bundle.
    pub(crate) fn run(
        mut self,
        maker: &mut MapMaker<'_>,
        source: &mut SourceFile<'_>,
    ) -> Result<usize, AllocError>
        ensures behind { IfOk result (λ behind. self.entry.to ≤ behind) }
        ensures told { IfOk result (λ behind. TellsFrom self.entry.list self.entry.to behind
            (self.entry.from - 1) source.old source.new maker.old maker.new) }
        ensures begun { IfOk result (λ behind. BeginsTold self.entry.own.form self.entry.from
            self.entry.list self.entry.to behind source.old source.new maker.old maker.new) }
    {
        if self.own.form == OwnForm::Gone {
            return Ok(self.to);
        }
        let behind = self.begin(maker, source)?;
        let end = self.go_over(maker, source)?;
        Ok(end.saturating_add(behind))
    }

    // Goes over the statement, up to its end. Gives the place of that in the list of the bundle.
    fn go_over(
        &mut self,
        maker: &mut MapMaker<'_>,
        source: &mut SourceFile<'_>,
    ) -> Result<usize, AllocError>
        ensures goes { OnOk result (GoesOn self.old.from self.old self.new source.old source.new
            maker.old maker.new) }
        ensures end { IfOk result (λ end. end ≡ self.new.to) }
    {
        let most = source
            .trace
            .shapes
            .len()
            .saturating_add(self.list.pieces.len());
        for _ in 0..most {
            self.step(maker, source)?;
            if self.depth == 0 {
                return Ok(self.to);
            }
        }
        Ok(self.to)
    }

    // Goes over what stands before the statement in a bundle, and tells where that, or the statement, begins. Gives how many nodes end behind it.
    #[tactic(auto, using(std::proofs::lemmas::Grind::common_steps, crate::proofs::WalkLemmas::goes_nowhere))]
    fn begin(
        &mut self,
        maker: &mut MapMaker<'_>,
        source: &mut SourceFile<'_>,
    ) -> Result<usize, AllocError>
        ensures goes { OnOk result (GoesOn (self.old.from - 1) self.old self.new source.old source.new
            maker.old maker.new) }
        ensures one { OnOk result (has_print self.old.own.form ≡ true
            → place_of (known source.old).places (first_of self.old.own.form self.old.from) ≢ NOWHERE
            → IsOneTold self.old.list self.old.to (first_of self.old.own.form self.old.from)
            source.old source.new maker.old maker.new) }
    {
        match self.own.form {
            OwnForm::Gone => Ok(0),
            OwnForm::Same => {
                self.tell(maker, source)?;
                Ok(0)
            }
            OwnForm::Constant => {
                let own = self.from.saturating_sub(1);
                maker.tell_piece(self.list, self.to, source, own)?;
                // `const name =`: a declaration, a declarator and a pattern with its name.
                self.to = self.to.saturating_add(5);
                Ok(2)
            }
            OwnForm::Declaration => {
                self.tell(maker, source)?;
                self.from = self.from.saturating_add(1);
                self.to = self
                    .to
                    .saturating_add(1)
                    .saturating_add(made_names(source.trace, self.from));
                self.depth = 1;
                Ok(0)
            }
        }
    }

    // Goes over a piece of each list, or over what stands for another.
    #[tactic(auto, using(std::proofs::lemmas::Grind::common_steps, crate::proofs::WalkLemmas::goes_quietly))]
    fn step(
        &mut self,
        maker: &mut MapMaker<'_>,
        source: &mut SourceFile<'_>,
    ) -> Result<(), AllocError>
        ensures { OnOk result (GoesOn self.old.from self.old self.new source.old source.new
            maker.old maker.new) }
    {
        let old = source.trace.shape(self.from);
        let new = self.list.shape(self.to);
        match (old, new) {
            (PieceShape::End, PieceShape::End) => {
                self.close();
                Ok(())
            }
            (PieceShape::End, _) => {
                self.to = self.list.behind(self.to);
                Ok(())
            }
            (_, PieceShape::End) => {
                self.from = source.trace.behind(self.from);
                Ok(())
            }
            (PieceShape::ShortPattern, PieceShape::PatternProperty) => self.open_pattern(
                maker, source,
            ),
            _ if old == new => self.pass(new, maker, source),
            _ => self.skip(old, maker, source),
        }
    }

    // Goes over pieces of one shape.
    fn pass(
        &mut self,
        shape: PieceShape,
        maker: &mut MapMaker<'_>,
        source: &mut SourceFile<'_>,
    ) -> Result<(), AllocError>
        ensures { OnOk result (GoesOn self.old.from self.old self.new source.old source.new
            maker.old maker.new) }
    {
        self.tell_if(is_told(shape), maker, source)?;
        self.from = self.from.saturating_add(1);
        self.to = self.to.saturating_add(1);
        self.depth = self.depth.saturating_add(usize::from(is_open(shape)));
        Ok(())
    }

    // Goes over the ends of nodes.
    fn close(&mut self)
        ensures { IsMoved self.old self.new }
    {
        let more = self.take_deeper();
        self.from = self.from.saturating_add(1);
        self.to = self.to.saturating_add(1).saturating_add(more);
        self.depth = self.depth.saturating_sub(1);
    }

    // How many more nodes end in the bundle here.
    fn take_deeper(&mut self) -> usize
        ensures list { self.new.list ≡ self.old.list }
        ensures from { self.new.from ≡ self.old.from }
        ensures to { self.new.to ≡ self.old.to }
    {
        if self.is_deeper() {
            let _ = self.deeper.pop();
            1
        } else {
            0
        }
    }

    // Whether one more node is open in the bundle here.
    fn is_deeper(&self) -> bool {
        match self.deeper.last() {
            Some(depth) => *depth == self.depth,
            None => false,
        }
    }

    // Goes over the begin of `{ a }` or `{ a = b }` in a pattern, where `{ a: c }` or `{ a: c = b }` stands in a bundle.
    fn open_pattern(
        &mut self,
        maker: &mut MapMaker<'_>,
        source: &mut SourceFile<'_>,
    ) -> Result<(), AllocError>
        ensures { OnOk result (GoesOn self.old.from self.old self.new source.old source.new
            maker.old maker.new) }
    {
        self.from = self.from.saturating_add(1);
        self.to = self.to.saturating_add(1);
        self.tell(maker, source)?;
        // The key.
        self.to = self.list.behind(self.to);
        self.depth = self.depth.saturating_add(1);
        self.open_default()
    }

    // Goes over the begin of a pattern with a default, where the bundle has one.
    fn open_default(&mut self) -> Result<(), AllocError>
        ensures { OnOk result (IsMoved self.old self.new) }
    {
        if self.list.shape(self.to) == PieceShape::DefaultPattern {
            self.to = self.to.saturating_add(1);
            self.deeper.push(self.depth)?;
        }
        Ok(())
    }

    // Goes over what stands for something else: all names in it come from there.
    #[tactic(auto, using(std::proofs::lemmas::Grind::common_steps, crate::proofs::ToldLemmas::tells_none, crate::proofs::ToldLemmas::tells_wider, crate::proofs::ToldLemmas::tells_then))]
    fn skip(
        &mut self,
        old: PieceShape,
        maker: &mut MapMaker<'_>,
        source: &mut SourceFile<'_>,
    ) -> Result<(), AllocError>
        ensures { OnOk result (GoesOn self.old.from self.old self.new source.old source.new
            maker.old maker.new) }
    {
        let from = source.trace.behind(self.from);
        let to = self.list.behind(self.to);
        let own = self.named_at(old, from, source.trace);
        for at in self.to..to {
            self.tell_named(at, own, maker, source)?;
        }
        self.from = from;
        self.to = to;
        Ok(())
    }

    // Tells where a piece comes from, if it is a name or the first of what is skipped.
    #[tactic(auto, using(std::proofs::lemmas::Grind::common_steps, crate::proofs::ToldLemmas::tells_none))]
    fn tell_named(
        &self,
        at: usize,
        own: usize,
        maker: &mut MapMaker<'_>,
        source: &mut SourceFile<'_>,
    ) -> Result<(), AllocError>
        ensures { OnOk result (Tells self.now.list
            (record { first = at; last = at; own = own; own_last = own })
            source.old source.new maker.old maker.new) }
    {
        if at == self.to || is_named(self.list.shape(at)) {
            maker.tell_piece(self.list, at, source, own)
        } else {
            Ok(())
        }
    }

    // Where the name stands by which what is skipped is called: of a property that is read, its word, the last node in it.
    fn named_at(&self, old: PieceShape, behind: usize, trace: &SourceTrace) -> usize
        ensures begin { self.now.from ≤ result }
        ensures end { self.now.from ≤ behind → result ≤ behind }
    {
        let word = behind.saturating_sub(3).max(self.from);
        if old == PieceShape::Member && trace.shape(word) == PieceShape::Word {
            word
        } else {
            self.from
        }
    }

    // Tells where a piece comes from, if that is told.
    #[tactic(auto, using(std::proofs::lemmas::Grind::common_steps, crate::proofs::ToldLemmas::tells_none))]
    fn tell_if(
        &self,
        is_told: bool,
        maker: &mut MapMaker<'_>,
        source: &mut SourceFile<'_>,
    ) -> Result<(), AllocError>
        ensures { OnOk result (Tells self.now.list
            (record {
              first = self.now.to;
              last = self.now.to;
              own = self.now.from;
              own_last = self.now.from;
            })
            source.old source.new maker.old maker.new) }
    {
        if is_told {
            self.tell(maker, source)
        } else {
            Ok(())
        }
    }

    // Tells where a piece comes from.
    fn tell(&self, maker: &mut MapMaker<'_>, source: &mut SourceFile<'_>) -> Result<(), AllocError>
        ensures tells { OnOk result (Tells self.now.list
            (record {
              first = self.now.to;
              last = self.now.to;
              own = self.now.from;
              own_last = self.now.from;
            })
            source.old source.new maker.old maker.new) }
        ensures one { OnOk result (place_of (known source.old).places self.now.from ≢ NOWHERE
            → IsOneTold self.now.list self.now.to self.now.from source.old source.new
            maker.old maker.new) }
    {
        maker.tell_piece(self.list, self.to, source, self.from)
    }
}

// How many names the bundle has in front of a place at which the name of a declaration may stand.
fn made_names(trace: &SourceTrace, at: usize) -> usize {
    usize::from(trace.shape(at) != PieceShape::Name)
}

fn is_named(shape: PieceShape) -> bool {
    matches!(shape, PieceShape::Name | PieceShape::Word)
}
