//! The machine.

use crate::context::{Context, Home};
use crate::state::{Signature, State};
use bundle_js_record::kind::Kind;
use bundle_js_record::reader::{Reader, Stop};
use bundle_js_record::record::{NodeStart, Rec};
use bundle_js_scan::lexer::Goal;
use bundle_js_scan::token::{Tok, is_name, is_word};

/// A reader and the states that are still to be gone through, the next one last.
#[derive(Drop)]
pub struct Machine<'a> {
    pub reader: Reader<'a>,
    pub states: Vec<State>,
    /// The parts of the templates that have not ended, which are written when their template ends.
    pub quasis: Vec<Rec>,
    pub context: Context,
    pub goal: Goal,
    /// The byte at which the last assignment began, and whether `in` is no operator in it: an arrow function is
    /// the whole of an assignment.
    pub assignment: u32,
    pub no_in: bool,
}

impl Machine<'_> {
    /// Reads this before all else that is to be read.
    pub fn then(&mut self, state: State) -> Result<(), Stop> {
        match self.states.push(state) {
            Ok(()) => Ok(()),
            Err(_) => Err(Stop::OutOfMemory),
        }
    }

    /// Reads the one, and the other behind it.
    pub fn both(&mut self, first: State, second: State) -> Result<(), Stop> {
        self.then(second)?;
        self.then(first)
    }

    /// Reads the three in this order.
    pub fn three(&mut self, first: State, second: State, third: State) -> Result<(), Stop> {
        self.then(third)?;
        self.both(first, second)
    }

    /// Goes over the token, and reads the state behind it.
    pub fn behind(&mut self, state: State) -> Result<(), Stop> {
        self.reader.advance();
        self.then(state)
    }

    /// Has this context, until what is to be read before all else is read. What stands in it is pushed behind.
    pub fn enter(&mut self, context: Context) -> Result<(), Stop> {
        let outer = self.context;
        self.then(State::Leave(outer))?;
        self.context = context;
        Ok(())
    }

    /// Has the outer context again.
    pub fn leave(&mut self, outer: Context) {
        self.context = outer;
    }

    /// Whether the token is a name that nothing reserves here (ECMA-262, 13.1).
    pub fn is_name(&self, tok: Tok) -> bool {
        is_name(tok) || (tok == Tok::Await && !self.context.reserves_await)
    }

    /// Why the token is no name.
    pub fn no_name(&self) -> Stop {
        match self.reader.tok() {
            Tok::Await => Stop::Await,
            Tok::Yield => Stop::Yield,
            Tok::Import | Tok::Export => Stop::NotTop,
            tok => if is_word(tok) {
                Stop::Reserved
            } else {
                self.reader.unexpected()
            },
        }
    }

    /// A name that is bound, as a record of this kind.
    pub fn binding(&mut self, kind: Kind) -> Result<(), Stop> {
        let tok = self.reader.tok();
        if matches!(tok, Tok::Eval | Tok::Arguments) {
            return Err(Stop::Target);
        }
        if !self.is_name(tok) {
            return Err(self.no_name());
        }
        self.reader.leaf(kind, 0)
    }

    /// A name that stands for what is bound to it, as a record of this kind.
    pub fn reference(&mut self, kind: Kind) -> Result<(), Stop> {
        let tok = self.reader.tok();
        if !self.is_name(tok) {
            return Err(self.no_name());
        }
        let place = self.reader.place();
        let op = self.reference_op(tok, place)?;
        self.reader.leaf(kind, op)
    }

    /// What stands in the record of a name that stands for what is bound to it.
    pub fn reference_op(&mut self, tok: Tok, place: NodeStart) -> Result<u8, Stop> {
        match tok {
            Tok::Arguments if !self.context.has_arguments => Err(Stop::Arguments),
            Tok::Eval | Tok::Arguments => Ok(1),
            Tok::Await => {
                self.context.await_name = place.from.saturating_add(1);
                Ok(0)
            }
            _ => Ok(0),
        }
    }

    /// The parameters in parentheses and the body of a function, and what is to be read behind them.
    pub fn function(&mut self, signature: Signature, home: Home, end: State) -> Result<(), Stop> {
        let context = Context::parameters(self.goal, home, signature.is_async);
        self.enter(context)?;
        let place = self.reader.place();
        self.reader.expect(Tok::OpenParen)?;
        self.both(State::Params { signature, place }, end)
    }

    /// A node of this kind ends behind a semicolon, which may be left out.
    pub fn ends(&mut self, kind: Kind, op: u8, place: NodeStart) -> Result<(), Stop> {
        self.reader.semicolon()?;
        self.reader.node(kind, op, place)
    }
}
