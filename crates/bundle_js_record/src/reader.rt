//! A text that is read, and the list that grows from it.

use crate::kind::Kind;
use crate::pattern::{PatternUse, turn};
use crate::record::{NodeStart, Rec, record_at};
use bundle_js_scan::fault::ScanError;
use bundle_js_scan::gap::Comment;
use bundle_js_scan::lexer::{Goal, Lexer};
use bundle_js_scan::store::Store;
use bundle_js_scan::token::{Tok, Token, is_word};
use std::alloc::{AllocError, Global};

/// Why a text was not read. Where, the reader says.
#[derive(Clone, Copy, PartialEq, Eq, Debug)]
pub enum Stop {
    /// No such token may stand here.
    Unexpected,
    /// No token stands here.
    Scan(ScanError),
    /// A keyword or a word that strict code reserves where a name has to stand.
    Reserved,
    /// `await` where the goal or the function reserves it, and it is no operator.
    Await,
    /// `yield` outside generators, or in the parameters of one.
    Yield,
    /// What is assigned to, or bound, is nothing that can be.
    Target,
    /// `a = 1` in an object that is no pattern.
    Cover,
    /// `return` outside functions.
    Return,
    /// `super` where there is none.
    Super,
    /// `new.target` outside functions.
    NewTarget,
    /// `import.meta` in a CommonJS module.
    ImportMeta,
    /// `import` or `export` anywhere but at the top of a module.
    NotTop,
    /// `arguments` in a field's value or a static block.
    Arguments,
    /// A declaration where one statement has to stand.
    Declaration,
    /// A declaration without the value that it needs.
    NoInitializer,
    /// A value in the declaration of a `for` over values or keys, or several names there.
    ForHead,
    /// The operand of `**` is a unary operator's.
    Power,
    /// `??` beside `||` or `&&`.
    Nullish,
    /// An optional chain as a tag, or behind `new`.
    Chain,
    /// A line ends where none may end.
    Newline,
    /// `delete` of a name or of a private member.
    Delete,
    /// `"use strict"` in a function whose parameters are not plain names.
    UseStrict,
    /// A getter with a parameter, or a setter without its one.
    Accessor,
    /// A name that a member of a class may not have.
    MemberName,
    /// Import attributes, which are not of ECMAScript 2022.
    Attributes,
    /// A decorator, which is not of ECMAScript 2022.
    Decorator,
    /// The nests of the text need more steps than were counted. No text does.
    Deep,
    /// There is no memory for the list.
    OutOfMemory,
    /// The text has 2 ^ 32 bytes or more.
    TooLong,
}

impl From<AllocError> for Stop {
    fn from(_error: AllocError) -> Stop {
        Stop::OutOfMemory
    }
}

/// A text that is read, the records that were read of it, the texts of those with escapes, and the comments
/// that a bundle keeps.
#[derive(Drop)]
pub struct Reader<'a> {
    pub lexer: Lexer<'a>,
    pub records: Vec<Rec>,
    pub store: Store,
    pub comments: Vec<Comment>,
    /// The byte at which what is refused begins, where that is not the token.
    pub refused: Option<u32>,
}

impl<'a> Reader<'a> {
    /// A reader at the begin of the text.
    pub fn new(alloc: Global, text: &'a str, goal: Goal) -> Result<Reader<'a>, Stop> {
        match Lexer::new(text, goal) {
            None => Err(Stop::TooLong),
            Some(lexer) => Ok(Reader {
                lexer,
                records: Vec::new(alloc),
                store: Store::new(alloc),
                comments: Vec::new(alloc),
                refused: None,
            }),
        }
    }

    /// The kind of the token that is looked at.
    pub fn tok(&self) -> Tok {
        self.lexer.token().kind
    }

    /// The kind of the token behind it.
    pub fn peek(&self) -> Token {
        self.lexer.peek()
    }

    /// Whether a line ends before the token that is looked at.
    pub fn newline(&self) -> bool {
        self.lexer.token().newline
    }

    /// The place of what begins here.
    pub fn place(&self) -> NodeStart {
        NodeStart {
            start: self.end(),
            from: self.lexer.token().from,
        }
    }

    /// The place in the list of the next record.
    pub fn end(&self) -> u32 {
        u32::try_from(self.records.len()).unwrap_or(u32::MAX)
    }

    /// Goes to the next token.
    pub fn advance(&mut self) {
        self.lexer.advance();
    }

    /// Keeps the comments before the token that are to be kept.
    pub fn note(&mut self) -> Result<(), Stop> {
        self.lexer.push_comments(&mut self.comments)?;
        Ok(())
    }

    /// Why the token that is looked at may not stand here.
    pub fn unexpected(&self) -> Stop {
        let token = self.lexer.token();
        match token.kind {
            Tok::Bad => match token.fault {
                Some(fault) => Stop::Scan(fault),
                None => Stop::Unexpected,
            },
            Tok::At => Stop::Decorator,
            Tok::Import | Tok::Export => Stop::NotTop,
            _ => Stop::Unexpected,
        }
    }

    /// Refuses what begins at this byte.
    pub fn refuse(&mut self, from: u32, stop: Stop) -> Stop {
        self.refused = Some(from);
        stop
    }

    /// Goes on where the token is this one.
    pub fn eat(&mut self, tok: Tok) -> bool {
        if self.tok() == tok {
            self.advance();
            true
        } else {
            false
        }
    }

    /// Goes on over this token; refused where another stands there.
    pub fn expect(&mut self, tok: Tok) -> Result<(), Stop> {
        if self.eat(tok) {
            Ok(())
        } else {
            Err(self.unexpected())
        }
    }

    /// Whether a semicolon stands here or may be left out: at a line's end, at a closing brace and at the end
    /// (ECMA-262, 12.10).
    pub fn may_end(&self) -> bool {
        matches!(self.tok(), Tok::Semicolon | Tok::CloseBrace | Tok::End) || self.newline()
    }

    /// Goes over a semicolon, which may be left out where `may_end` says so.
    pub fn semicolon(&mut self) -> Result<(), Stop> {
        if self.eat(Tok::Semicolon) || self.may_end() {
            Ok(())
        } else {
            Err(self.unexpected())
        }
    }

    // Writes a record.
    fn write(&mut self, record: Rec) -> Result<(), Stop> {
        match self.records.push(record) {
            Ok(()) => Ok(()),
            Err(_) => Err(Stop::OutOfMemory),
        }
    }

    /// The record of a part of a template, with its text in the store where it is not that of the source. It is
    /// written by `leaf_again`, when the template ends.
    pub fn quasi(&mut self, token: Token) -> Result<Rec, Stop> {
        self.store.cook(self.lexer.source(), token)?;
        Ok(Rec {
            kind: Kind::TplElement,
            field: 1,
            op: 0,
            escaped: token.escaped,
            start: 0,
            from: token.from,
            to: token.raw_end(),
        })
    }

    /// Writes the record of a leaf that was made before.
    pub fn leaf_again(&mut self, rec: Rec) -> Result<(), Stop> {
        let start = self.end();
        self.write(Rec { start, ..rec })
    }

    /// Writes a record of this token, which was gone over.
    pub fn leaf_of(&mut self, kind: Kind, op: u8, token: Token) -> Result<(), Stop> {
        if token.escaped {
            self.store.cook(self.lexer.source(), token)?;
        }
        let start = self.end();
        self.write(Rec {
            kind,
            field: 0,
            op,
            escaped: token.escaped,
            start,
            from: token.from,
            to: token.to,
        })
    }

    /// Writes a record of the token, and goes to the next.
    pub fn leaf(&mut self, kind: Kind, op: u8) -> Result<(), Stop> {
        let token = self.lexer.token();
        self.leaf_of(kind, op, token)?;
        self.advance();
        Ok(())
    }

    /// Writes a record of no token.
    pub fn hole(&mut self) -> Result<(), Stop> {
        let NodeStart { start, from } = self.place();
        self.write(Rec {
            kind: Kind::Hole,
            field: 0,
            op: 0,
            escaped: false,
            start,
            from,
            to: from,
        })
    }

    /// Writes the record of a node that begins at the place and ends before the token.
    pub fn node(&mut self, kind: Kind, op: u8, place: NodeStart) -> Result<(), Stop> {
        let NodeStart { start, from } = place;
        let to = self.lexer.before();
        self.write(Rec {
            kind,
            field: 0,
            op,
            escaped: false,
            start,
            from,
            to,
        })
    }

    /// Gives the last record its field.
    pub fn field(&mut self, field: u8) {
        if let Some(last) = self.records.as_mut_slice().last_mut() {
            last.field = field;
        }
    }

    /// Gives the last record another kind.
    pub fn rename(&mut self, kind: Kind) {
        if let Some(last) = self.records.as_mut_slice().last_mut() {
            last.kind = kind;
        }
    }

    /// Gives the record at this place another kind.
    pub fn rename_at(&mut self, at: usize, kind: Kind) {
        if let Some(rec) = self.records.as_mut_slice().get_mut(at) {
            rec.kind = kind;
        }
    }

    /// Gives the last record another number of its kind's own.
    pub fn mark(&mut self, op: u8) {
        if let Some(last) = self.records.as_mut_slice().last_mut() {
            last.op = op;
        }
    }

    /// The last record; one of no kind where there is none.
    pub fn last(&self) -> Rec {
        self.at(self.records.len().saturating_sub(1))
    }

    /// The record at this place; one of no kind where there is none.
    pub fn at(&self, at: usize) -> Rec {
        record_at(self.records.as_slice(), at)
    }

    /// The kind of the last record.
    pub fn last_kind(&self) -> Kind {
        self.last().kind
    }

    /// Whether the text of this name or string is `text`.
    pub fn is_text(&self, rec: Rec, text: &str) -> bool {
        let (from, to) = match rec.kind {
            Kind::Str => (rec.from.saturating_add(1), rec.to.saturating_sub(1)),
            Kind::PrivateName => (rec.from.saturating_add(1), rec.to),
            _ => (rec.from, rec.to),
        };
        let found = if rec.escaped {
            self.store.text(rec.from)
        } else {
            self.lexer.source().get(from as usize..to as usize)
        };
        match found {
            Some(found) => found == text,
            None => false,
        }
    }

    /// A name of any kind, reserved or not, as a record of this kind.
    pub fn word(&mut self, kind: Kind) -> Result<(), Stop> {
        if is_word(self.tok()) {
            self.leaf(kind, 0)
        } else {
            Err(self.unexpected())
        }
    }

    /// Turns what was written from this place on from expressions into patterns, where it stands.
    pub fn pattern(&mut self, start: u32, purpose: PatternUse) -> Result<(), Stop> {
        match turn(self.records.as_mut_slice(), start as usize, purpose) {
            Ok(()) => Ok(()),
            Err(from) => Err(self.refuse(from, Stop::Target)),
        }
    }
}
