//! The records from the last to the first, so that what is around a record is known where it stands.

use crate::error::{Early, EarlyError};
use crate::frame::{CheckFrame, JumpContext, Undo};
use crate::labels::Labels;
use crate::members::{key_of, kind_of, private_key};
use crate::params::{Bound, before, bound_of};
use crate::privates::Privates;
use bundle_js_pieces::RecordTexts;
use bundle_js_record::kind::Kind;
use bundle_js_record::record::{Rec, record_at};
use bundle_js_regex::{RegexError, check_literal};
use std::alloc::Global;
use std::collections::BTreeMap;

// Where a parameter stands: the place of its function's record, and its place in the source.
#[derive(Clone, Copy)]
struct Parameter {
    function: usize,
    from: u32,
}

// The records that are gone through, what is around the one that is looked at, and what was found.
#[derive(Drop)]
struct Checker<'r, 'a> {
    alloc: Global,
    texts: RecordTexts<'a>,
    records: &'r [Rec],
    frames: Vec<CheckFrame>,
    labels: Labels<'a>,
    privates: Privates<'a>,
    // The last function that has a parameter of this name, and where the first of these stands.
    parameters: BTreeMap<&'a str, Parameter>,
    // What is wrong first in the source, of all that was found.
    found: Option<(Early, u32)>,
}

impl<'r, 'a> Checker<'r, 'a> {
    // Notes what is wrong at this place.
    fn refuse(&mut self, early: Early, from: u32) {
        let is_first = match self.found {
            Some((_, first)) => from < first,
            None => true,
        };
        if is_first {
            self.found = Some((early, from));
        }
    }

    // What a statement may leave, or go on with, here.
    fn context(&self) -> JumpContext {
        match self.frames.as_slice().last() {
            Some(frame) => frame.context,
            None => JumpContext {
                in_loop: false,
                in_breakable: false,
                labels: 0,
            },
        }
    }

    // Goes out of each node that the record at this place does not lie in.
    fn leave(&mut self, at: usize) -> Result<(), EarlyError> {
        for _ in 0..self.frames.len() {
            match self.frames.as_slice().last() {
                Some(frame) if frame.start as usize > at => {}
                _ => return Ok(()),
            }
            let undo = match self.frames.pop() {
                Some(frame) => frame.undo,
                None => Undo::Nothing,
            };
            match undo {
                Undo::Nothing => {}
                Undo::Label => self.labels.pop()?,
                Undo::Privates(outer) => self.privates.forget(outer)?,
            }
        }
        Ok(())
    }

    // Goes into the node whose record stands at this place.
    fn enter(
        &mut self,
        at: usize,
        start: u32,
        context: JumpContext,
        undo: Undo,
    ) -> Result<(), EarlyError> {
        let at = u32::try_from(at).unwrap_or(u32::MAX);
        self.frames.push(CheckFrame {
            at,
            start,
            context,
            undo,
        })?;
        Ok(())
    }

    // Looks at the record at this place.
    fn visit(&mut self, at: usize, rec: Rec) -> Result<(), EarlyError> {
        match rec.kind {
            Kind::Function
            | Kind::ArrowExpr
            | Kind::Constructor
            | Kind::GetterProp
            | Kind::SetterProp
            | Kind::StaticBlock => self.function(at, rec),
            Kind::WhileStmt
            | Kind::DoWhileStmt
            | Kind::ForStmt
            | Kind::ForInStmt
            | Kind::ForOfStmt => self.looping(at, rec),
            Kind::SwitchStmt => {
                let mut context = self.context();
                context.in_breakable = true;
                self.enter(at, rec.start, context, Undo::Nothing)
            }
            Kind::LabeledStmt => self.labeled(at, rec),
            Kind::BreakStmt | Kind::ContinueStmt => self.jump(at, rec),
            Kind::Class => self.class(at, rec),
            Kind::ObjectLit => self.object(at, rec),
            Kind::PrivateName => self.private_name(rec),
            Kind::Regex => self.regex(rec),
            _ => Ok(()),
        }
    }

    // A function, whatever it stands in, or a static block.
    fn function(&mut self, at: usize, rec: Rec) -> Result<(), EarlyError> {
        let body = record_at(self.records, at.saturating_sub(1));
        self.names(at, rec.start as usize, body.start as usize)?;
        let context = JumpContext {
            in_loop: false,
            in_breakable: false,
            labels: self.labels.len(),
        };
        self.enter(at, rec.start, context, Undo::Nothing)
    }

    // The names that the parameters in these records bind, from the last to the first. One alone is not looked up.
    fn names(&mut self, function: usize, start: usize, end: usize) -> Result<(), EarlyError> {
        let mut end = end;
        let mut later: Option<Rec> = None;
        let mut is_alone = true;
        for _ in start..end {
            if end <= start {
                break;
            }
            let rec = record_at(self.records, end - 1);
            if bound_of(rec.kind) == Bound::Name {
                if let Some(later) = later {
                    self.parameter(function, later)?;
                    is_alone = false;
                }
                later = Some(rec);
            }
            end = before(self.records, end - 1);
        }
        match later {
            Some(first) if !is_alone => self.parameter(function, first),
            _ => Ok(()),
        }
    }

    // A name that a parameter of this function binds.
    fn parameter(&mut self, function: usize, rec: Rec) -> Result<(), EarlyError> {
        let name = self.texts.value(rec)?;
        let from = rec.from;
        match self.parameters.insert(name, Parameter { function, from })? {
            Some(later) if later.function == function => {
                self.refuse(Early::ParameterTwice, later.from)
            }
            _ => {}
        }
        Ok(())
    }

    // A loop, which the labels right in front of it are of.
    fn looping(&mut self, at: usize, rec: Rec) -> Result<(), EarlyError> {
        for inside in 0..self.frames.len() {
            let place = self.frames.len().saturating_sub(inside).saturating_sub(1);
            match (
                self.frames.as_slice().get(place),
                at.checked_add(inside + 1),
            ) {
                (Some(frame), Some(around)) if frame.at as usize == around => match frame.undo {
                    Undo::Label => self.labels.mark_loop(inside),
                    _ => break,
                },
                _ => break,
            }
        }
        let mut context = self.context();
        context.in_loop = true;
        context.in_breakable = true;
        self.enter(at, rec.start, context, Undo::Nothing)
    }

    // A statement with a label.
    fn labeled(&mut self, at: usize, rec: Rec) -> Result<(), EarlyError> {
        let label = record_at(self.records, rec.start as usize);
        let name = self.texts.value(label)?;
        let context = self.context();
        if self.labels.find(name) > context.labels {
            self.refuse(Early::LabelTwice, label.from);
        }
        self.labels.push(name)?;
        self.enter(at, rec.start, context, Undo::Label)
    }

    // `break` or `continue`.
    fn jump(&mut self, at: usize, rec: Rec) -> Result<(), EarlyError> {
        let context = self.context();
        let is_break = rec.kind == Kind::BreakStmt;
        let is_right = if (rec.start as usize) < at {
            let label = record_at(self.records, rec.start as usize);
            let number = self.labels.find(self.texts.value(label)?);
            number > context.labels && (is_break || self.labels.is_loop(number))
        } else if is_break {
            context.in_breakable
        } else {
            context.in_loop
        };
        if !is_right {
            let early = if is_break {
                Early::Break
            } else {
                Early::Continue
            };
            self.refuse(early, rec.from);
        }
        Ok(())
    }

    // A class: what it declares is known in its members, and not in what it extends.
    fn class(&mut self, at: usize, rec: Rec) -> Result<(), EarlyError> {
        let outer = self.privates.len();
        let start = rec.start as usize;
        let mut end = at;
        let mut constructor: Option<u32> = None;
        for _ in start..at {
            if end <= start {
                break;
            }
            let member = record_at(self.records, end - 1);
            if member.kind != Kind::Gone && member.field == 0 {
                break;
            }
            if member.kind == Kind::Constructor {
                if let Some(later) = constructor {
                    self.refuse(Early::ConstructorTwice, later);
                }
                constructor = Some(member.from);
            }
            self.declare(outer, member, end - 1)?;
            end = member.start as usize;
        }
        let inside = u32::try_from(end).unwrap_or(u32::MAX);
        let context = self.context();
        self.enter(at, inside, context, Undo::Privates(outer))
    }

    // Declares the private name of a member, if it has one.
    fn declare(&mut self, outer: u32, member: Rec, at: usize) -> Result<(), EarlyError> {
        let Some(kind) = kind_of(member) else {
            return Ok(());
        };
        let key = private_key(self.records, member, at);
        let name = self.texts.value(key)?;
        if let Some(later) = self.privates.declare(outer, name, kind, key.from)? {
            self.refuse(Early::PrivateTwice, later);
        }
        Ok(())
    }

    // An object: whether it has two values for `__proto__`.
    fn object(&mut self, at: usize, rec: Rec) -> Result<(), EarlyError> {
        let start = rec.start as usize;
        let mut end = at;
        let mut proto: Option<u32> = None;
        for _ in start..at {
            if end <= start {
                break;
            }
            let property = record_at(self.records, end - 1);
            if property.kind == Kind::KeyValueProp {
                let key = key_of(self.records, end - 1);
                if self.is_proto(key)? {
                    if let Some(later) = proto {
                        self.refuse(Early::ProtoTwice, later);
                    }
                    proto = Some(key.from);
                }
            }
            end = property.start as usize;
        }
        Ok(())
    }

    // Whether a key is `__proto__`, as a name or a string.
    fn is_proto(&self, key: Rec) -> Result<bool, EarlyError> {
        match key.kind {
            Kind::IdentName | Kind::Str => Ok(self.texts.value(key)? == "__proto__"),
            _ => Ok(false),
        }
    }

    // A private name, as a key or as a property.
    fn private_name(&mut self, rec: Rec) -> Result<(), EarlyError> {
        if self.privates.find(self.texts.value(rec)?) == 0 {
            self.refuse(Early::PrivateUnknown, rec.from);
        }
        Ok(())
    }

    // A regular expression.
    fn regex(&mut self, rec: Rec) -> Result<(), EarlyError> {
        let literal = self.texts.raw(rec)?;
        match check_literal(self.alloc, literal) {
            Ok(()) => Ok(()),
            Err(refusal) if refusal.error == RegexError::OutOfMemory => Err(
                EarlyError::OutOfMemory,
            ),
            Err(refusal) => {
                self.refuse(Early::Regex(refusal.error), rec.from);
                Ok(())
            }
        }
    }
}

/// Refused where a text with these records has an early error that only the whole of it shows, and for memory.
pub fn check(alloc: Global, texts: RecordTexts<'_>, records: &[Rec]) -> Result<(), EarlyError> {
    let mut checker = Checker {
        alloc,
        texts,
        records,
        frames: Vec::new(alloc),
        labels: Labels::new(alloc),
        privates: Privates::new(alloc),
        parameters: BTreeMap::new(alloc),
        found: None,
    };
    for (at, rec) in records.iter().enumerate().rev() {
        checker.leave(at)?;
        checker.visit(at, *rec)?;
    }
    match checker.found {
        Some((early, from)) => Err(EarlyError::Early(early, from)),
        None => Ok(()),
    }
}
