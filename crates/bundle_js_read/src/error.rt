//! Why a text is no module.

use bundle_js_errors::Early;
use bundle_js_record::reader::Stop;
use std::fmt;

/// Why a text is no module of its goal.
#[derive(Clone, Copy, PartialEq, Eq, Debug)]
pub enum ReadErrorKind {
    /// The text ends where more has to stand.
    End,
    /// JSX, which is not of ECMAScript.
    Jsx,
    /// TypeScript's syntax, which is not of ECMAScript.
    TypeScript,
    /// What stands here may not stand here.
    Syntax(Stop),
    /// What stands here is wrong by what stands elsewhere.
    Early(Early),
    /// More nodes lie in each other here than the caller takes.
    TooDeep,
    /// The records are those of another text. No text gives this.
    Internal,
    /// A growth was refused.
    OutOfMemory,
}

/// Why a text is no module, and the byte at which what is wrong begins.
#[derive(Clone, Copy, PartialEq, Eq, Debug)]
pub struct ReadError {
    pub kind: ReadErrorKind,
    pub at: u32,
}

// Why reading stopped.
fn sentence_of(stop: Stop) -> &'static str {
    match stop {
        Stop::Unexpected => "unexpected token",
        Stop::Scan(_) => "no token",
        Stop::Reserved => "unexpected reserved word",
        Stop::Await => "await is reserved here",
        Stop::Yield => "yield is reserved in strict code",
        Stop::Target => "invalid target of an assignment or a binding",
        Stop::Cover => "a value behind a shorthand property, which only a pattern may have",
        Stop::Return => "return outside of a function",
        Stop::Super => "super outside of a method",
        Stop::NewTarget => "new.target outside of a function",
        Stop::ImportMeta => "import.meta outside of an ECMAScript module",
        Stop::NotTop => "import and export may only stand at the top of an ECMAScript module",
        Stop::Arguments => "arguments in the value of a field or in a static block",
        Stop::Declaration => "a declaration where a statement has to stand",
        Stop::NoInitializer => "missing initializer in declaration",
        Stop::ForHead => "invalid declaration in the head of a for statement",
        Stop::Power => "the left operand of ** is a unary expression without parentheses",
        Stop::Nullish => "?? beside || or && without parentheses",
        Stop::Chain => "an optional chain may not stand here",
        Stop::Newline => "a line ends where none may end",
        Stop::Delete => "delete of a name or of a private member",
        Stop::UseStrict => "\"use strict\" in a function whose parameters are not plain names",
        Stop::Accessor => "a getter has no parameter, and a setter has exactly one",
        Stop::MemberName => "a member of a class may not have this name",
        Stop::Attributes => "import attributes are not of ECMAScript 2022",
        Stop::Decorator => "decorators are not of ECMAScript 2022",
        Stop::Deep => "too many steps",
        Stop::OutOfMemory => "out of memory",
        Stop::TooLong => "the text has 2^32 bytes or more",
    }
}

/// Writes why.
impl fmt::Display for ReadErrorKind {
    fn fmt<W: fmt::Write>(&self, f: &mut fmt::Formatter<W>) -> fmt::Result {
        match self {
            ReadErrorKind::End => write!(f, "unexpected end of the text"),
            ReadErrorKind::Jsx => write!(f, "JSX is not of ECMAScript"),
            ReadErrorKind::TypeScript => write!(f, "TypeScript's syntax is not of ECMAScript"),
            ReadErrorKind::Syntax(Stop::Scan(fault)) => write!(f, "{fault}"),
            ReadErrorKind::Syntax(stop) => {
                let sentence = sentence_of(*stop);
                write!(f, "{sentence}")
            }
            ReadErrorKind::Early(early) => write!(f, "{early}"),
            ReadErrorKind::TooDeep => write!(f, "nested too deep"),
            ReadErrorKind::Internal => write!(f, "internal error: a record without its text"),
            ReadErrorKind::OutOfMemory => write!(f, "out of memory"),
        }
    }
}

/// Writes why.
impl fmt::Display for ReadError {
    fn fmt<W: fmt::Write>(&self, f: &mut fmt::Formatter<W>) -> fmt::Result {
        let kind = self.kind;
        write!(f, "{kind}")
    }
}

impl std::error::Error for ReadError {}
