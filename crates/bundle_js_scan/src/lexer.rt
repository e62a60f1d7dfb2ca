//! A text and the token that is looked at. The one token is read anew where the grammar asks for another goal.

ghost use Rattle.std.specs.Prelude.{◌≡◌, ◌≤◌, ◌<◌, ◌^◌, length};

pub use crate::gap::Goal;
use crate::gap::{Comment, kept_in};
use crate::scan::{chunk_token, regex_token, token_at};
use crate::token::Token;
use std::alloc::AllocError;

/// A text of less than 2 ^ 32 bytes and a token in it.
#[derive(Drop)]
pub struct Lexer<'a> {
    source: &'a str,
    goal: Goal,
    token: Token,
    before: u32,
    ghost short: { length source.now < 2 ^ 32 },
    ghost ordered: { token.from ≤ token.to },
    ghost within: { token.to ≤ length source.now },
    ghost behind: { before ≤ length source.now },
}

impl<'a> Lexer<'a> {
    /// The first token of the text; none where the text has 2 ^ 32 bytes or more.
    pub fn new(source: &'a str, goal: Goal) -> Option<Lexer<'a>> {
        if source.len() >= 4294967296 {
            return None;
        }
        let token = token_at(source.as_bytes(), 0, goal);
        Some(Lexer {
            source,
            goal,
            token,
            before: 0,
        })
    }

    /// The text.
    #[inline]
    pub fn source(&self) -> &'a str {
        self.source
    }

    /// The token that is looked at.
    #[inline]
    pub fn token(&self) -> Token
        ensures { result.from ≤ result.to }
    {
        self.token
    }

    /// The end of the token before.
    #[inline]
    pub fn before(&self) -> u32 {
        self.before
    }

    /// The length of the text in bytes.
    pub fn len(&self) -> usize
        ensures { result < 2 ^ 32 }
    {
        self.source.len()
    }

    /// The token behind the one that is looked at, read as one behind a name is.
    pub fn peek(&self) -> Token {
        self.token_behind(self.token.to)
    }

    /// The token behind this byte, read as one behind a name is.
    pub fn token_behind(&self, at: u32) -> Token {
        token_at(self.source.as_bytes(), at as usize, self.goal)
    }

    /// Goes to the next token.
    pub fn advance(&mut self) {
        let source = self.source;
        let goal = self.goal;
        let before = self.token.to;
        let token = token_at(source.as_bytes(), before as usize, goal);
        *self = Lexer {
            source,
            goal,
            token,
            before,
        };
    }

    /// Reads the slash that is looked at anew as a regular expression (ECMA-262, 12.9.5); it is `Bad` where it
    /// has no end.
    pub fn regex(&mut self) {
        let source = self.source;
        let goal = self.goal;
        let before = self.before;
        let token = regex_token(source.as_bytes(), self.token);
        *self = Lexer {
            source,
            goal,
            token,
            before,
        };
    }

    /// Reads the part of a template behind the token that is looked at, which becomes the token: `TplPart`,
    /// `TplLast`, or `Bad` where it has no end (12.9.6).
    pub fn chunk(&mut self) {
        let source = self.source;
        let goal = self.goal;
        let before = self.token.to;
        let token = chunk_token(source.as_bytes(), before as usize);
        *self = Lexer {
            source,
            goal,
            token,
            before,
        };
    }

    /// Adds the comments that are kept and stand between the token and the one before.
    pub fn push_comments(&self, comments: &mut Vec<Comment>) -> Result<(), AllocError> {
        if !self.token.noted {
            return Ok(());
        }
        let mut at = self.before as usize;
        let end = self.token.from as usize;
        for _ in at..end {
            match kept_in(self.source.as_bytes(), at, end, self.goal) {
                None => return Ok(()),
                Some(comment) => {
                    comments.push(comment)?;
                    at = comment.to as usize;
                }
            }
        }
        Ok(())
    }
}
