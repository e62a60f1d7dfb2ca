//! Tokens (ECMA-262, 12).

ghost use Rattle.std.specs.Prelude.{◌<◌};

use crate::fault::ScanError;

/// What a token is.
#[derive(Clone, Copy, PartialEq, Eq, Debug)]
pub enum Tok {
    /// The end of the text.
    End,
    /// No token: `fault` says why.
    Bad,
    /// A numeric literal that is no `BigInt`.
    Num,
    /// A numeric literal that ends in `n`.
    BigInt,
    /// A string.
    Str,
    /// A regular expression with its flags, read by `regex`.
    Regex,
    /// A back quote that begins a template.
    Back,
    /// A part of a template that ends at `${`, read by `chunk`.
    TplPart,
    /// The part of a template that ends at its back quote, read by `chunk`.
    TplLast,
    /// A name behind `#`.
    PrivateName,
    /// A name that is none of the words.
    Ident,
    // Words that are names where they do not act as words.
    Arguments,
    As,
    Async,
    Constructor,
    Eval,
    From,
    Get,
    Meta,
    Of,
    Prototype,
    Set,
    Target,
    /// A word that strict code reserves, with an escape: it is no name and does not act as the word.
    Escaped,
    // The word that the goal and the function around it reserve.
    Await,
    // Words that strict code reserves (ECMA-262, 12.7.2).
    Implements,
    Interface,
    Let,
    Package,
    Private,
    Protected,
    Public,
    Static,
    Yield,
    // Words that are always reserved.
    Break,
    Case,
    Catch,
    Class,
    Const,
    Continue,
    Debugger,
    Default,
    Delete,
    Do,
    Else,
    Enum,
    Export,
    Extends,
    False,
    Finally,
    For,
    Function,
    If,
    Import,
    In,
    InstanceOf,
    New,
    Null,
    Return,
    Super,
    Switch,
    This,
    Throw,
    True,
    Try,
    TypeOf,
    Var,
    Void,
    While,
    With,
    // Punctuators (12.8).
    OpenBrace,
    CloseBrace,
    OpenParen,
    CloseParen,
    OpenBracket,
    CloseBracket,
    Dot,
    Dots,
    Semicolon,
    Comma,
    Question,
    OptionalDot,
    Colon,
    Arrow,
    Less,
    Greater,
    LessEq,
    GreaterEq,
    EqEq,
    NotEq,
    EqEqEq,
    NotEqEq,
    Plus,
    Minus,
    Star,
    Slash,
    Percent,
    StarStar,
    PlusPlus,
    MinusMinus,
    ShiftLeft,
    ShiftRight,
    ShiftRightZero,
    And,
    Or,
    Xor,
    Not,
    Tilde,
    AndAnd,
    OrOr,
    Nullish,
    // Assignments (13.15), from the plain one on.
    Assign,
    PlusAssign,
    MinusAssign,
    StarAssign,
    SlashAssign,
    PercentAssign,
    StarStarAssign,
    ShiftLeftAssign,
    ShiftRightAssign,
    ShiftRightZeroAssign,
    AndAssign,
    OrAssign,
    XorAssign,
    AndAndAssign,
    OrOrAssign,
    NullishAssign,
    /// `@`, which begins a decorator and no token of ECMAScript 2022.
    At,
}

/// A token: what it is, where it stands in the text, and what stands before it.
#[derive(Clone, Copy, Debug)]
pub struct Token {
    /// What it is. With an escape a reserved word is `Escaped` and a word that is a name elsewhere an `Ident`;
    /// `arguments`, `await`, `constructor`, `eval` and `prototype` keep their kinds.
    pub kind: Tok,
    /// Whether a line ends between it and the token before.
    pub newline: bool,
    /// Whether a comment that is kept stands between it and the token before.
    pub noted: bool,
    /// Whether its text is not that of the source: a name or a string with an escape, or a part of a template
    /// with a carriage return.
    pub escaped: bool,
    /// Why it is `Bad`; in a part of a template, why it may only stand behind a tag.
    pub fault: Option<ScanError>,
    /// The byte of the text at which it begins.
    pub from: u32,
    /// The byte behind it.
    pub to: u32,
}

/// How tightly a binary operator binds, from 1 on, and 0 for any other token (ECMA-262, 13.5 to 13.13).
pub fn power(tok: Tok) -> u8
    ensures { result < 16 }
{
    match tok {
        Tok::Nullish => 1,
        Tok::OrOr => 2,
        Tok::AndAnd => 3,
        Tok::Or => 4,
        Tok::Xor => 5,
        Tok::And => 6,
        Tok::EqEq | Tok::NotEq | Tok::EqEqEq | Tok::NotEqEq => 7,
        Tok::Less | Tok::Greater | Tok::LessEq | Tok::GreaterEq | Tok::In | Tok::InstanceOf => 8,
        Tok::ShiftLeft | Tok::ShiftRight | Tok::ShiftRightZero => 9,
        Tok::Plus | Tok::Minus => 10,
        Tok::Star | Tok::Slash | Tok::Percent => 11,
        Tok::StarStar => 12,
        _ => 0,
    }
}

/// Whether the token is an operator before its operand (13.5), `await` left out.
pub fn is_prefix(tok: Tok) -> bool {
    matches!(
        tok,
        Tok::Plus | Tok::Minus | Tok::Not | Tok::Tilde | Tok::Delete | Tok::TypeOf | Tok::Void
    )
}

/// Whether the token assigns, plainly or by an operator (13.15).
pub fn is_assign(tok: Tok) -> bool {
    let number = tok as u8;
    Tok::Assign as u8 <= number && number <= Tok::NullishAssign as u8
}

/// Whether the token is a name, reserved or not (12.7, `IdentifierName`).
pub fn is_word(tok: Tok) -> bool {
    let number = tok as u8;
    Tok::Ident as u8 <= number && number <= Tok::With as u8
}

/// Whether the token is a name that strict code does not reserve (13.1). `await` is left out: the goal and the
/// function around it decide.
pub fn is_name(tok: Tok) -> bool {
    let number = tok as u8;
    Tok::Ident as u8 <= number && number <= Tok::Target as u8
}

impl Token {
    /// The byte behind the raw text of a part of a template.
    pub fn raw_end(&self) -> u32 {
        let end = match self.kind {
            Tok::TplPart => 2,
            Tok::TplLast => 1,
            _ => 0,
        };
        self.to.saturating_sub(end)
    }
}
