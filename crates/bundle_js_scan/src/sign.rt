//! Punctuators (ECMA-262, 12.8).

use crate::token::Tok;

/// A punctuator and its length in bytes.
#[derive(Clone, Copy)]
pub struct Sign {
    pub kind: Tok,
    pub length: usize,
}

fn make(kind: Tok, length: usize) -> Sign {
    Sign { kind, length }
}

/// The punctuator that this byte is wherever it stands; `Bad` where it is none or begins longer ones.
#[inline]
pub fn lone_sign(byte: u8) -> Tok {
    match byte {
        b'{' => Tok::OpenBrace,
        b'}' => Tok::CloseBrace,
        b'(' => Tok::OpenParen,
        b')' => Tok::CloseParen,
        b'[' => Tok::OpenBracket,
        b']' => Tok::CloseBracket,
        b';' => Tok::Semicolon,
        b',' => Tok::Comma,
        b':' => Tok::Colon,
        b'~' => Tok::Tilde,
        b'`' => Tok::Back,
        b'@' => Tok::At,
        _ => Tok::Bad,
    }
}

/// The longest punctuator that these bytes begin with, none of which stands alone, 0 where the text has ended; `Bad`
/// where none does.
pub fn punctuator(a: u8, b: u8, c: u8, d: u8) -> Sign {
    match a {
        b'.' => dots(b, c),
        b'?' => question(b, c),
        b'=' => equals(b, c),
        b'!' => bang(b, c),
        _ => operator(a, b, c, d),
    }
}

// The punctuators that an equals sign may follow.
fn operator(a: u8, b: u8, c: u8, d: u8) -> Sign {
    match a {
        b'+' => counted(a, Tok::Plus, Tok::PlusPlus, Tok::PlusAssign, b),
        b'-' => counted(a, Tok::Minus, Tok::MinusMinus, Tok::MinusAssign, b),
        b'/' => single(Tok::Slash, Tok::SlashAssign, b),
        b'%' => single(Tok::Percent, Tok::PercentAssign, b),
        b'^' => single(Tok::Xor, Tok::XorAssign, b),
        b'*' => if b == a {
            longer(Tok::StarStar, Tok::StarStarAssign, c)
        } else {
            single(Tok::Star, Tok::StarAssign, b)
        },
        b'&' => if b == a {
            longer(Tok::AndAnd, Tok::AndAndAssign, c)
        } else {
            single(Tok::And, Tok::AndAssign, b)
        },
        b'|' => if b == a {
            longer(Tok::OrOr, Tok::OrOrAssign, c)
        } else {
            single(Tok::Or, Tok::OrAssign, b)
        },
        b'<' => if b == a {
            longer(Tok::ShiftLeft, Tok::ShiftLeftAssign, c)
        } else {
            single(Tok::Less, Tok::LessEq, b)
        },
        b'>' => greater(b, c, d),
        _ => make(Tok::Bad, 1),
    }
}

fn dots(b: u8, c: u8) -> Sign {
    if b == b'.' && c == b'.' {
        make(Tok::Dots, 3)
    } else {
        make(Tok::Dot, 1)
    }
}

fn question(b: u8, c: u8) -> Sign {
    if b == b'?' {
        longer(Tok::Nullish, Tok::NullishAssign, c)
    } else if b == b'.' && !c.is_ascii_digit() {
        make(Tok::OptionalDot, 2)
    } else {
        make(Tok::Question, 1)
    }
}

fn equals(b: u8, c: u8) -> Sign {
    if b == b'=' {
        longer(Tok::EqEq, Tok::EqEqEq, c)
    } else if b == b'>' {
        make(Tok::Arrow, 2)
    } else {
        make(Tok::Assign, 1)
    }
}

fn bang(b: u8, c: u8) -> Sign {
    if b == b'=' {
        longer(Tok::NotEq, Tok::NotEqEq, c)
    } else {
        make(Tok::Not, 1)
    }
}

// A punctuator of one byte, and what it is before an equals sign.
fn single(plain: Tok, before_equals: Tok, next: u8) -> Sign {
    if next == b'=' {
        make(before_equals, 2)
    } else {
        make(plain, 1)
    }
}

// The same for one of two bytes.
fn longer(plain: Tok, before_equals: Tok, next: u8) -> Sign {
    if next == b'=' {
        make(before_equals, 3)
    } else {
        make(plain, 2)
    }
}

// A punctuator of one byte that may stand twice or before an equals sign.
fn counted(byte: u8, once: Tok, twice: Tok, before_equals: Tok, next: u8) -> Sign {
    if next == byte {
        make(twice, 2)
    } else {
        single(once, before_equals, next)
    }
}

fn greater(b: u8, c: u8, d: u8) -> Sign {
    if b != b'>' {
        single(Tok::Greater, Tok::GreaterEq, b)
    } else if c != b'>' {
        longer(Tok::ShiftRight, Tok::ShiftRightAssign, c)
    } else if d == b'=' {
        make(Tok::ShiftRightZeroAssign, 4)
    } else {
        make(Tok::ShiftRightZero, 3)
    }
}
