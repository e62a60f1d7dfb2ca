//! Literals. All but strings, `true` and `false` are kept as their source text.

/// A string literal: its value, and its source text where it has one (ECMA-262, 12.9.4).
#[derive(PartialEq, Drop, Debug)]
pub struct Str {
    pub value: String,
    pub raw: Option<String>,
}

/// A number as its source text (ECMA-262, 12.9.3).
#[derive(PartialEq, Drop, Debug)]
pub struct Number {
    pub raw: String,
}

/// A BigInt as its source text (ECMA-262, 12.9.3).
#[derive(PartialEq, Drop, Debug)]
pub struct BigInt {
    pub raw: String,
}

/// A regular expression as its source text (ECMA-262, 12.9.5).
#[derive(PartialEq, Drop, Debug)]
pub struct Regex {
    pub raw: String,
}

/// A literal (ECMA-262, 13.2.3).
#[derive(PartialEq, Drop, Debug)]
pub enum Lit {
    Str(Str),
    Bool { value: bool },
    Null,
    Number(Number),
    BigInt(BigInt),
    Regex(Regex),
}

/// A piece of text of a template literal, as its source text (ECMA-262, 12.9.6).
#[derive(PartialEq, Drop, Debug)]
pub struct TplElement {
    pub raw: String,
}
