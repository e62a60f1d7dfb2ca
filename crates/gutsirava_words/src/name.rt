//! Names of JavaScript.

ghost use Rattle.std.specs.Prelude.{◌≡◌, chars};
ghost use Rattle.std.specs.List.{before_first, list_all, slice_split};
ghost use Rattle.gutsirava_words.specs.Variable as names;

use unicode_ident::{is_xid_continue, is_xid_start};

/// The reserved words of ECMA-262 (12.7.2), strict code's among them.
const RESERVED: [&str; 48] = [
    "arguments",
    "await",
    "break",
    "case",
    "catch",
    "class",
    "const",
    "continue",
    "debugger",
    "default",
    "delete",
    "do",
    "else",
    "enum",
    "eval",
    "export",
    "extends",
    "false",
    "finally",
    "for",
    "function",
    "if",
    "implements",
    "import",
    "in",
    "instanceof",
    "interface",
    "let",
    "new",
    "null",
    "package",
    "private",
    "protected",
    "public",
    "return",
    "static",
    "super",
    "switch",
    "this",
    "throw",
    "true",
    "try",
    "typeof",
    "var",
    "void",
    "while",
    "with",
    "yield",
];

/// Whether the text is a variable, or a property of one: names with dots between them, the first no reserved word.
pub fn is_variable(text: &str) -> bool
    ensures { result ≡ names.is_variable text.now }
{
    are_names(text) && !is_reserved(first_name(text))
}

// Whether the texts between dots are names.
fn are_names(text: &str) -> bool
    ensures { result ≡ list_all (λ name. names.is_name (chars name))
        (slice_split names.is_dot text.now) }
{
    text.split('.').all(|name| is_name(name))
}

// What stands before the first dot, or all.
fn first_name(text: &str) -> &str
    ensures { result.now ≡ before_first names.is_dot text.now }
{
    match text.split_once('.') {
        Some((first, _)) => first,
        None => text,
    }
}

#[tactic(auto, unfolding(crate::specs::Variable::is_reserved))]
fn is_reserved(text: &str) -> bool
    ensures { result ≡ names.is_reserved text.now }
{
    RESERVED.contains(&text)
}

// An IdentifierName (ECMA-262, 12.7) without escapes.
fn is_name(text: &str) -> bool
    ensures { result ≡ names.is_name (chars text.now) }
{
    text.chars().next().is_some_and(begins_name) && are_parts(text)
}

// Whether each character continues a name.
fn are_parts(text: &str) -> bool
    ensures { result ≡ list_all names.continues_name (chars text.now) }
{
    text.chars().all(continues_name)
}

fn begins_name(c: char) -> bool
    ensures { result ≡ names.begins_name c }
{
    c == '$' || c == '_' || is_xid_start(c)
}

fn continues_name(c: char) -> bool
    ensures { result ≡ names.continues_name c }
{
    c == '$' || c == '\u{200c}' || c == '\u{200d}' || is_xid_continue(c)
}
