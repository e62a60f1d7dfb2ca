//! Words that a binding may not keep.

ghost use Rattle.std.specs.Prelude.{◌≡◌, bytes_eq, slice_get};
ghost use Rattle.std.specs.List.{list_any};
ghost use Rattle.bundle_rules.specs.Keywords as keywords;

// Keywords and reserved words (ECMA-262, 12.7.2), those of strict code, and those that earlier editions kept
// for later use, by their lengths; `import` is none of them.
const OF_TWO: [&str; 3] = ["do", "if", "in"];

const OF_THREE: [&str; 6] = ["for", "new", "try", "var", "let", "int"];

const OF_FOUR: [&str; 12] = [
    "case", "else", "enum", "null", "this", "true", "void", "with", "byte", "char", "goto", "long",
];

const OF_FIVE: [&str; 13] = [
    "await", "break", "catch", "class", "const", "false", "super", "throw", "while", "yield",
    "final", "float", "short",
];

const OF_SIX: [&str; 10] = [
    "delete", "export", "return", "switch", "typeof", "static", "public", "double", "native",
    "throws",
];

const OF_SEVEN: [&str; 6] = [
    "default", "extends", "finally", "package", "private", "boolean",
];

const OF_EIGHT: [&str; 5] = ["continue", "debugger", "function", "abstract", "volatile"];

const OF_NINE: [&str; 3] = ["interface", "protected", "transient"];

const OF_TEN: [&str; 2] = ["instanceof", "implements"];

const OF_TWELVE: [&str; 1] = ["synchronized"];

/// Whether a binding may not keep this symbol.
pub(crate) fn is_keyword(sym: &str) -> bool
    ensures { result ≡ keywords.is_keyword sym.now }
{
    match sym.len() {
        2 => is_one_of(&OF_TWO, sym),
        3 => is_one_of(&OF_THREE, sym),
        4 => is_one_of(&OF_FOUR, sym),
        5 => is_one_of(&OF_FIVE, sym),
        6 => is_one_of(&OF_SIX, sym),
        7 => is_one_of(&OF_SEVEN, sym),
        8 => is_one_of(&OF_EIGHT, sym),
        9 => is_one_of(&OF_NINE, sym),
        10 => is_one_of(&OF_TEN, sym),
        12 => is_one_of(&OF_TWELVE, sym),
        _ => false,
    }
}

// Whether a text is one of these.
fn is_one_of(words: &[&str], text: &str) -> bool
    ensures { result ≡ list_any (λ word. bytes_eq text.now word.now) words.now }
{
    words.iter().any(|word| is_word(text, word))
}

// Whether a text is this word. That it begins otherwise is told without a look at the rest.
fn is_word(text: &str, word: &str) -> bool
    ensures { result ≡ bytes_eq text.now word.now }
{
    if first_of(text) != first_of(word) {
        return false;
    }
    text == word
}

// The first byte of a text.
fn first_of(text: &str) -> Option<u8>
    ensures { result ≡ slice_get text.now 0 }
{
    text.as_bytes().first().copied()
}
