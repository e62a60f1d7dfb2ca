//! What a word is by itself.

ghost use Rattle.std.specs.Prelude.{◌≡◌, nat_eq, codes};
ghost use Rattle.std.specs.List.{before_first, starts_with};
ghost use Rattle.std.specs.Option.{option_map};
ghost use Rattle.gutsirava_words.specs.Word as meanings;

use crate::Key;

/// A word.
#[derive(Clone, Copy)]
pub enum Word<'a> {
    /// A file, or `-` for the standard input.
    Entry(&'a str),
    /// An option, with the value that is joined to it.
    Value(Key, Option<&'a str>),
    Help,
    Version,
    /// `--`: those behind it are files.
    End,
    /// `--help` or `--version` with a value.
    NeedlessValue(&'static str),
    /// An option that there is not, without its value.
    Unknown(&'a str),
}

impl Word<'_> {
    ghost use Rattle.std.specs.Prelude.{◌≡◌, Some};
    ghost use Rattle.gutsirava_words.specs.Key.{key_named};
    ghost use Rattle.gutsirava_words.specs.Word.{colon_meaning, key_meaning, meaning_in, meaning_of, name_meaning, option_meaning};

    /// What the text is.
    pub fn of(text: &str) -> Word<'_>
        ensures { meaning_in result ≡ meaning_of text.now }
    {
        if is_entry(text) {
            return Word::Entry(text);
        }
        match text {
            "--" => Word::End,
            "-h" | "--help" => Word::Help,
            "--version" => Word::Version,
            _ => Word::option(text),
        }
    }

    // What a word is that begins with `-` and stands for more than itself.
    fn option(text: &str) -> Word<'_>
        ensures { meaning_in result ≡ option_meaning text.now }
    {
        let (name, value) = split_value(text);
        Word::named(text, name, value)
    }

    // The same, by the name of the option and the value that is joined to it.
    fn named<'t>(text: &'t str, name: &'t str, value: Option<&'t str>) -> Word<'t>
        ensures { meaning_in result
            ≡ name_meaning text.now name.now (option_map (λ it. it.now) value.entry) }
    {
        match name {
            "-o" => Word::Value(Key::Outfile, value),
            "-h" | "--help" => Word::NeedlessValue("--help"),
            "--version" => Word::NeedlessValue("--version"),
            _ => Word::with_key(text, name, value),
        }
    }

    // An option that takes a value, or none.
    fn with_key<'t>(text: &'t str, name: &'t str, value: Option<&'t str>) -> Word<'t>
        ensures { meaning_in result ≡ key_meaning text.now name.now
            (option_map (λ it. it.now) value.entry) (key_named name.now) }
    {
        match Key::from_name(name) {
            Some(key) => Word::Value(key, value.or(key.plain_value())),
            None => Word::with_colon(text, name),
        }
    }

    // An option whose uses add up takes its value behind a colon too.
    fn with_colon<'t>(text: &'t str, name: &'t str) -> Word<'t>
        ensures { meaning_in result ≡ colon_meaning name.now
            (key_named (before_first meanings.is_colon text.now))
            (meanings.value_behind meanings.is_colon text.now) }
    {
        match text.split_once(':') {
            Some((front, value)) => Word::with_sum(name, front, value),
            None => Word::Unknown(name),
        }
    }

    // An option whose uses add up, with this value, or one that there is not.
    fn with_sum<'t>(name: &'t str, front: &str, value: &'t str) -> Word<'t>
        ensures { meaning_in result
            ≡ colon_meaning name.now (key_named front.now) (Some value.now) }
    {
        match Key::from_name(front) {
            Some(key) => {
                if key.adds_up() {
                    Word::Value(key, Some(value))
                } else {
                    Word::Unknown(name)
                }
            }
            None => Word::Unknown(name),
        }
    }
}

// Whether a word is a file, or `-`.
fn is_entry(text: &str) -> bool
    ensures { result ≡ meanings.is_entry text.now }
{
    text == "-" || !begins_with_dash(text)
}

fn begins_with_dash(text: &str) -> bool
    ensures { result ≡ starts_with nat_eq text.now (codes "-") }
{
    text.starts_with("-")
}

// What stands before the first `=`, and behind it if there is one.
fn split_value(text: &str) -> (&str, Option<&str>)
    ensures name { result.0.now ≡ before_first meanings.is_equals text.now }
    ensures value { option_map (λ it. it.now) result.1
        ≡ meanings.value_behind meanings.is_equals text.now }
{
    match text.split_once('=') {
        Some((name, value)) => (name, Some(value)),
        None => (text, None),
    }
}
