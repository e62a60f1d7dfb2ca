//! Text that a terminal shows and does not obey.

ghost use Rattle.std.specs.Prelude.{◌≡◌, ◌≤◌, ◌*◌, [], ◌∷◌, ◌++◌, true, length, replicate, chars, IsTrue, OnOk, IfOk};
ghost use Rattle.std.specs.List.{list_all};
ghost use Rattle.std.specs.String.{string_bytes};
ghost use Rattle.gutsirava_report.specs.Quiet.{is_quiet_char};

use std::alloc::{AllocError, Global};
use unicode_width::UnicodeWidthStr;

/// The characters that turn the direction of what follows them or end a line, and the mark of byte order.
const TURNING: [char; 15] = [
    '\u{61c}', '\u{200e}', '\u{200f}', '\u{2028}', '\u{2029}', '\u{202a}', '\u{202b}', '\u{202c}',
    '\u{202d}', '\u{202e}', '\u{2066}', '\u{2067}', '\u{2068}', '\u{2069}', '\u{feff}',
];

/// Whether a terminal shows the character, and does not obey it: it is no control character (of ASCII or of
/// U+0080 to U+009F), turns no direction and ends no line.
pub fn is_quiet(c: char) -> bool
    ensures { result ≡ is_quiet_char c }
{
    let code = u32::from(c);
    if code < 32 {
        false
    } else if code < 127 {
        true
    } else if code < 160 {
        false
    } else {
        !TURNING.contains(&c)
    }
}

// The character, or U+FFFD in the place of one that is not quiet.
fn quieted(c: char) -> char
    ensures quiet { is_quiet_char result ≡ true }
    ensures same { is_quiet_char c ≡ true → result ≡ c }
{
    if is_quiet(c) {
        c
    } else {
        char::REPLACEMENT_CHARACTER
    }
}

/// Text all of whose characters are quiet.
#[derive(Drop)]
pub struct Shown {
    text: String,
    ghost quiet: { IsTrue (list_all is_quiet_char (chars (string_bytes text))) },
}

impl Shown {
    ghost use Rattle.gutsirava_report.specs.Shown.{bytes_of, chars_of, columns_of};

    /// No text.
    #[tactic(auto, using(std::proofs::lemmas::Grind::common_steps, crate::proofs::QuietLemmas::chars_empty, crate::proofs::QuietLemmas::quiet_empty))]
    pub fn new(alloc: Global) -> Shown
        ensures { chars_of result ≡ [] }
    {
        Shown {
            text: String::new(alloc),
        }
    }

    /// The text itself.
    pub fn as_str(&self) -> &str
        ensures { result.now ≡ bytes_of self.now }
    {
        self.text.as_str()
    }

    /// How many columns it takes in a terminal.
    pub fn columns(&self) -> usize
        ensures { result ≡ columns_of self.now }
    {
        self.text.as_str().width()
    }

    // Appends the character, or U+FFFD in the place of one that is not quiet.
    fn put(&mut self, c: char) -> Result<(), AllocError>
        ensures { is_quiet_char c ≡ true
            → OnOk result (chars_of self.new ≡ chars_of self.old ++ c ∷ []) }
    {
        let c = quieted(c);
        self.text.push(c)
    }

    /// Appends the character as it may be shown: a tab as four spaces, a control character of ASCII as its picture
    /// (`␛`), any other that is not quiet by its number (`\u{202e}`), and a quiet one as it is.
    pub fn push(&mut self, c: char) -> Result<(), AllocError>
        ensures { is_quiet_char c ≡ true
            → OnOk result (chars_of self.new ≡ chars_of self.old ++ c ∷ []) }
    {
        if is_quiet(c) {
            self.put(c)
        } else {
            self.push_loud(c)
        }
    }

    // Appends how a character is shown that is not quiet.
    fn push_loud(&mut self, c: char) -> Result<(), AllocError> {
        match c {
            '\t' => self.pad(' ', 4),
            '\0'..='\u{1f}' => self.put(char::from_u32(0x2400 + u32::from(c)).unwrap_or(c)),
            '\u{7f}' => self.put('\u{2421}'),
            _ => {
                for part in c.escape_unicode() {
                    self.put(part)?;
                }
                Ok(())
            }
        }
    }

    /// Appends each character of the text as `push` does.
    pub fn push_str(&mut self, text: &str) -> Result<(), AllocError>
        ensures { list_all is_quiet_char (chars text.now) ≡ true
            → OnOk result (chars_of self.new ≡ chars_of self.old ++ chars text.now) }
    {
        for c in text.chars() {
            self.push(c)?;
        }
        Ok(())
    }

    /// Appends a quiet character so many times.
    pub fn pad(&mut self, c: char, count: usize) -> Result<(), AllocError>
        ensures { is_quiet_char c ≡ true
            → OnOk result (chars_of self.new ≡ chars_of self.old ++ replicate count c) }
    {
        for _done in 0..count {
            self.put(c)?;
        }
        Ok(())
    }
}

/// The text with each character as it may be shown (`Shown::push`).
pub fn quiet_text(alloc: Global, text: &str) -> Result<String, AllocError>
    ensures quiet { IfOk result (λ t. IsTrue (list_all is_quiet_char (chars (string_bytes t)))) }
    ensures same { IsTrue (list_all is_quiet_char (chars text.now))
        → IfOk result (λ t. chars (string_bytes t) ≡ chars text.now) }
{
    let mut shown = Shown::new(alloc);
    shown.push_str(text)?;
    Ok(shown.text)
}
