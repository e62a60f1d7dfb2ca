//! JSON, written straight.

ghost use Rattle.std.specs.Prelude.{◌≡◌, ℕ, ◌+◌, ◌++◌, ◌∷◌, ◌<◌, [], true, IfOk, OnOk, chars, codes, decimal, flat_map, string_bytes};
ghost use Rattle.gutsirava_views.specs.Json.{char_text, control_text, digit_of, key_of, line, member, quoted, string_of};
ghost use Rattle.gutsirava_views.specs.Writing.{AddsItems, BeginsItem, Closes, Opens, OpensItem};

use std::alloc::{AllocError, Global};

/// A JSON text (RFC 8259) that is being written, each member and each element on a line of its own.
#[derive(Drop)]
pub(crate) struct JsonWriter {
    alloc: Global,
    text: String,
    depth: usize,
    /// Whether the next item is the first of its object or array.
    is_first: bool,
}

impl JsonWriter {
    pub(crate) fn new(alloc: Global) -> JsonWriter
        ensures { (string_bytes result.text ≡ []) × (result.depth ≡ 0) }
    {
        JsonWriter {
            alloc,
            text: String::new(alloc),
            depth: 0,
            is_first: true,
        }
    }

    /// The text, with the end of its last line.
    pub(crate) fn finish(self) -> Result<String, AllocError>
        ensures { IfOk result (λ text.
            string_bytes text ≡ string_bytes self.text ++ codes "\n") }
    {
        let JsonWriter { mut text, .. } = self;
        text.push_str("\n")?;
        Ok(text)
    }

    /// Begins an object or an array.
    pub(crate) fn open(&mut self, bracket: &str) -> Result<(), AllocError>
        ensures { OnOk result (self.old.depth < 100 → Opens bracket.now self.old self.new) }
    {
        self.text.push_str(bracket)?;
        self.depth = self.depth.saturating_add(1);
        self.is_first = true;
        Ok(())
    }

    /// Ends it: on the same line where it is empty.
    pub(crate) fn close(&mut self, bracket: &str) -> Result<(), AllocError>
        ensures { OnOk result (Closes bracket.now self.old self.new) }
    {
        self.depth = self.depth.saturating_sub(1);
        if !self.is_first {
            push_line(self.alloc, &mut self.text, self.depth)?;
        }
        self.is_first = false;
        self.text.push_str(bracket)
    }

    /// Begins a member whose value is an object or an array.
    pub(crate) fn open_member(&mut self, key: &str, bracket: &str) -> Result<(), AllocError>
        ensures { OnOk result (self.old.depth < 100
            → OpensItem (key_of key.now) bracket.now self.old self.new) }
    {
        self.begin_member(key)?;
        self.open(bracket)
    }

    /// Begins an object or an array as an element.
    pub(crate) fn open_element(&mut self, bracket: &str) -> Result<(), AllocError>
        ensures { OnOk result (self.old.depth < 100
            → OpensItem [] bracket.now self.old self.new) }
    {
        self.begin_item()?;
        self.open(bracket)
    }

    /// Writes a member that is a string.
    pub(crate) fn put_text(&mut self, key: &str, value: &str) -> Result<(), AllocError>
        ensures { OnOk result ((depth : ℕ) → self.old.depth ≡ depth → AddsItems depth
            (member key.now (string_of value.now) ∷ []) self.old self.new) }
    {
        self.begin_member(key)?;
        push_quoted(&mut self.text, value)
    }

    /// Writes a member that is a number.
    pub(crate) fn put_number(&mut self, key: &str, value: usize) -> Result<(), AllocError>
        ensures { OnOk result ((depth : ℕ) → self.old.depth ≡ depth → AddsItems depth
            (member key.now (decimal value) ∷ []) self.old self.new) }
    {
        self.begin_member(key)?;
        let digits = format!(in self.alloc; "{value}")?;
        self.text.push_str(digits.as_str())
    }

    /// Writes a member that is `true`.
    pub(crate) fn put_true(&mut self, key: &str) -> Result<(), AllocError>
        ensures { OnOk result ((depth : ℕ) → self.old.depth ≡ depth → AddsItems depth
            (member key.now (codes "true") ∷ []) self.old self.new) }
    {
        self.begin_member(key)?;
        self.text.push_str("true")
    }

    /// Writes an element that is a string.
    pub(crate) fn put_element(&mut self, value: &str) -> Result<(), AllocError>
        ensures { OnOk result ((depth : ℕ) → self.old.depth ≡ depth → AddsItems depth
            (string_of value.now ∷ []) self.old self.new) }
    {
        self.begin_item()?;
        push_quoted(&mut self.text, value)
    }

    // Writes what stands before the value of a member.
    fn begin_member(&mut self, key: &str) -> Result<(), AllocError>
        ensures { OnOk result (BeginsItem (key_of key.now) self.old self.new) }
    {
        self.begin_item()?;
        push_quoted(&mut self.text, key)?;
        self.text.push_str(": ")
    }

    // Writes what stands before an item.
    fn begin_item(&mut self) -> Result<(), AllocError>
        ensures { OnOk result (BeginsItem [] self.old self.new) }
    {
        if !self.is_first {
            self.text.push_str(",")?;
        }
        self.is_first = false;
        push_line(self.alloc, &mut self.text, self.depth)
    }
}

// Appends a line of its own, so deep.
fn push_line(alloc: Global, text: &mut String, depth: usize) -> Result<(), AllocError>
    ensures { OnOk result (string_bytes text.new ≡ string_bytes text.old ++ line depth) }
{
    let blanks = "  ".repeat(alloc, depth)?;
    text.push_str("\n")?;
    text.push_str(blanks.as_str())
}

// Appends a string in its quotes.
fn push_quoted(text: &mut String, value: &str) -> Result<(), AllocError>
    ensures { OnOk result (string_bytes text.new
        ≡ string_bytes text.old ++ string_of value.now) }
{
    text.push('"')?;
    push_escaped(text, value)?;
    text.push('"')
}

// Appends the characters of a string, as they stand between quotes.
fn push_escaped(text: &mut String, value: &str) -> Result<(), AllocError>
    ensures { OnOk result (string_bytes text.new
        ≡ string_bytes text.old ++ flat_map char_text (chars value.now)) }
{
    for c in value.chars() {
        push_char(text, c)?;
    }
    Ok(())
}

// Appends a character of a string: a quote, a backslash or a control character by its escape.
fn push_char(text: &mut String, c: char) -> Result<(), AllocError>
    ensures { OnOk result (string_bytes text.new ≡ string_bytes text.old ++ char_text c) }
{
    match c {
        '"' => text.push_str("\\\""),
        '\\' => text.push_str("\\\\"),
        '\0'..='\u{1f}' => push_control(text, u32::from(c)),
        _ => text.push(c),
    }
}

// A hexadecimal digit.
fn digit_of(value: u32) -> char
    requires { value < 16 }
    ensures digit { result ≡ digit_of value }
    ensures ascii { result < 128 }
{
    match value {
        0..=9 => char::from(b'0' + value as u8),
        _ => char::from(b'a' + (value as u8 - 10)),
    }
}

// Appends the escape of a control character.
fn push_control(text: &mut String, code: u32) -> Result<(), AllocError>
    requires { code < 32 }
    ensures { OnOk result (string_bytes text.new ≡ string_bytes text.old ++ control_text code) }
{
    text.push_str("\\u00")?;
    text.push(digit_of(code / 16))?;
    text.push(digit_of(code % 16))
}
