//! What comes of source texts, in JSON.

ghost use Rattle.std.specs.Prelude.{◌≡◌, ◌++◌, string_bytes, IfOk, OnOk};
ghost use Rattle.serde_json.specs.Written.{compact_text};
ghost use Rattle.gutsirava_c.specs.Sources.{bundle_data, bundles_data, IsBundledText};

use bundle_json_form::{push_comma, push_quoted};
use gutsirava_bundle::{BundleText, Bundled};
use gutsirava_report::{FilePlace, Message, Note};
use std::alloc::{AllocError, Global};

/// The text of an object with the bundles and the messages.
pub(crate) fn bundled_text(alloc: Global, bundled: &Bundled) -> Result<String, AllocError>
    ensures { IfOk result (λ text. IsBundledText bundled.now.outputs.items (string_bytes text)) }
{
    let bundles = bundles_text(alloc, bundled.outputs.as_slice())?;
    let messages = messages_text(alloc, bundled.messages.list.as_slice())?;
    let mut text = String::from_str(alloc, "{\"bundles\":")?;
    text.push_str(bundles.as_str())?;
    text.push_str(",\"messages\":[")?;
    text.push_str(messages.as_str())?;
    text.push_str("]}\n")?;
    Ok(text)
}

// The text of a list with the objects of bundles.
fn bundles_text(alloc: Global, bundles: &[BundleText]) -> Result<String, AllocError>
    ensures { IfOk result (λ text.
        string_bytes text ≡ compact_text (bundles_data bundles.now)) }
{
    let mut text = String::new(alloc);
    text.push('[')?;
    let mut is_later = false;
    for bundle in bundles {
        push_comma(&mut text, is_later)?;
        push_bundle(alloc, &mut text, bundle)?;
        is_later = true;
    }
    text.push(']')?;
    Ok(text)
}

// Puts the object of a bundle behind a text.
fn push_bundle(alloc: Global, out: &mut String, bundle: &BundleText) -> Result<(), AllocError>
    ensures { OnOk result
        (string_bytes out.new ≡ string_bytes out.old ++ compact_text (bundle_data bundle.now)) }
{
    out.push_str("{\"code\":")?;
    push_quoted(alloc, out, bundle.text.as_str())?;
    out.push_str(",\"name\":")?;
    push_quoted(alloc, out, bundle.name.as_str())?;
    out.push_str("}")?;
    Ok(())
}

// The objects of messages, with commas between.
fn messages_text(alloc: Global, messages: &[Message]) -> Result<String, AllocError> {
    let mut text = String::new(alloc);
    for (number, message) in messages.iter().enumerate() {
        push_comma(&mut text, number > 0)?;
        push_message(alloc, &mut text, message)?;
    }
    Ok(text)
}

fn push_message(alloc: Global, out: &mut String, message: &Message) -> Result<(), AllocError> {
    out.push('{')?;
    push_place(alloc, out, message.place.as_ref())?;
    out.push_str(",\"notes\":[")?;
    for (number, note) in message.notes.iter().enumerate() {
        push_comma(out, number > 0)?;
        push_note(alloc, out, note)?;
    }
    out.push_str("],\"severity\":")?;
    push_quoted(alloc, out, message.severity.word())?;
    out.push_str(",\"text\":")?;
    push_quoted(alloc, out, message.text.as_str())?;
    out.push('}')
}

fn push_note(alloc: Global, out: &mut String, note: &Note) -> Result<(), AllocError> {
    out.push('{')?;
    push_place(alloc, out, note.place.as_ref())?;
    out.push_str(",\"text\":")?;
    push_quoted(alloc, out, note.text.as_str())?;
    out.push('}')
}

// Puts down the members `column`, `file` and `line`, each `null` where there is none.
fn push_place(
    alloc: Global,
    out: &mut String,
    place: Option<&FilePlace>,
) -> Result<(), AllocError> {
    let Some(place) = place else {
        return out.push_str("\"column\":null,\"file\":null,\"line\":null");
    };
    let at = place.stretch.as_ref().map(|it| (it.column, it.line));
    push_number(alloc, out, "\"column\":", at.map(|(column, _)| column))?;
    out.push_str(",\"file\":")?;
    push_quoted(alloc, out, place.path.as_str())?;
    push_number(alloc, out, ",\"line\":", at.map(|(_, line)| line))
}

// Puts a number behind its key, or `null`.
fn push_number(
    alloc: Global,
    out: &mut String,
    key: &str,
    number: Option<usize>,
) -> Result<(), AllocError> {
    let text = match number {
        Some(number) => format!(in alloc; "{key}{number}")?,
        None => format!(in alloc; "{key}null")?,
    };
    out.push_str(text.as_str())
}
