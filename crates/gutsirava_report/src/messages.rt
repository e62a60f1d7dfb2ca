//! The report of all messages.

ghost use Rattle.std.specs.Prelude.{◌≡◌, ◌≤◌, ◌+◌, false, chars, max, IsTrue, IfOk, OnOk};
ghost use Rattle.std.specs.List.{list_all};
ghost use Rattle.std.specs.String.{string_bytes};
ghost use Rattle.gutsirava_report.specs.Quiet.{is_sent_char};
ghost use Rattle.gutsirava_report.specs.Messages.{AddsMessages, AddsOrLeaves, IsLonger, Tells};
ghost use Rattle.gutsirava_report.specs.Sheet.{IsReport};
ghost use Rattle.gutsirava_report.specs.declared.sheet.Sheet as sheets;

use crate::{Message, Severity, Sheet, Style};
use std::alloc::{AllocError, Global};

/// How many errors are told, and how many warnings.
const MOST: usize = 10;

/// What is written of the messages, in their order: the first ten errors and the first ten warnings, how many more
/// there are, and in the last line how many of each. No message gives no text.
pub fn messages_text(
    alloc: Global,
    messages: &[Message],
    colors: bool,
) -> Result<String, AllocError>
    ensures told { IfOk result (λ t. Tells messages.now colors (string_bytes t)) }
    ensures report { IfOk result (λ t. IsReport colors (string_bytes t)) }
    ensures quiet { colors ≡ false → IfOk result
        (λ t. IsTrue (list_all is_sent_char (chars (string_bytes t)))) }
{
    let mut sheet = Sheet::new(alloc);
    push_messages(&mut sheet, messages)?;
    sheet.text(colors)
}

// How many errors there are, and how many warnings.
#[derive(Clone, Copy)]
struct MessageCounts {
    errors: usize,
    warnings: usize,
}

impl MessageCounts {
    ghost use Rattle.std.specs.Prelude.{◌≤◌, ◌+◌, max};

    fn of(&self, severity: Severity) -> usize
        ensures { result ≤ max self.now.errors self.now.warnings }
    {
        match severity {
            Severity::Error => self.errors,
            Severity::Warning => self.warnings,
        }
    }

    fn add(&mut self, severity: Severity)
        ensures { max self.new.errors self.new.warnings
            ≤ max self.old.errors self.old.warnings + 1 }
    {
        match severity {
            Severity::Error => self.errors = self.errors.saturating_add(1),
            Severity::Warning => self.warnings = self.warnings.saturating_add(1),
        }
    }
}

// Appends all messages, and what is told behind them.
fn push_messages(sheet: &mut Sheet, messages: &[Message]) -> Result<(), AllocError>
    ensures { OnOk result ((told : sheets.Sheet) × AddsMessages sheet.old messages.now told
        × IsLonger told sheet.new) }
{
    let counts = push_told(sheet, messages)?;
    push_rest(sheet, counts.errors, counts.warnings)
}

// Appends the messages that are told, and counts all.
fn push_told(sheet: &mut Sheet, messages: &[Message]) -> Result<MessageCounts, AllocError>
    ensures { OnOk result (AddsMessages sheet.old messages.now sheet.new) }
{
    let mut counts = MessageCounts {
        errors: 0,
        warnings: 0,
    };
    for message in messages {
        push_message(sheet, message, counts.of(message.severity))?;
        counts.add(message.severity);
    }
    Ok(counts)
}

// Appends a message, where so many of its kind were before it.
fn push_message(sheet: &mut Sheet, message: &Message, count: usize) -> Result<(), AllocError>
    ensures { OnOk result (AddsOrLeaves message.now count sheet.old sheet.new) }
{
    if count >= MOST {
        return Ok(());
    }
    message.push_onto(sheet)?;
    sheet.end_line()
}

// Appends how many messages were left out, and how many there are.
#[tactic(auto, using(std::proofs::lemmas::Grind::common_steps, crate::proofs::GainLemmas::longer_then))]
fn push_rest(sheet: &mut Sheet, errors: usize, warnings: usize) -> Result<(), AllocError>
    ensures { OnOk result (IsLonger sheet.old sheet.new) }
{
    push_more(sheet, errors, Severity::Error)?;
    push_more(sheet, warnings, Severity::Warning)?;
    push_counts(sheet, errors, warnings)
}

// How many messages of a kind were left out.
#[tactic(auto, using(std::proofs::lemmas::Grind::common_steps, crate::proofs::GainLemmas::longer_then, crate::proofs::GainLemmas::longer_text, crate::proofs::GainLemmas::longer_end, crate::proofs::GainLemmas::longer_none))]
fn push_more(sheet: &mut Sheet, count: usize, severity: Severity) -> Result<(), AllocError>
    ensures { OnOk result (IsLonger sheet.old sheet.new) }
{
    if count <= MOST {
        return Ok(());
    }
    sheet.push(Style::Plain, "and ")?;
    push_count(sheet, count - MOST, " more", severity)?;
    sheet.end_line()?;
    sheet.end_line()
}

#[tactic(auto, using(std::proofs::lemmas::Grind::common_steps, crate::proofs::GainLemmas::longer_then, crate::proofs::GainLemmas::longer_end, crate::proofs::GainLemmas::longer_none))]
fn push_counts(sheet: &mut Sheet, errors: usize, warnings: usize) -> Result<(), AllocError>
    ensures { OnOk result (IsLonger sheet.old sheet.new) }
{
    if errors == 0 && warnings == 0 {
        return Ok(());
    }
    push_count_of(sheet, errors, Severity::Error)?;
    push_and(sheet, errors > 0 && warnings > 0)?;
    push_count_of(sheet, warnings, Severity::Warning)?;
    sheet.end_line()
}

// A count and its word, if there is something to count.
#[tactic(auto, using(crate::proofs::GainLemmas::longer_none))]
fn push_count_of(sheet: &mut Sheet, count: usize, severity: Severity) -> Result<(), AllocError>
    ensures { OnOk result (IsLonger sheet.old sheet.new) }
{
    if count == 0 {
        return Ok(());
    }
    push_count(sheet, count, "", severity)
}

#[tactic(auto, using(crate::proofs::GainLemmas::longer_text, crate::proofs::GainLemmas::longer_none))]
fn push_and(sheet: &mut Sheet, is_there: bool) -> Result<(), AllocError>
    ensures { OnOk result (IsLonger sheet.old sheet.new) }
{
    if is_there {
        sheet.push(Style::Plain, " and ")
    } else {
        Ok(())
    }
}

// A count and its word, as `3 more errors`.
#[tactic(auto, using(crate::proofs::GainLemmas::longer_text))]
fn push_count(
    sheet: &mut Sheet,
    count: usize,
    more: &str,
    severity: Severity,
) -> Result<(), AllocError>
    ensures { OnOk result (IsLonger sheet.old sheet.new) }
{
    let word = severity.word();
    let plural = if count == 1 { "" } else { "s" };
    let text = format!(in sheet.allocator(); "{count}{more} {word}{plural}")?;
    sheet.push(severity.style(), text.as_str())
}
