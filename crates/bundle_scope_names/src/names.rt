//! What the bindings of a list are called.

ghost use Rattle.std.specs.Prelude.{◌≡◌, ◌<◌, ◌≢◌, ℕ, None, Some, IfOk, length, string_bytes};
ghost use Rattle.std.specs.Option.{option_map};
ghost use Rattle.bundle_scope_names.specs.Called as called;

use std::alloc::{AllocError, Global};

/// What becomes of the contexts of a list whose bindings are named.
#[derive(Clone, Copy)]
pub enum ContextRule {
    /// They stay, but for those that the names say.
    Keep,
    /// Each is 0, that of a plain word too.
    Clear,
}

/// What the bindings of a list are called, by their numbers.
#[derive(Drop)]
pub struct Names {
    /// For each binding its new text, or `None` where it keeps its symbol.
    pub texts: Vec<Option<String>>,
    /// For each binding its new context, or `None` where it keeps what it has.
    pub contexts: Vec<Option<u32>>,
}

impl Names {
    /// The names of so many bindings, each of which keeps its symbol and its context.
    pub fn kept(alloc: Global, count: usize) -> Result<Names, AllocError>
        ensures texts { IfOk result (λ names. length names.texts.items ≡ count) }
        ensures contexts { IfOk result (λ names. length names.contexts.items ≡ count) }
        ensures same { IfOk result (λ names.
            (number : ℕ) → called.binding_text names number ≡ None) }
        ensures same_contexts { IfOk result (λ names.
            (number : ℕ) → called.context_of names number ≡ None) }
    {
        let mut texts = Vec::new(alloc);
        let mut contexts = Vec::new(alloc);
        for _ in 0..count {
            texts.push(None)?;
            contexts.push(None)?;
        }
        Ok(Names { texts, contexts })
    }

    /// The same names, of so many bindings.
    pub(crate) fn copied(&self, alloc: Global, count: usize) -> Result<Names, AllocError>
        ensures same { IfOk result (λ names.
            (number : ℕ) →
            number < count →
            called.binding_text names number ≡ called.binding_text self.now number) }
        ensures same_contexts { IfOk result (λ names.
            (number : ℕ) →
            number < count →
            called.context_of names number ≡ called.context_of self.now number) }
        ensures texts { IfOk result (λ names. length names.texts.items ≡ count) }
        ensures contexts { IfOk result (λ names. length names.contexts.items ≡ count) }
    {
        let mut texts = Vec::with_capacity(alloc, count)?;
        let mut contexts = Vec::with_capacity(alloc, count)?;
        for number in 0..count {
            texts.push(owned(alloc, self.text_of(number))?)?;
            contexts.push(self.context_of(number))?;
        }
        Ok(Names { texts, contexts })
    }

    /// The new text of a binding, or `None` where it keeps its symbol.
    pub fn text_of(&self, binding: usize) -> Option<&str>
        ensures { option_map (λ text. text.now) result ≡ called.binding_text self.now binding }
    {
        match self.texts.get(binding) {
            Some(Some(text)) => Some(text.as_str()),
            _ => None,
        }
    }

    /// The new context of a binding, or `None` where it keeps what it has.
    pub fn context_of(&self, binding: usize) -> Option<u32>
        ensures { result ≡ called.context_of self.now binding }
    {
        match self.contexts.get(binding) {
            Some(context) => *context,
            None => None,
        }
    }

    /// Calls a binding by this text.
    pub(crate) fn set_text(&mut self, binding: usize, text: String)
        ensures texts { length self.new.texts.items ≡ length self.old.texts.items }
        ensures contexts { self.new.contexts.items ≡ self.old.contexts.items }
        ensures own { binding < length self.old.texts.items →
            called.binding_text self.new binding ≡ Some (string_bytes text) }
        ensures others { (other : ℕ) →
            other ≢ binding →
            called.binding_text self.new other ≡ called.binding_text self.old other }
    {
        if let Some(its) = self.texts.get_mut(binding) {
            *its = Some(text);
        }
    }
}

// A text of one's own.
fn owned(alloc: Global, text: Option<&str>) -> Result<Option<String>, AllocError>
    ensures { IfOk result (λ own.
        option_map string_bytes own ≡ option_map (λ text. text.now) text.entry) }
{
    match text {
        None => Ok(None),
        Some(text) => {
            let own = String::from_str(alloc, text)?;
            Ok(Some(own))
        }
    }
}
