//! Bindings that have a reserved word's symbol.

ghost use Rattle.std.specs.Prelude.{◌≡◌, ◌==◌, ◌&&◌, ◌||◌, ℕ, None, IfOk, IfSome, List, OnOk, bytes_eq, is_some, length, map, string_bytes, true};
ghost use Rattle.std.specs.List.{list_any};
ghost use Rattle.std.specs.Option.{option_map};
ghost use Rattle.bundle_syntax.specs.Item.{Item, item_of};
ghost use Rattle.bundle_rules.specs.Nodes.{Text};
ghost use Rattle.bundle_scope_names.specs.Called.{at, keyword_text};
ghost use Rattle.bundle_scope_names.specs.Fresh as fresh;
ghost use Rattle.bundle_scope_names.specs.Fresh.{AddsNames, AnswersCollision as AnswersFor, AreContexts, AreMangled, KnowsNames, TakesNext, ctxt_of, has_symbol_at, is_mangled};

use crate::names::Names;
use crate::words::is_keyword;
use bundle_scope_denote::{Binding, Denotations, Salt};
use bundle_syntax::{Piece, Role};
use std::alloc::{AllocError, Global};
use std::collections::HashSet;

// Which identifiers that begin with `__` a list has, and the contexts of all; and the next context to try.
#[derive(Drop)]
struct TakenNames<'a> {
    names: HashSet<(u32, &'a str), Salt>,
    contexts: HashSet<u32>,
    next: u32,
}

/// What the bindings of a list, which is read by symbol and context, are called once none has a reserved
/// word's symbol: such a symbol gets `__` before it. Such a binding keeps its context where that is free
/// with the new symbol, else it takes the least from 2 on that no identifier has and that was not taken
/// before. Refused only where memory runs out.
pub fn keyword_names<'a>(
    alloc: Global,
    pieces: &[Piece<'a>],
    denotations: &Denotations<'a>,
) -> Result<Names, AllocError>
    ensures texts { IfOk result (λ names.
        map (option_map string_bytes) names.texts.items
        ≡ map (λ binding. keyword_text binding.sym.now) denotations.now.bindings.items) }
    ensures contexts { IfOk result (λ names.
        length names.contexts.items ≡ length names.texts.items) }
    ensures kept { IfOk result (λ names.
        AreContexts (map item_of pieces.now) denotations.now.bindings.items
        (map (option_map string_bytes) names.texts.items) names.contexts.items) }
{
    let texts = texts_of(alloc, &denotations.bindings)?;
    let contexts = contexts_of(
        alloc,
        pieces,
        &denotations.bindings,
        &texts,
        denotations.salt,
    )?;
    Ok(Names { texts, contexts })
}

// The new texts of bindings.
fn texts_of<'a>(alloc: Global, bindings: &[Binding<'a>]) -> Result<Vec<Option<String>>, AllocError>
    ensures { IfOk result (λ texts.
        map (option_map string_bytes) texts.items
        ≡ map (λ binding. keyword_text binding.sym.now) bindings.now) }
{
    let mut texts = Vec::with_capacity(alloc, bindings.len())?;
    for binding in bindings {
        texts.push(free_text(alloc, binding.sym)?)?;
    }
    Ok(texts)
}

// The new text of a binding with this symbol.
fn free_text(alloc: Global, sym: &str) -> Result<Option<String>, AllocError>
    ensures { IfOk result (λ text. option_map string_bytes text ≡ keyword_text sym.now) }
{
    if is_keyword(sym) {
        let text = format!(in alloc; "__{sym}")?;
        Ok(Some(text))
    } else {
        Ok(None)
    }
}

// The new contexts of bindings with these new texts. The salt is that of the list.
fn contexts_of<'a>(
    alloc: Global,
    pieces: &[Piece<'a>],
    bindings: &[Binding<'a>],
    texts: &[Option<String>],
    salt: Salt,
) -> Result<Vec<Option<u32>>, AllocError>
    requires { AreMangled (map (option_map string_bytes) texts.now) }
    ensures { IfOk result (λ contexts.
        AreContexts (map item_of pieces.now) bindings.now (map (option_map string_bytes) texts.now)
        contexts.items) }
{
    if !has_text(texts) {
        return none_of(alloc, texts.len());
    }
    let mut taken = TakenNames::of(alloc, pieces, salt)?;
    let mut contexts = Vec::new(alloc);
    for number in 0..texts.len() {
        let context = taken.context_for(text_at(texts, number), ctxt_at(bindings, number))?;
        contexts.push(context)?;
    }
    Ok(contexts)
}

// Whether there is a text.
fn has_text(texts: &[Option<String>]) -> bool
    ensures { result ≡ list_any (λ text. is_some text) texts.now }
{
    for text in texts {
        if text.is_some() {
            return true;
        }
    }
    false
}

// So many times nothing.
fn none_of(alloc: Global, count: usize) -> Result<Vec<Option<u32>>, AllocError>
    ensures len { IfOk result (λ contexts. length contexts.items ≡ count) }
    ensures none { IfOk result (λ contexts. (number : ℕ) → at contexts.items number ≡ None) }
{
    let contexts = vec![in alloc; None; count]?;
    Ok(contexts)
}

// The new text of a binding.
fn text_at(texts: &[Option<String>], number: usize) -> Option<&str>
    ensures { option_map (λ text. text.now) result
        ≡ at (map (option_map string_bytes) texts.now) number }
{
    match texts.get(number) {
        Some(Some(text)) => Some(text.as_str()),
        _ => None,
    }
}

// The context of a binding.
fn ctxt_at<'a>(bindings: &[Binding<'a>], number: usize) -> Option<u32>
    ensures { result ≡ ctxt_of bindings.now number }
{
    match bindings.get(number) {
        Some(binding) => binding.ctxt,
        None => None,
    }
}

// Whether a symbol begins as those do that stand for reserved words.
fn is_mangled(sym: &str) -> bool
    ensures { result ≡ is_mangled sym.now }
{
    sym.starts_with("__")
}

// Whether an identifier binds or refers.
fn occurs(role: Role) -> bool
    ensures { result ≡ fresh.occurs role }
{
    role != Role::Word
}

impl<'a> TakenNames<'a> {
    // Those of a list with this salt.
    fn of(alloc: Global, pieces: &[Piece<'a>], salt: Salt) -> Result<TakenNames<'a>, AllocError>
        ensures knows { IfOk result (KnowsNames (map item_of pieces.now)) }
        ensures next { IfOk result (λ taken. taken.next ≡ 2) }
    {
        let mut taken = TakenNames {
            names: HashSet::with_hasher(alloc, salt),
            contexts: HashSet::new(alloc),
            next: 2,
        };
        for piece in pieces {
            taken.add(*piece)?;
        }
        Ok(taken)
    }

    // Adds what an element is, if it is an identifier.
    fn add(&mut self, piece: Piece<'a>) -> Result<(), AllocError>
        ensures { OnOk result (AddsNames (item_of piece.entry) self.old self.new) }
    {
        match piece {
            Piece::Ident {
                sym,
                ctxt,
                role,
                ..
            } => if occurs(role) {
                self.add_name(sym, ctxt)
            } else {
                Ok(())
            },
            _ => Ok(()),
        }
    }

    // Adds a context, and with it a symbol that begins with `__`.
    fn add_name(&mut self, sym: &'a str, ctxt: u32) -> Result<(), AllocError>
        ensures names { OnOk result
            ((other : ℕ) (text : Text) →
            is_mangled text ≡ true →
            has_symbol_at other text self.new.names.keys
            ≡ (has_symbol_at other text self.old.names.keys
            || (other == ctxt && bytes_eq text sym.now))) }
        ensures contexts { OnOk result
            ((other : ℕ) →
            list_any (λ its. other == its) self.new.contexts.keys
            ≡ (list_any (λ its. other == its) self.old.contexts.keys || other == ctxt)) }
        ensures next { self.new.next ≡ self.old.next }
    {
        self.add_symbol(sym, ctxt)?;
        self.contexts.insert(ctxt)?;
        Ok(())
    }

    // Adds a symbol with a context, if it begins with `__`.
    fn add_symbol(&mut self, sym: &'a str, ctxt: u32) -> Result<(), AllocError>
        ensures names { OnOk result
            ((other : ℕ) (text : Text) →
            is_mangled text ≡ true →
            has_symbol_at other text self.new.names.keys
            ≡ (has_symbol_at other text self.old.names.keys
            || (other == ctxt && bytes_eq text sym.now))) }
        ensures contexts { self.new.contexts ≡ self.old.contexts }
        ensures next { self.new.next ≡ self.old.next }
    {
        if is_mangled(sym) {
            self.names.insert((ctxt, sym))?;
        }
        Ok(())
    }

    // The new context of a binding that gets this symbol and has this context, or `None` where it keeps it.
    fn context_for(
        &mut self,
        text: Option<&str>,
        ctxt: Option<u32>,
    ) -> Result<Option<u32>, AllocError>
        requires { IfSome text (λ text. is_mangled text.now ≡ true) }
        ensures { IfOk result (λ context.
            (items : List Item) →
            KnowsNames items self.old →
            AnswersFor (fresh.collides items (option_map (λ text. text.now) text.entry) ctxt)
            self.old self.new context) }
    {
        if !self.collides(text, ctxt) {
            return Ok(None);
        }
        let context = self.take()?;
        Ok(Some(context))
    }

    // Whether an identifier has a symbol with a context.
    fn collides(&self, text: Option<&str>, ctxt: Option<u32>) -> bool
        requires { IfSome text (λ text. is_mangled text.now ≡ true) }
        ensures { (items : List Item) →
            KnowsNames items self.now →
            result ≡ fresh.collides items (option_map (λ text. text.now) text.entry) ctxt }
    {
        let Some(text) = text else {
            return false;
        };
        let Some(ctxt) = ctxt else {
            return false;
        };
        self.names.contains(&(ctxt, text))
    }

    // The least context from the next one on that no identifier has.
    fn take(&mut self) -> Result<u32, AllocError>
        ensures { IfOk result (TakesNext self.old self.new) }
    {
        for ctxt in self.next..u32::MAX {
            if !self.contexts.contains(&ctxt) {
                self.next = ctxt + 1;
                return Ok(ctxt);
            }
        }
        Err(AllocError)
    }
}
