//! The text of a bundle.

ghost use Rattle.std.specs.Prelude.{◌≡◌, ◌+◌, ◌<◌, ◌≤◌, ◌⊎◌, ◌++◌, [], drop, length, IfOk, OnOk, IfSome, IsTrue, ◌==◌, codes, false, true, map, option_map, string_bytes, take};
ghost use Rattle.std.specs.List.{list_any};
ghost use Rattle.bundle_syntax.specs.Item.{item_of};
ghost use Rattle.gutsirava_bundle.specs.BundleText.{first_line, AddsDirective, Appends, BeginsWithComment, IsBody, IsCall, IsComment, IsFramed, IsModuleBody, IsScriptBody, IsStatement, LeavesComments, directive};

use bundle_js_print::{LeadingComment, Printed, print_pieces};
use bundle_scope_denote::{ModuleKind, Reading, denotations};
use bundle_syntax::{Node, Piece};
use bundle_tree_ast::Module;
use bundle_tree_list::pieces_of_module;
use gutsirava_graph::{BundleSettings, OutputFormat};
use gutsirava_resolve::TargetPlatform;
use gutsirava_sources::COMMENT;
use gutsirava_traces::PrintedList;
use std::alloc::{AllocError, Global};

/// What a bundle's text has round it.
#[derive(Clone, Copy)]
pub(crate) struct BundleFrame<'x> {
    /// The first line of the entry, where it names a program.
    pub(crate) hashbang: Option<&'x str>,
    /// Whether the entry is a CommonJS module: what a script leaves is then what it exports.
    pub(crate) is_common_js: bool,
}

// A list that is to be printed, and the comments, each with the place before which it stands.
#[derive(Drop)]
struct CommentedList<'a> {
    pieces: Vec<Piece<'a>>,
    comments: Vec<LeadingComment<'a>>,
}

/// The text of a bundle, and what is printed in it.
#[derive(Drop)]
pub(crate) struct BundleBody<'a> {
    pub(crate) text: String,
    /// The list that is printed, and the place of each piece in its print.
    pub(crate) pieces: Vec<Piece<'a>>,
    pub(crate) offsets: Vec<u32>,
    /// Where in the text the print begins.
    pub(crate) base: usize,
}

impl<'a> BundleBody<'a> {
    /// The list, with the places of its pieces.
    pub(crate) fn list(&self) -> PrintedList<'_, 'a> {
        PrintedList {
            pieces: self.pieces.as_slice(),
            offsets: self.offsets.as_slice(),
        }
    }
}

// Where a list stands in a text: the place of each piece in its print, and where that begins.
#[derive(Drop)]
struct PrintPlaces {
    offsets: Vec<u32>,
    base: usize,
}

// A list that is printed in a text.
#[derive(Drop)]
struct PrintedBody<'a> {
    pieces: Vec<Piece<'a>>,
    places: PrintPlaces,
}

/// The text of a bundle: the first line of the entry, where that names a program, and the print of the module's list. What
/// Node needs for CommonJS stands before the print of a module, and the name that it is left under before that of a script.
pub(crate) fn text_of<'a>(
    alloc: Global,
    tree: &'a Module,
    settings: &BundleSettings,
    frame: BundleFrame<'_>,
) -> Result<BundleBody<'a>, AllocError>
    ensures { IfOk result (λ body. IsFramed
        (option_map (λ line. line.now) frame.entry.hashbang) frame.entry.is_common_js
        settings.now tree.now (string_bytes body.text)) }
{
    let listed = pieces_of_module(alloc, tree)?;
    let list = without_comments(alloc, listed)?;
    let mut text = begun(alloc, frame.hashbang)?;
    let printed = push_body(alloc, &mut text, list, settings, frame.is_common_js)?;
    let PrintedBody { pieces, places } = printed;
    let PrintPlaces { offsets, base } = places;
    Ok(BundleBody {
        text,
        pieces,
        offsets,
        base,
    })
}

// The first line of an entry, where that names a program.
fn begun(alloc: Global, hashbang: Option<&str>) -> Result<String, AllocError>
    ensures { IfOk result (λ text.
        string_bytes text ≡ first_line (option_map (λ line. line.now) hashbang.entry)) }
{
    let Some(line) = hashbang else {
        return Ok(String::new(alloc));
    };
    let mut text = String::from_str(alloc, line)?;
    text.push('\n')?;
    Ok(text)
}

// Puts down all but the first line.
#[tactic(auto, using(std::proofs::lemmas::Grind::common_steps, crate::proofs::BodyLemmas::strict_of_script))]
fn push_body<'a>(
    alloc: Global,
    text: &mut String,
    list: CommentedList<'a>,
    settings: &BundleSettings,
    is_common_js: bool,
) -> Result<PrintedBody<'a>, AllocError>
    ensures { OnOk result (Appends (string_bytes text.old) (string_bytes text.new)
        (IsBody settings.now is_common_js (map item_of list.entry.pieces.items))) }
{
    match settings.format {
        OutputFormat::Module => {
            let places = push_module(alloc, text, &list, settings)?;
            Ok(printed_body(list, places))
        }
        OutputFormat::Iife => {
            let strict = with_directive(alloc, list)?;
            let places = push_script(alloc, text, &strict, settings, is_common_js)?;
            Ok(printed_body(strict, places))
        }
    }
}

// Puts down a module.
fn push_module(
    alloc: Global,
    text: &mut String,
    list: &CommentedList<'_>,
    settings: &BundleSettings,
) -> Result<PrintPlaces, AllocError>
    ensures { OnOk result (Appends (string_bytes text.old) (string_bytes text.new)
        (IsModuleBody settings.now.platform (map item_of list.now.pieces.items))) }
{
    let words = words_of(alloc, list.pieces.as_slice(), settings.platform)?;
    let printed = print_pieces(
        alloc,
        list.pieces.as_slice(),
        list.comments.as_slice(),
        settings.charset,
    )?;
    text.push_str(words.as_str())?;
    let base = text.len();
    text.push_str(printed.text.as_str())?;
    Ok(places_of(printed, base))
}

// Where a list stands whose print begins at a place.
fn places_of(printed: Printed, base: usize) -> PrintPlaces {
    let Printed { offsets, .. } = printed;
    PrintPlaces { offsets, base }
}

// A list with where it is printed.
fn printed_body<'a>(list: CommentedList<'a>, places: PrintPlaces) -> PrintedBody<'a> {
    let CommentedList { pieces, .. } = list;
    PrintedBody { pieces, places }
}

// Puts down a script.
fn push_script(
    alloc: Global,
    text: &mut String,
    list: &CommentedList<'_>,
    settings: &BundleSettings,
    is_common_js: bool,
) -> Result<PrintPlaces, AllocError>
    ensures { OnOk result (Appends (string_bytes text.old) (string_bytes text.new)
        (IsScriptBody settings.now.global_name is_common_js (map item_of list.now.pieces.items))) }
{
    let printed = print_pieces(
        alloc,
        list.pieces.as_slice(),
        list.comments.as_slice(),
        settings.charset,
    )?;
    match &settings.global_name {
        None => {
            let base = text.len();
            text.push_str(printed.text.as_str())?;
            Ok(places_of(printed, base))
        }
        Some(name) => {
            let base = push_call(
                alloc,
                text,
                printed.text.as_str(),
                name.as_str(),
                is_common_js,
            )?;
            Ok(places_of(printed, base))
        }
    }
}

// Puts down the call that a script is, and the name under which it leaves what it gives. Gives where the call begins.
fn push_call(
    alloc: Global,
    text: &mut String,
    script: &str,
    name: &str,
    is_common_js: bool,
) -> Result<usize, AllocError>
    ensures { OnOk result (Appends (string_bytes text.old) (string_bytes text.new)
        (IsCall name.now is_common_js script.now)) }
{
    let owners = owners_of(alloc, name)?;
    let call = script.trim_end().trim_end_matches(';');
    text.push_str(owners.as_str())?;
    text.push_str(name)?;
    text.push_str(" = ")?;
    let base = text.len();
    text.push_str(call)?;
    text.push_str(property_of(call, is_common_js))?;
    text.push_str(";\n")?;
    Ok(base)
}

// What is read of a call whose promise or value is the namespace of a CommonJS module.
fn property_of(call: &str, is_common_js: bool) -> &'static str
    ensures plain { is_common_js ≡ false → result.now ≡ [] }
    ensures exported { is_common_js ≡ true
        → (result.now ≡ codes ".default") ⊎ (result.now ≡ codes ".then((exports) => exports.default)") }
{
    if !is_common_js {
        ""
    } else if call.starts_with("(async") {
        ".then((exports) => exports.default)"
    } else {
        ".default"
    }
}

// What stands before a whole name: `var a = a || {};` for each word before the last, or `var` alone.
fn owners_of(alloc: Global, name: &str) -> Result<String, AllocError>
    ensures { IsTrue (list_any (λ byte. byte == 46) name.now)
        ⊎ IfOk result (λ text. string_bytes text ≡ codes "var ") }
{
    if !name.as_bytes().contains(&b'.') {
        return String::from_str(alloc, "var ");
    }
    let mut text = String::new(alloc);
    let mut owner = String::new(alloc);
    for (number, word) in name.split('.').enumerate() {
        if number > 0 {
            let begin = if number == 1 { "var " } else { "" };
            let line = format!(in alloc; "{begin}{owner} = {owner} || {{}};\n")?;
            text.push_str(line.as_str())?;
            owner.push('.')?;
        }
        owner.push_str(word)?;
    }
    Ok(text)
}

// A list without the statements that stand for comments: what stays moves up in it.
#[tactic(auto, using(std::proofs::lemmas::Grind::common_steps, crate::proofs::CommentLemmas::left_first, crate::proofs::CommentLemmas::left_moved, crate::proofs::CommentLemmas::left_comment, crate::proofs::CommentLemmas::left_end))]
fn without_comments<'a>(
    alloc: Global,
    listed: Vec<Piece<'a>>,
) -> Result<CommentedList<'a>, AllocError>
    ensures { IfOk result (λ list.
        LeavesComments (map item_of listed.entry.items) (map item_of list.pieces.items)) }
{
    let mut pieces = listed;
    let mut comments = Vec::new(alloc);
    let mut kept = 0;
    let mut at = 0;
    while at < pieces.len() {
        if let Some(text) = comment_at(pieces.as_slice(), at) {
            let piece = u32::try_from(kept).unwrap_or(u32::MAX);
            comments.push(LeadingComment { piece, text })?;
            at += 4;
        } else {
            move_up(&mut pieces, at, kept);
            kept += 1;
            at += 1;
        }
    }
    pieces.truncate(kept);
    Ok(CommentedList { pieces, comments })
}

// Moves the piece at a place to another before it, or leaves it where it is.
#[tactic(auto, using(std::proofs::lemmas::Grind::common_steps, crate::proofs::CommentLemmas::moved_up, crate::proofs::CommentLemmas::moved_behind, crate::proofs::CommentLemmas::stays_there))]
fn move_up(pieces: &mut Vec<Piece<'_>>, from: usize, to: usize)
    requires up { to ≤ from }
    requires within { from < length pieces.old.items }
    ensures moved { take (to + 1) pieces.new.items
        ≡ take to pieces.old.items ++ take 1 (drop from pieces.old.items) }
    ensures behind { drop (from + 1) pieces.new.items ≡ drop (from + 1) pieces.old.items }
    ensures same { length pieces.new.items ≡ length pieces.old.items }
{
    if to < from {
        pieces[to] = pieces[from];
    }
}

// The comment for which the statement at a place stands. It has four pieces.
#[tactic(auto, using(std::proofs::lemmas::Grind::common_steps, crate::proofs::CommentLemmas::comment_of_pieces))]
fn comment_at<'a>(listed: &[Piece<'a>], at: usize) -> Option<&'a str>
    requires { at < length listed.now }
    ensures comment { IfSome result (λ _. BeginsWithComment
        (map item_of (drop at listed.now)) (map item_of (drop (at + 4) listed.now))) }
    ensures within { IfSome result (λ _. at + 4 ≤ length listed.now) }
{
    if listed.len() - at < 4 || !is_statement(&listed[at]) {
        return None;
    }
    let text = comment_in(&listed[at + 1])?;
    Some(text)
}

fn is_statement(piece: &Piece<'_>) -> bool
    ensures { IsTrue result → IsStatement (item_of piece.now) }
{
    matches!(
        piece,
        Piece::Open {
            node: Node::ExprStmt,
            ..
        }
    )
}

// The comment for which a string stands.
fn comment_in<'a>(piece: &Piece<'a>) -> Option<&'a str>
    ensures { IfSome result (λ _. IsComment (item_of piece.now)) }
{
    match piece {
        Piece::Open {
            node: Node::Str {
                value,
                raw: Some(text),
            },
            ..
        } if *value == COMMENT && text.starts_with('/') => Some(*text),
        _ => None,
    }
}

// The list with `"use strict"` at the head of its first function's body, and the comments where they stand then.
fn with_directive<'a>(
    alloc: Global,
    list: CommentedList<'a>,
) -> Result<CommentedList<'a>, AllocError>
    ensures { IfOk result (λ strict.
        (map item_of strict.pieces.items ≡ map item_of list.entry.pieces.items)
        ⊎ AddsDirective (map item_of list.entry.pieces.items) (map item_of strict.pieces.items)) }
{
    let Some(body) = list.pieces.iter().position(is_block) else {
        return Ok(list);
    };
    let pieces = strict_pieces(alloc, list.pieces.as_slice(), body.saturating_add(1))?;
    let mut comments = Vec::with_capacity(alloc, list.comments.len())?;
    for comment in &list.comments {
        comments.push(moved(*comment, body))?;
    }
    Ok(CommentedList { pieces, comments })
}

// A list with `"use strict"` before a place of it.
#[tactic(auto, using(std::proofs::lemmas::Grind::common_steps, crate::proofs::CommentLemmas::strict_of))]
fn strict_pieces<'a>(
    alloc: Global,
    pieces: &[Piece<'a>],
    place: usize,
) -> Result<Vec<Piece<'a>>, AllocError>
    ensures { IfOk result (λ strict.
        AddsDirective (map item_of pieces.now) (map item_of strict.items)) }
{
    let (front, back) = pieces.split_at(place.min(pieces.len()));
    let mut strict = Vec::with_capacity(alloc, pieces.len().saturating_add(4))?;
    strict.extend_from_slice(front)?;
    push_directive(&mut strict)?;
    strict.extend_from_slice(back)?;
    Ok(strict)
}

fn is_block(piece: &Piece<'_>) -> bool {
    matches!(
        piece,
        Piece::Open {
            node: Node::BlockStmt,
            ..
        }
    )
}

// A comment, where four pieces stand behind this one that did not.
fn moved(comment: LeadingComment<'_>, body: usize) -> LeadingComment<'_> {
    let LeadingComment { piece, text } = comment;
    let piece = if piece as usize > body {
        piece.saturating_add(4)
    } else {
        piece
    };
    LeadingComment { piece, text }
}

// Puts down the statement `"use strict"`.
fn push_directive(pieces: &mut Vec<Piece<'_>>) -> Result<(), AllocError>
    ensures { OnOk result (map item_of pieces.new.items ≡ map item_of pieces.old.items
        ++ directive) }
{
    let node = Node::Str {
        value: "use strict",
        raw: None,
    };
    pieces.extend_from_slice(&[
        Piece::Open {
            field: 0,
            node: Node::ExprStmt,
        },
        Piece::Open { field: 0, node },
        Piece::Close,
        Piece::Close,
    ])
}

// The words of CommonJS that stand in a bundle where nothing binds them.
#[derive(Clone, Copy)]
struct FreeWords {
    require: bool,
    filename: bool,
    dirname: bool,
}

// The lines that make Node's `require`, `__filename` and `__dirname`, where a bundle speaks of them: as they would be where
// it lies.
fn words_of(
    alloc: Global,
    pieces: &[Piece<'_>],
    platform: TargetPlatform,
) -> Result<String, AllocError>
    ensures { platform ≡ TargetPlatform.Browser → IfOk result (λ text. string_bytes text ≡ []) }
{
    match platform {
        TargetPlatform::Browser => Ok(String::new(alloc)),
        TargetPlatform::Node => node_words_of(alloc, pieces),
    }
}

fn node_words_of(alloc: Global, pieces: &[Piece<'_>]) -> Result<String, AllocError> {
    let words = free_words(alloc, pieces)?;
    let mut text = String::new(alloc);
    if words.require {
        let maker = push_import(alloc, &mut text, pieces, "createRequire", "node:module")?;
        let line = format!(in alloc; "const require = {maker}(import.meta.url);\n")?;
        text.push_str(line.as_str())?;
    }
    if words.filename || words.dirname {
        push_paths(alloc, &mut text, pieces, words)?;
    }
    Ok(text)
}

// Puts down the lines that make `__filename` and `__dirname`.
fn push_paths(
    alloc: Global,
    text: &mut String,
    pieces: &[Piece<'_>],
    words: FreeWords,
) -> Result<(), AllocError> {
    let path = push_import(alloc, text, pieces, "fileURLToPath", "node:url")?;
    if words.filename {
        let line = format!(in alloc; "const __filename = {path}(import.meta.url);\n")?;
        text.push_str(line.as_str())?;
    }
    if words.dirname {
        let folder = push_import(alloc, text, pieces, "dirname", "node:path")?;
        let line = format!(in alloc; "const __dirname = {folder}({path}(import.meta.url));\n")?;
        text.push_str(line.as_str())?;
    }
    Ok(())
}

// Puts down an import of a name of one of Node's modules, and gives what it is called.
fn push_import(
    alloc: Global,
    text: &mut String,
    pieces: &[Piece<'_>],
    name: &str,
    module: &str,
) -> Result<String, AllocError> {
    let local = free_name(alloc, pieces, name)?;
    let line = if local.as_str() == name {
        format!(in alloc; "import {{ {name} }} from \"{module}\";\n")?
    } else {
        format!(in alloc; "import {{ {name} as {local} }} from \"{module}\";\n")?
    };
    text.push_str(line.as_str())?;
    Ok(local)
}

// Which words of CommonJS stand in a bundle where nothing binds them.
fn free_words(alloc: Global, pieces: &[Piece<'_>]) -> Result<FreeWords, AllocError> {
    let mut words = FreeWords {
        require: false,
        filename: false,
        dirname: false,
    };
    if !pieces.iter().any(is_word) {
        return Ok(words);
    }
    let names = denotations(alloc, pieces, ModuleKind::Es, Reading::BySymbol)?;
    for occurrence in &names.occurrences {
        if occurrence.binding.is_none()
            && let Some(Piece::Ident { sym, .. }) = pieces.get(occurrence.place)
        {
            match *sym {
                "require" => words.require = true,
                "__filename" => words.filename = true,
                "__dirname" => words.dirname = true,
                _ => {}
            }
        }
    }
    Ok(words)
}

fn is_word(piece: &Piece<'_>) -> bool {
    matches!(
        piece,
        Piece::Ident {
            sym: "require" | "__filename" | "__dirname",
            ..
        }
    )
}

// A name that no identifier has: this one, or with a number behind it.
fn free_name(alloc: Global, pieces: &[Piece<'_>], name: &str) -> Result<String, AllocError> {
    let mut free = String::from_str(alloc, name)?;
    for number in 1..usize::MAX {
        if !pieces.iter().any(|piece| is_called(piece, free.as_str())) {
            break;
        }
        free = format!(in alloc; "{name}{number}")?;
    }
    Ok(free)
}

fn is_called(piece: &Piece<'_>, name: &str) -> bool {
    match piece {
        Piece::Ident { sym, .. } => *sym == name,
        _ => false,
    }
}
