//! What a module is, by what is declared of its file, or else by its text.

ghost use Rattle.std.specs.Prelude.{◌≡◌, ◌≤◌, ◌⊎◌, length, IfErr, IsOkAnd, MatchResult};

use bundle_js_read::{Goal, ReadError, SourceModule, SourceRecords};
use std::alloc::Global;

/// What the name of a file and its package say of its text.
#[derive(Clone, Copy)]
pub enum DeclaredKind {
    EcmaScript,
    CommonJs,
    Nothing,
}

/// What a module is.
#[derive(Clone, Copy, PartialEq, Eq)]
pub enum SourceKind {
    EcmaScript,
    CommonJs,
}

/// Reads the text of a module of this kind. Refused where it is none, and for memory.
pub fn read_as<'a>(
    alloc: Global,
    text: &'a str,
    kind: SourceKind,
) -> Result<SourceModule<'a>, ReadError>
    ensures { MatchResult result (λ source. source.text.now ≡ text.now)
        (λ error. error.at ≤ length text.now) }
{
    let goal = match kind {
        SourceKind::EcmaScript => Goal::Module,
        SourceKind::CommonJs => Goal::CommonJs,
    };
    SourceModule::read(alloc, text, goal)
}

/// What a text is, and what was read of it where that had to be found out.
#[derive(Drop)]
pub struct KnownKind {
    pub kind: SourceKind,
    pub records: Option<SourceRecords>,
}

impl KnownKind {
    // Of a text that was read as this.
    fn of(source: SourceModule<'_>, kind: SourceKind) -> KnownKind {
        KnownKind {
            kind,
            records: Some(source.into_records()),
        }
    }
}

/// Reads the text of a module of this kind, or takes what was read of it. Refused where it is none, and for memory.
pub fn read_known<'a>(
    alloc: Global,
    text: &'a str,
    known: KnownKind,
) -> Result<SourceModule<'a>, ReadError>
    ensures { MatchResult result (λ source. source.text.now ≡ text.now)
        (λ error. error.at ≤ length text.now) }
{
    let KnownKind { kind, records } = known;
    match records {
        Some(records) => Ok(SourceModule::with_records(text, records)),
        None => read_as(alloc, text, kind),
    }
}

/// What a text is: as it is declared; else a CommonJS module where it is one, as Node has it, and an ECMAScript module
/// where only that can be. Of what is neither, the fault is told that stands further behind.
pub fn kind_of(alloc: Global, text: &str, declared: DeclaredKind) -> Result<KnownKind, ReadError>
    ensures of_modules { declared ≡ DeclaredKind.EcmaScript →
        IsOkAnd result (λ known. known.kind ≡ SourceKind.EcmaScript) }
    ensures common_js { declared ≡ DeclaredKind.CommonJs →
        IsOkAnd result (λ known. known.kind ≡ SourceKind.CommonJs) }
    ensures refused { IfErr result (λ error. error.at ≤ length text.now) }
{
    let kind = match declared {
        DeclaredKind::EcmaScript => SourceKind::EcmaScript,
        DeclaredKind::CommonJs => SourceKind::CommonJs,
        DeclaredKind::Nothing => return kind_by_text(alloc, text),
    };
    Ok(KnownKind {
        kind,
        records: None,
    })
}

fn kind_by_text(alloc: Global, text: &str) -> Result<KnownKind, ReadError>
    ensures { IfErr result (λ error. error.at ≤ length text.now) }
{
    if seems_module(text)
        && let Some(module) = module_alone(alloc, text)
    {
        return Ok(KnownKind::of(module, SourceKind::EcmaScript));
    }
    match read_as(alloc, text, SourceKind::CommonJs) {
        Ok(script) => Ok(KnownKind::of(script, SourceKind::CommonJs)),
        Err(first) => match read_as(alloc, text, SourceKind::EcmaScript) {
            Ok(module) => Ok(KnownKind::of(module, SourceKind::EcmaScript)),
            Err(second) => Err(further(first, second)),
        },
    }
}

// Whether a line begins as a declaration that only an ECMAScript module may have. By this is but chosen as what a text is
// read first.
fn seems_module(text: &str) -> bool {
    text.as_bytes()
        .split(|byte| *byte == b'\n')
        .any(|line| is_declaration(line))
}

fn is_declaration(line: &[u8]) -> bool {
    (line.starts_with(b"import") || line.starts_with(b"export"))
        && matches!(line.get(6), Some(b' ' | b'{' | b'*' | b'"' | b'\''))
}

// A text as an ECMAScript module, where it is one and no CommonJS module for sure.
fn module_alone(alloc: Global, text: &str) -> Option<SourceModule<'_>> {
    match read_as(alloc, text, SourceKind::EcmaScript) {
        Ok(module) => {
            if module.is_no_common_js() {
                Some(module)
            } else {
                None
            }
        }
        Err(_) => None,
    }
}

// The fault that stands further behind.
fn further(first: ReadError, second: ReadError) -> ReadError
    ensures { (result ≡ first) ⊎ (result ≡ second) }
{
    if first.at > second.at { first } else { second }
}
