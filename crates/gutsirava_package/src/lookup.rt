//! Which file of a package an entry of `exports` or `imports` names: PACKAGE_EXPORTS_RESOLVE, PACKAGE_IMPORTS_RESOLVE
//! and PACKAGE_TARGET_RESOLVE of Node's documentation.
ghost use Rattle.std.specs.Prelude.{◌≡◌, ◌++◌, false, true, IfOk, IsSome, OnOk, Some, codes, option_map, string_bytes};
ghost use Rattle.gutsirava_package.specs.Entries.{given, shown, with_star};
ghost use Rattle.gutsirava_package.specs.Gives.{Gives};
ghost use Rattle.gutsirava_package.specs.Located.{IsInside, IsInsideOf, IsPlace, is_inner, is_no_import};

use crate::package::Package;
use crate::segments::has_forbidden_part;
use crate::target::{SettledTarget, TargetOutcome};
use gutsirava_path::Loader;
use std::alloc::{AllocError, Global};
use std::fmt;

/// A path that patterns make may be this long, in bytes: more than any file's.
const MOST_PATH: usize = 65_535;

/// What a target names.
#[derive(Drop)]
pub enum Located {
    /// An address in the package, which begins with `./`.
    Inside(String),
    /// A specifier of a package, from `imports`.
    Bare(String),
}

/// What is wrong with what `exports` or `imports` have for an entry. The names are those of Node's errors.
#[derive(Clone, Copy, PartialEq, Eq)]
pub enum TargetFault {
    /// ERR_PACKAGE_PATH_NOT_EXPORTED: nothing is named for the subpath `key`.
    NotExported,
    /// ERR_PACKAGE_IMPORT_NOT_DEFINED: nothing is named for the name `key`.
    ImportNotDefined,
    /// ERR_INVALID_PACKAGE_TARGET: `key` names `other`, which is no target.
    InvalidTarget,
    /// ERR_INVALID_PACKAGE_CONFIG: `exports` has keys of both sorts.
    MixedKeys,
    /// ERR_INVALID_PACKAGE_CONFIG: `key` has the condition `other`, which is a number.
    NumericCondition,
    /// ERR_INVALID_MODULE_SPECIFIER: the specifier `key` fits `other`, and leads elsewhere.
    InvalidSubpath,
    /// ERR_INVALID_MODULE_SPECIFIER: `key` is no name of an entry of `imports`.
    InvalidImportName,
    /// The path of `key` is too long.
    TooLong,
}

/// Why `exports` or `imports` give nothing.
pub enum TargetError {
    /// What is wrong, and the texts that it is wrong with; they are empty where it names none.
    Fault {
        fault: TargetFault,
        key: String,
        other: String,
    },
    Memory(AllocError),
}

impl Drop for TargetError {
    fn drop(self) {
        match self {
            TargetError::Fault {
                fault: _fault,
                key: _key,
                other: _other,
            } => {}
            TargetError::Memory(_refused) => {}
        }
    }
}

/// The words of a sentence round the texts that it names.
#[derive(Clone, Copy)]
enum Sentence {
    Bare(&'static str),
    OfOne(&'static str, &'static str),
    OfTwo(&'static str, &'static str, &'static str),
}

impl TargetFault {
    fn sentence(self) -> Sentence {
        match self {
            TargetFault::NotExported => {
                Sentence::OfOne("\"exports\" does not name ", " under these conditions")
            }
            TargetFault::ImportNotDefined => {
                Sentence::OfOne("\"imports\" does not name ", " under these conditions")
            }
            TargetFault::InvalidTarget => Sentence::OfTwo(
                "",
                " names ",
                ", which is no target: it begins with \"./\" and has no part \".\", \"..\" or \"node_modules\"",
            ),
            TargetFault::MixedKeys => Sentence::Bare(
                "\"exports\" has keys that begin with \".\" beside keys that do not",
            ),
            TargetFault::NumericCondition => {
                Sentence::OfTwo("", " has conditions, of which ", " is a number")
            }
            TargetFault::InvalidSubpath => Sentence::OfTwo(
                "",
                " fits ",
                " with a part \".\", \"..\" or \"node_modules\"",
            ),
            TargetFault::InvalidImportName => {
                Sentence::OfOne("", " is no name of an entry of \"imports\"")
            }
            TargetFault::TooLong => {
                Sentence::OfOne("the path of ", " is longer than 65,535 bytes")
            }
        }
    }
}

impl TargetError {
    /// What is wrong with these texts; where memory is refused for them, that.
    pub(crate) fn of(alloc: Global, fault: TargetFault, key: &str, other: &str) -> TargetError {
        match (String::from_str(alloc, key), String::from_str(alloc, other)) {
            (Ok(key), Ok(other)) => TargetError::Fault { fault, key, other },
            _ => TargetError::Memory(AllocError),
        }
    }
}

/// Writes what is wrong, in a sentence without a full stop.
impl fmt::Display for TargetError {
    fn fmt<W: fmt::Write>(&self, f: &mut fmt::Formatter<W>) -> fmt::Result {
        match self {
            TargetError::Fault { fault, key, other } => match fault.sentence() {
                Sentence::Bare(text) => write!(f, "{text}"),
                Sentence::OfOne(front, behind) => write!(f, "{front}{key:?}{behind}"),
                Sentence::OfTwo(front, between, behind) => {
                    write!(f, "{front}{key:?}{between}{other:?}{behind}")
                }
            },
            TargetError::Memory(_) => write!(f, "memory allocation failed"),
        }
    }
}

impl From<AllocError> for TargetError {
    fn from(refused: AllocError) -> TargetError {
        TargetError::Memory(refused)
    }
}

/// One look-up: for which entry.
#[derive(Clone, Copy)]
pub(crate) struct Lookup<'a> {
    pub(crate) alloc: Global,
    pub(crate) key: &'a str,
    /// What the key's `*` stands for.
    pub(crate) star: Option<&'a str>,
    /// Whether it is in `imports`, where a target may be a package.
    pub(crate) is_import: bool,
}

impl Package {
    /// What `exports` has at the subpath: `.`, or a path that begins with `./`. A package without `exports` exports
    /// nothing here.
    pub fn resolve_export(
        &self,
        alloc: Global,
        subpath: &str,
        loader: Loader,
    ) -> Result<Located, TargetError>
        ensures inside { IfOk result IsInside }
        ensures entry { IfOk result (Gives self.now.exports subpath.now loader) }
    {
        let found = match &self.exports {
            Some(exports) => exports.find(alloc, subpath, loader, false)?,
            None => None,
        };
        match found {
            Some(located) => Ok(located),
            None => Err(TargetError::of(alloc, TargetFault::NotExported, subpath, "")),
        }
    }

    /// What `imports` has at the name, which begins with `#`.
    pub fn resolve_import(
        &self,
        alloc: Global,
        name: &str,
        loader: Loader,
    ) -> Result<Located, TargetError>
        ensures named { OnOk result (is_no_import name.now ≡ false) }
        ensures has_entries { OnOk result (IsSome self.now.imports) }
        ensures place { IfOk result IsPlace }
        ensures entry { IfOk result (Gives self.now.imports name.now loader) }
    {
        if is_no_import(name) {
            return Err(TargetError::of(alloc, TargetFault::InvalidImportName, name, ""));
        }
        let found = match &self.imports {
            Some(imports) => imports.find(alloc, name, loader, true)?,
            None => None,
        };
        match found {
            Some(located) => Ok(located),
            None => Err(TargetError::of(alloc, TargetFault::ImportNotDefined, name, "")),
        }
    }
}

/// Whether a name is none of an entry of `imports`.
fn is_no_import(name: &str) -> bool
    ensures { result ≡ is_no_import name.now }
{
    name == "#" || name.starts_with("#/") || name.ends_with('/')
}

impl Lookup<'_> {
    /// What a target gives.
    pub(crate) fn locate(&self, target: &SettledTarget) -> Result<Option<Located>, TargetError>
        ensures inside { IfOk result (IsInsideOf self.now.is_import) }
        ensures gives { IfOk result (λ located.
            given target.now (option_map (λ star. star.now) self.now.star)
            ≡ Some (option_map shown located)) }
    {
        let text = target.text.as_str();
        match target.outcome {
            TargetOutcome::Text => Ok(Some(self.locate_text(text)?)),
            TargetOutcome::Null | TargetOutcome::Nothing => Ok(None),
            TargetOutcome::Invalid => Err(self.invalid_target(text)),
            TargetOutcome::Numeric => {
                let fault = TargetFault::NumericCondition;
                Err(TargetError::of(self.alloc, fault, self.key, text))
            }
        }
    }

    /// What a text names that is a target.
    fn locate_text(&self, text: &str) -> Result<Located, TargetError>
        ensures place { IfOk result IsPlace }
        ensures inside { IfOk result (λ l. self.now.is_import ≡ false → IsInside l) }
        ensures names { IfOk result (λ located. shown located ≡ (
          is_inner text.now,
          with_star (option_map (λ star. star.now) self.now.star) text.now,
        )) }
    {
        match text.strip_prefix("./") {
            Some(path) => Ok(Located::Inside(self.inner_address(text, path)?)),
            None if self.is_import => Ok(Located::Bare(self.insert_star(text)?)),
            None => Err(self.invalid_target(text)),
        }
    }

    /// The address of a path in the package, which stands behind `./` in a text.
    fn inner_address(&self, text: &str, path: &str) -> Result<String, TargetError>
        requires { text.now ≡ codes "./" ++ path.now }
        ensures inner { IfOk result (λ address. is_inner (string_bytes address) ≡ true) }
        ensures text { IfOk result (λ address. string_bytes address
            ≡ with_star (option_map (λ star. star.now) self.now.star) text.now) }
    {
        if self.star.is_some_and(has_forbidden_part) {
            return Err(self.invalid_subpath(self.insert_star(self.key)?.as_str()));
        }
        let Some(star) = self.star else {
            return Ok(format!(in self.alloc; "./{path}")?);
        };
        if length_with_star(text, star) > MOST_PATH {
            return Err(self.too_long());
        }
        let inner = with_star(self.alloc, path, star)?;
        Ok(format!(in self.alloc; "./{inner}")?)
    }

    /// The text with each `*` replaced by what the key's stands for.
    fn insert_star(&self, text: &str) -> Result<String, TargetError>
        ensures { IfOk result (λ it. string_bytes it
            ≡ with_star (option_map (λ star. star.now) self.now.star) text.now) }
    {
        let Some(star) = self.star else {
            return Ok(String::from_str(self.alloc, text)?);
        };
        if length_with_star(text, star) > MOST_PATH {
            return Err(self.too_long());
        }
        Ok(with_star(self.alloc, text, star)?)
    }

    fn invalid_target(&self, target: &str) -> TargetError {
        TargetError::of(self.alloc, TargetFault::InvalidTarget, self.key, target)
    }

    fn too_long(&self) -> TargetError {
        TargetError::of(self.alloc, TargetFault::TooLong, self.key, "")
    }

    fn invalid_subpath(&self, specifier: &str) -> TargetError {
        TargetError::of(self.alloc, TargetFault::InvalidSubpath, specifier, self.key)
    }
}

/// How long a text is with each `*` replaced.
fn length_with_star(text: &str, star: &str) -> usize {
    let stars = text.bytes().filter(|byte| *byte == b'*').count();
    let others = text.len().saturating_sub(stars);
    others.saturating_add(stars.saturating_mul(star.len()))
}

/// A text with each `*` replaced.
fn with_star(alloc: Global, text: &str, star: &str) -> Result<String, AllocError>
    ensures { IfOk result (λ it. string_bytes it ≡ with_star (Some star.now) text.now) }
{
    let mut whole = String::new(alloc);
    let mut rest = text;
    while let Some((front, behind)) = rest.split_once('*') {
        whole.push_str(front)?;
        whole.push_str(star)?;
        rest = behind;
    }
    whole.push_str(rest)?;
    Ok(whole)
}
