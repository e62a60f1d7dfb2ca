//! What an entry of `exports` or `imports` stands for.

use crate::segments::has_forbidden_part;
use gutsirava_path::{Loader, Specifier};
use std::alloc::{AllocError, Global};

/// The value of an entry of `exports` or `imports`.
#[derive(Drop)]
pub(crate) enum PackageTarget {
    /// A text: a path that begins with `./`, or in `imports` also the name of a package.
    Text(String),
    /// An object, its keys in the order of the file, each once.
    Object(Vec<(String, PackageTarget)>),
    /// An array: what it gives is what the first of its members gives that is fit.
    Alternatives(Vec<PackageTarget>),
    /// `null`: nothing, whatever comes behind.
    Null,
    /// A number or a truth value, which stands for nothing.
    Other,
}

/// What a target comes to.
#[derive(Clone, Copy, PartialEq, Eq)]
pub(crate) enum TargetOutcome {
    /// A text that is a target.
    Text,
    /// `null`: nothing, whatever comes behind.
    Null,
    /// Nothing, so that the next condition is tried.
    Nothing,
    /// What is no target.
    Invalid,
    /// An object of conditions, of which one is a number.
    Numeric,
}

/// A target where it is known which conditions hold.
#[derive(Drop)]
pub(crate) struct SettledTarget {
    pub(crate) outcome: TargetOutcome,
    /// The text, what is no target, or the condition; empty for the others.
    pub(crate) text: String,
}

/// The same, of a target.
#[derive(Clone, Copy)]
struct Settled<'t> {
    outcome: TargetOutcome,
    text: &'t str,
}

/// What of a target it takes to settle it.
#[derive(Clone, Copy)]
pub(crate) struct Settlement<'c> {
    /// The conditions that hold, beside `default`.
    pub(crate) conditions: &'c [String],
    /// Whether it stands in `imports`, where a target may be a package.
    pub(crate) is_import: bool,
}

impl Settlement<'_> {
    /// What a target comes to, whatever is asked for: PACKAGE_TARGET_RESOLVE of Node's documentation without what it
    /// does with the text that a `*` stands for.
    pub(crate) fn of(
        &self,
        alloc: Global,
        target: &PackageTarget,
    ) -> Result<SettledTarget, AllocError> {
        let settled = self.settle(target);
        Ok(SettledTarget {
            outcome: settled.outcome,
            text: String::from_str(alloc, settled.text)?,
        })
    }

    /// It nests 128 levels at most.
    #[cycle(settling)]
    fn settle<'t>(&self, target: &'t PackageTarget) -> Settled<'t> {
        match target {
            PackageTarget::Text(text) => self.settle_text(text.as_str()),
            PackageTarget::Object(entries) => match numeric_condition(entries.as_slice()) {
                Some(condition) => Settled {
                    outcome: TargetOutcome::Numeric,
                    text: condition,
                },
                None => self.settle_conditions(entries),
            },
            PackageTarget::Alternatives(targets) => self.settle_alternatives(targets),
            PackageTarget::Null => without_text(TargetOutcome::Null),
            PackageTarget::Other => Settled {
                outcome: TargetOutcome::Invalid,
                text: "a number or a truth value",
            },
        }
    }

    /// The first condition that holds and gives something.
    #[cycle(settling)]
    fn settle_conditions<'t>(&self, entries: &'t Vec<(String, PackageTarget)>) -> Settled<'t> {
        for (condition, target) in entries {
            if !self.holds(condition.as_str()) {
                continue;
            }
            let settled = self.settle(target);
            if settled.outcome != TargetOutcome::Nothing {
                return settled;
            }
        }
        without_text(TargetOutcome::Nothing)
    }

    /// The first member that is a text, or fails in another way than that it is no target; where none does, what the
    /// last one was that gives something.
    #[cycle(settling)]
    fn settle_alternatives<'t>(&self, targets: &'t Vec<PackageTarget>) -> Settled<'t> {
        if targets.is_empty() {
            return without_text(TargetOutcome::Null);
        }
        let mut last = without_text(TargetOutcome::Nothing);
        for target in targets {
            let settled = self.settle(target);
            if matches!(
                settled.outcome,
                TargetOutcome::Text | TargetOutcome::Numeric
            ) {
                return settled;
            }
            last = later(last, settled);
        }
        last
    }

    fn holds(&self, condition: &str) -> bool {
        condition == "default" || self.conditions.iter().any(|c| c.as_str() == condition)
    }

    fn settle_text<'t>(&self, text: &'t str) -> Settled<'t> {
        let is_target = match text.strip_prefix("./") {
            Some(path) => !has_forbidden_part(path),
            None => self.is_import && is_package(text),
        };
        let outcome = if is_target {
            TargetOutcome::Text
        } else {
            TargetOutcome::Invalid
        };
        Settled { outcome, text }
    }
}

/// Of what two members of an array give, the second, where it gives something.
fn later<'t>(first: Settled<'t>, second: Settled<'t>) -> Settled<'t> {
    if second.outcome == TargetOutcome::Nothing {
        first
    } else {
        second
    }
}

fn without_text<'t>(outcome: TargetOutcome) -> Settled<'t> {
    Settled { outcome, text: "" }
}

/// The first condition that is a number.
fn numeric_condition(entries: &[(String, PackageTarget)]) -> Option<&str> {
    for (condition, _) in entries {
        if is_array_index(condition.as_str()) {
            return Some(condition.as_str());
        }
    }
    None
}

/// Whether a target of `imports` is a specifier of a package, or of one of Node's modules without `node:`.
fn is_package(text: &str) -> bool {
    if text.starts_with("../") {
        return false;
    }
    match Specifier::of(text, Loader::EcmaScript) {
        Specifier::Builtin(_) => !text.starts_with("node:"),
        Specifier::Bare(_) | Specifier::Internal(_) | Specifier::Relative(_) => true,
        _ => false,
    }
}

/// Whether a key is the decimal number of an index, as JavaScript has them: below 2^32 - 1, with no zero in front.
fn is_array_index(key: &str) -> bool {
    if key.starts_with('+') || (key.len() > 1 && key.starts_with('0')) {
        return false;
    }
    matches!(key.parse::<u32>(), Ok(n) if n < u32::MAX)
}
