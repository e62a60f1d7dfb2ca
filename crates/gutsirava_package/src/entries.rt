//! The entries of `exports` or `imports`.
ghost use Rattle.std.specs.Prelude.{◌≡◌, IfOk, MatchOption, OnOk, false, length, option_map, slice_get, vec_len};
ghost use Rattle.gutsirava_package.specs.Entries.{HasNoEntry, HasNoOwn, IsAligned, IsEntryOf, IsFoundIn, IsOwn, may_be_key, target_for};
ghost use Rattle.gutsirava_package.specs.Located.{IsInsideOf};

use crate::keys::put;
use crate::lookup::{Located, Lookup, TargetError, TargetFault};
use crate::patterns::EntryKeys;
use crate::target::{PackageTarget, SettledTarget, Settlement};
use gutsirava_path::Loader;
use std::alloc::{AllocError, Global};

/// Which conditions hold for `import`, and which for `require`; `default` always does.
#[derive(Clone, Copy)]
pub struct LoaderConditions<'a> {
    pub import: &'a [String],
    pub require: &'a [String],
}

/// The entries of `exports` or `imports`, where it is known which conditions hold.
#[derive(Drop)]
pub struct EntryTable {
    /// Whether `exports` has keys of both sorts, which makes it none.
    is_mixed: bool,
    entries: EntryList,
    ghost aligned: { vec_len entries.targets ≡ length entries.keys },
}

/// Entries, each key once.
#[derive(Drop)]
struct EntryList {
    keys: EntryKeys,
    /// What stands at each of the keys.
    targets: Vec<LoaderTargets>,
}

/// What an entry stands for.
#[derive(Drop)]
struct LoaderTargets {
    import: SettledTarget,
    require: SettledTarget,
}

/// The entry of a name: its place, and what the `*` of its key stands for, if it is a pattern.
#[derive(Clone, Copy)]
struct EntryMatch<'s> {
    place: usize,
    star: Option<&'s str>,
}

impl EntryTable {
    /// The entries of `exports`: those of a map of subpaths, or `.`, which the package itself stands for.
    pub(crate) fn of_exports(
        alloc: Global,
        exports: &PackageTarget,
        conditions: LoaderConditions<'_>,
    ) -> Result<EntryTable, AllocError> {
        let settlement = conditions.settlements(false);
        let mut is_mixed = false;
        let mut entries = EntryList::new(alloc);
        match exports {
            PackageTarget::Other => {}
            PackageTarget::Object(members) => match keys_of(members.as_slice()) {
                ExportKeys::Subpaths => entries.add_all(alloc, members.as_slice(), settlement)?,
                ExportKeys::Conditions => entries.add(alloc, ".", exports, settlement)?,
                ExportKeys::Mixed => is_mixed = true,
            },
            _ => entries.add(alloc, ".", exports, settlement)?,
        }
        Ok(EntryTable { is_mixed, entries })
    }

    /// The entries of `imports`.
    pub(crate) fn of_imports(
        alloc: Global,
        imports: &PackageTarget,
        conditions: LoaderConditions<'_>,
    ) -> Result<EntryTable, AllocError> {
        let mut entries = EntryList::new(alloc);
        if let PackageTarget::Object(members) = imports {
            entries.add_all(alloc, members.as_slice(), conditions.settlements(true))?;
        }
        Ok(EntryTable {
            is_mixed: false,
            entries,
        })
    }

    /// What the entry of a name gives: that of that very key, or else the one whose pattern fits best. A name that ends
    /// in `/`, or has a `*`, fits patterns alone.
    pub(crate) fn find(
        &self,
        alloc: Global,
        name: &str,
        loader: Loader,
        is_import: bool,
    ) -> Result<Option<Located>, TargetError>
        ensures inside { IfOk result (IsInsideOf is_import) }
        ensures of_one_sort { OnOk result (self.now.is_mixed ≡ false) }
        ensures found { IfOk result (IsFoundIn self.now.entries name.now loader) }
    {
        if self.is_mixed {
            return Err(TargetError::of(alloc, TargetFault::MixedKeys, "", ""));
        }
        let Some(found) = self.entries.entry_of(alloc, name)? else {
            return Ok(None);
        };
        let Some(target) = self.entries.target(found.place, loader) else {
            return Ok(None);
        };
        let Some(key) = self.entries.keys.key(found.place) else {
            return Ok(None);
        };
        let lookup = Lookup {
            alloc,
            key,
            star: found.star,
            is_import,
        };
        lookup.locate(target)
    }
}

impl EntryList {
    /// No entries. It takes no memory.
    fn new(alloc: Global) -> EntryList
        ensures { IsAligned result }
    {
        EntryList {
            keys: EntryKeys::new(alloc),
            targets: Vec::new(alloc),
        }
    }

    fn add_all(
        &mut self,
        alloc: Global,
        members: &[(String, PackageTarget)],
        settlement: LoaderSettlements<'_>,
    ) -> Result<(), AllocError>
        requires { IsAligned self.old }
        ensures { OnOk result (IsAligned self.new) }
    {
        for (key, target) in members {
            self.add(alloc, key.as_str(), target, settlement)?;
        }
        Ok(())
    }

    /// Puts an entry where its key stands, or last.
    fn add(
        &mut self,
        alloc: Global,
        key: &str,
        target: &PackageTarget,
        settlement: LoaderSettlements<'_>,
    ) -> Result<(), AllocError>
        requires { IsAligned self.old }
        ensures { OnOk result (IsAligned self.new) }
    {
        let targets = settlement.targets_of(alloc, target)?;
        let place = self.keys.add(alloc, key)?;
        put(&mut self.targets, place, targets)?;
        Ok(())
    }

    /// The entry of a name: that of that very key, or else the one whose pattern fits best.
    fn entry_of<'s>(
        &self,
        alloc: Global,
        name: &'s str,
    ) -> Result<Option<EntryMatch<'s>>, AllocError>
        ensures { IfOk result (λ entry. MatchOption entry
            (HasNoEntry self.now.keys name.now)
            (λ found. IsEntryOf self.now.keys name.now found)) }
    {
        if let Some(place) = self.own_place(name) {
            return Ok(Some(EntryMatch { place, star: None }));
        }
        let best = self.keys.best_pattern(alloc, name)?;
        Ok(match best {
            Some(best) => Some(EntryMatch {
                place: best.place,
                star: Some(best.star),
            }),
            None => None,
        })
    }

    /// The place of the entry with this very key, where one counts.
    fn own_place(&self, name: &str) -> Option<usize>
        ensures { MatchOption result
            (HasNoOwn self.now.keys name.now)
            (λ place. IsOwn self.now.keys name.now place) }
    {
        if may_be_key(name) {
            self.keys.place(name)
        } else {
            None
        }
    }

    /// What the entry at a place comes to for a loader.
    fn target(&self, place: usize, loader: Loader) -> Option<&SettledTarget>
        ensures { option_map (λ target. target.now) result
            ≡ option_map (target_for loader) (slice_get self.now.targets.items place) }
    {
        let targets = self.targets.get(place)?;
        Some(match loader {
            Loader::EcmaScript => &targets.import,
            Loader::CommonJs => &targets.require,
        })
    }
}

/// What it takes to settle a target for each loader.
#[derive(Clone, Copy)]
struct LoaderSettlements<'c> {
    import: Settlement<'c>,
    require: Settlement<'c>,
}

impl<'c> LoaderConditions<'c> {
    fn settlements(self, is_import: bool) -> LoaderSettlements<'c> {
        LoaderSettlements {
            import: Settlement {
                conditions: self.import,
                is_import,
            },
            require: Settlement {
                conditions: self.require,
                is_import,
            },
        }
    }
}

impl LoaderSettlements<'_> {
    fn targets_of(
        self,
        alloc: Global,
        target: &PackageTarget,
    ) -> Result<LoaderTargets, AllocError> {
        Ok(LoaderTargets {
            import: self.import.of(alloc, target)?,
            require: self.require.of(alloc, target)?,
        })
    }
}

/// What the keys of an object of `exports` are.
#[derive(Clone, Copy)]
enum ExportKeys {
    /// All begin with `.`.
    Subpaths,
    /// None does, and there are some.
    Conditions,
    Mixed,
}

fn keys_of(entries: &[(String, PackageTarget)]) -> ExportKeys {
    let mut has_subpath = false;
    let mut has_condition = false;
    for (key, _) in entries {
        if key.as_str().starts_with('.') {
            has_subpath = true;
        } else {
            has_condition = true;
        }
    }
    match (has_subpath, has_condition) {
        (true, true) => ExportKeys::Mixed,
        (false, true) => ExportKeys::Conditions,
        (_, false) => ExportKeys::Subpaths,
    }
}

/// Whether an entry with this very key counts: one that ends in `/`, or has a `*`, does not.
fn may_be_key(name: &str) -> bool
    ensures { result ≡ may_be_key name.now }
{
    !name.ends_with('/') && !name.as_bytes().contains(&b'*')
}
