//! What is meant: the least set of targets that own statements, the entry's exports and namespace objects
//! that are meant themselves mean.

ghost use Rattle.std.specs.Prelude.{◌≡◌, ◌⊎◌, ◌<◌, ℕ, [], Contains, IfOk, OnOk, length, map, option_map, slice_get};
ghost use Rattle.bundle_rules.specs.Entries.{ImportEntry, import_of};
ghost use Rattle.bundle_rules.specs.Nodes.{Text};
ghost use Rattle.bundle_rules.specs.Linking.{Namespace, imports as imports_in};
ghost use Rattle.bundle_rules.specs.Program.{Program, tree_of};
ghost use Rattle.bundle_rules.specs.Tables.{TellsMeant};
ghost use Rattle.bundle_link_tables.specs.Exported.{Finds};
ghost use Rattle.bundle_link_tables.specs.TablesOf.{import_entry_of};
ghost use Rattle.bundle_link_index.specs.Given.{AddsMissing, IsIn};
ghost use Rattle.bundle_link_index.specs.Outside.{IsIndexOf};
ghost use Rattle.bundle_link_index.specs.Programs.{AreModulesKnown, IsTableOf};
ghost use Rattle.bundle_link_index.specs.Says.{target_of};
ghost use Rattle.bundle_link_tables.specs.Used.{name_read, use_entry_of, uses_of};
ghost use Rattle.bundle_link_targets.specs.Meant.{AnyMeans, AreModules, LinksTo, ReadsOn};
ghost use Rattle.bundle_link_targets.specs.Found.{Closes, HoldsMeant, HoldsTaken, IsImported, IsMeaning, IsNameOf, IsReadTarget, MeansSome, UsedIn, reads_by, target_in, targets_in};
ghost use Rattle.bundle_link_targets.specs.Lists.{list_in};
ghost use Rattle.bundle_link_targets.specs.Handed.{AreLinkedIn, AreMeaningsOf, HoldsOfLists, HoldsLinked, HoldsMeanings};

use crate::lists::{no_lists, put_at};
use crate::names::linked_names;
use crate::target::{Meaning, TargetRef};
use bundle_link_index::{Asked, Index, Kinds, OwnTarget, locals_of, taking};
use bundle_link_tables::{ImportRef, MemberRead, Tables, Use};
use bundle_scope_denote::texts::{TextMap, TextSet};
use std::alloc::{AllocError, Global};

/// What is meant, what uses of imported names mean, and which names modules link.
#[derive(Drop)]
pub struct Meant<'a> {
    pub targets: TextSet<TargetRef<'a>>,
    /// For each module and each of its uses; none of modules that are not listed.
    pub meanings: Vec<Vec<Option<Meaning<'a>>>>,
    /// For each module; none but for the entry and modules whose namespace object is meant.
    pub linked: Vec<Vec<(&'a str, TargetRef<'a>)>>,
}

/// Finds what is meant.
pub fn meant_in<'a>(
    alloc: Global,
    kinds: &Kinds<'_, '_, 'a>,
    index: &mut Index<'a>,
) -> Result<Meant<'a>, AllocError>
    ensures right { IfOk result (λ meant.
        (p : Program) →
        IsIndexOf p index.old →
        AreModulesKnown p kinds.now →
        AreModules p →
        HoldsMeant p (targets_in meant.targets)) }
    ensures meanings { IfOk result (λ meant.
        (p : Program) →
        IsIndexOf p index.old →
        AreModulesKnown p kinds.now →
        HoldsMeanings p meant.meanings.items) }
    ensures linked { IfOk result (λ meant.
        (p : Program) →
        IsIndexOf p index.old →
        AreModulesKnown p kinds.now →
        AreModules p →
        HoldsLinked p meant.linked.items) }
    ensures same { OnOk result (index.new ≡ index.old) }
{
    let mut meant = nothing_meant(alloc, kinds.modules.len())?;
    meant.find(alloc, kinds, index)?;
    Ok(meant)
}

// Nothing, of so many modules.
fn nothing_meant<'a>(alloc: Global, count: usize) -> Result<Meant<'a>, AllocError>
    ensures targets { IfOk result (λ meant. targets_in meant.targets ≡ []) }
    ensures meanings { IfOk result (λ meant. length meant.meanings.items ≡ count) }
    ensures linked { IfOk result (λ meant. length meant.linked.items ≡ count) }
{
    Ok(Meant {
        targets: TextSet::new(alloc),
        meanings: no_lists(alloc, count)?,
        linked: no_lists(alloc, count)?,
    })
}

impl<'a> Meant<'a> {
    /// Whether the object of a module's namespace is meant.
    pub fn has_object(&self, which: usize) -> bool
        ensures { (p : Program) →
            HoldsMeant p (targets_in self.now.targets) → TellsMeant p which result }
    {
        self.targets.contains(&TargetRef::Namespace { which })
    }

    // Finds what is meant, where nothing is noted.
    fn find(
        &mut self,
        alloc: Global,
        kinds: &Kinds<'_, '_, 'a>,
        index: &mut Index<'a>,
    ) -> Result<(), AllocError>
        ensures right { (p : Program) →
            IsIndexOf p index.old →
            AreModulesKnown p kinds.now →
            targets_in self.old.targets ≡ [] →
            OnOk result (HoldsTaken p (targets_in self.new.targets)) }
        ensures meanings { (p : Program) → IsIndexOf p index.old → AreModulesKnown p kinds.now →
            length self.old.meanings.items ≡ length kinds.now.modules.now →
            OnOk result (HoldsMeanings p self.new.meanings.items) }
        ensures linked { (p : Program) →
            IsIndexOf p index.old →
            AreModulesKnown p kinds.now →
            length self.old.linked.items ≡ length kinds.now.modules.now →
            OnOk result
            ((d : ℕ) →
            (d ≡ p.entry) ⊎ IsIn (targets_in self.new.targets) (Namespace d) →
            AreLinkedIn p d (list_in self.new.linked.items d)) }
        ensures same { OnOk result (index.new ≡ index.old) }
    {
        self.add_all_uses(alloc, kinds, index)?;
        self.link(alloc, kinds, index, kinds.entry)?;
        self.link_met(alloc, kinds, index)?;
        Ok(())
    }

    // Adds what the uses in all listed modules mean.
    fn add_all_uses(
        &mut self,
        alloc: Global,
        kinds: &Kinds<'_, '_, 'a>,
        index: &mut Index<'a>,
    ) -> Result<(), AllocError>
        ensures right { (p : Program) →
            IsIndexOf p index.old →
            AreModulesKnown p kinds.now →
            OnOk result
            (AddsMissing (targets_in self.old.targets) (UsedIn p kinds.now.list.now)
            (targets_in self.new.targets)) }
        ensures meanings { (p : Program) →
            IsIndexOf p index.old →
            AreModulesKnown p kinds.now →
            length self.old.meanings.items ≡ length kinds.now.modules.now →
            OnOk result
            (HoldsOfLists (AreMeaningsOf p) (Contains kinds.now.list.now) self.old.meanings.items
            self.new.meanings.items) }
        ensures linked { OnOk result (self.new.linked ≡ self.old.linked) }
        ensures same { OnOk result (index.new ≡ index.old) }
    {
        for which in kinds.list {
            self.add_uses_in(alloc, kinds, index, *which)?;
        }
        Ok(())
    }

    // Adds what the uses in a module mean, if it is there.
    fn add_uses_in(
        &mut self,
        alloc: Global,
        kinds: &Kinds<'_, '_, 'a>,
        index: &mut Index<'a>,
        which: usize,
    ) -> Result<(), AllocError>
        ensures right { (p : Program) →
            IsIndexOf p index.old →
            AreModulesKnown p kinds.now →
            OnOk result
            (AddsMissing (targets_in self.old.targets)
            (AnyMeans p which (uses_of (tree_of p which)))
            (targets_in self.new.targets)) }
        ensures meanings { (p : Program) →
            IsIndexOf p index.old →
            AreModulesKnown p kinds.now →
            length self.old.meanings.items ≡ length kinds.now.modules.now →
            OnOk result
            (HoldsOfLists (AreMeaningsOf p) (λ n. n ≡ which) self.old.meanings.items
            self.new.meanings.items) }
        ensures linked { OnOk result (self.new.linked ≡ self.old.linked) }
        ensures same { OnOk result (index.new ≡ index.old) }
    {
        match kinds.tables(which) {
            Some(tables) => {
                self.add_uses(alloc, kinds, index, which, tables)?;
                Ok(())
            }
            None => Ok(()),
        }
    }

    // Adds what the uses of imported names in a module mean.
    fn add_uses(
        &mut self,
        alloc: Global,
        kinds: &Kinds<'_, '_, 'a>,
        index: &mut Index<'a>,
        which: usize,
        tables: &Tables<'a>,
    ) -> Result<(), AllocError>
        ensures right { (p : Program) →
            IsIndexOf p index.old →
            AreModulesKnown p kinds.now →
            IsTableOf p which tables.now →
            OnOk result
            (AddsMissing (targets_in self.old.targets)
            (AnyMeans p which
            (map (use_entry_of tables.now.reads.items) tables.now.uses.items))
            (targets_in self.new.targets)) }
        ensures meanings { (p : Program) →
            IsIndexOf p index.old →
            AreModulesKnown p kinds.now →
            IsTableOf p which tables.now →
            which < length self.old.meanings.items →
            OnOk result
            (HoldsOfLists (AreMeaningsOf p) (λ n. n ≡ which) self.old.meanings.items
            self.new.meanings.items) }
        ensures linked { OnOk result (self.new.linked ≡ self.old.linked) }
        ensures same { OnOk result (index.new ≡ index.old) }
    {
        let locals = locals_of(alloc, tables)?;
        self.add_uses_by(alloc, kinds, index, which, tables, &locals)
    }

    // The same, where these are what the imports of the module bind.
    fn add_uses_by(
        &mut self,
        alloc: Global,
        kinds: &Kinds<'_, '_, 'a>,
        index: &mut Index<'a>,
        which: usize,
        tables: &Tables<'a>,
        locals: &TextMap<&'a str, ImportRef<'a>>,
    ) -> Result<(), AllocError>
        ensures right { (p : Program) →
            IsIndexOf p index.old →
            AreModulesKnown p kinds.now →
            IsTableOf p which tables.now →
            Finds locals.now (map import_entry_of tables.now.imports.items) →
            OnOk result
            (AddsMissing (targets_in self.old.targets)
            (AnyMeans p which
            (map (use_entry_of tables.now.reads.items) tables.now.uses.items))
            (targets_in self.new.targets)) }
        ensures meanings { (p : Program) →
            IsIndexOf p index.old →
            AreModulesKnown p kinds.now →
            IsTableOf p which tables.now →
            Finds locals.now (map import_entry_of tables.now.imports.items) →
            which < length self.old.meanings.items →
            OnOk result
            (HoldsOfLists (AreMeaningsOf p) (λ n. n ≡ which) self.old.meanings.items
            self.new.meanings.items) }
        ensures linked { OnOk result (self.new.linked ≡ self.old.linked) }
        ensures same { OnOk result (index.new ≡ index.old) }
    {
        let mut meanings = Vec::new(alloc);
        for its in &tables.uses {
            let import = locals.get(&its.local).copied();
            let reads = reads_of(&tables.reads, *its);
            let meaning = used(alloc, kinds, index, which, reads, import)?;
            add_meant(&mut self.targets, meaning)?;
            meanings.push(meaning)?;
        }
        put_at(&mut self.meanings, which, meanings);
        Ok(())
    }

    // Links the names of each namespace that is met among the targets, and of those that are met then.
    fn link_met(
        &mut self,
        alloc: Global,
        kinds: &Kinds<'_, '_, 'a>,
        index: &mut Index<'a>,
    ) -> Result<(), AllocError>
        ensures right { (p : Program) → IsIndexOf p index.old → AreModulesKnown p kinds.now →
            OnOk result (Closes p (targets_in self.old.targets) (targets_in self.new.targets)) }
        ensures linked { (p : Program) →
            IsIndexOf p index.old →
            AreModulesKnown p kinds.now →
            length self.old.linked.items ≡ length kinds.now.modules.now →
            OnOk result
            (HoldsOfLists (AreLinkedIn p) (λ d. IsIn (targets_in self.new.targets) (Namespace d))
            self.old.linked.items self.new.linked.items) }
        ensures meanings { OnOk result (self.new.meanings ≡ self.old.meanings) }
        ensures same { OnOk result (index.new ≡ index.old) }
    {
        let mut done = 0;
        while done < self.targets.len() {
            let target = target_at(&self.targets, done);
            self.link_target(alloc, kinds, index, target)?;
            done += 1;
        }
        Ok(())
    }

    // Links the names of a target that is a namespace.
    fn link_target(
        &mut self,
        alloc: Global,
        kinds: &Kinds<'_, '_, 'a>,
        index: &mut Index<'a>,
        target: TargetRef<'a>,
    ) -> Result<(), AllocError>
        ensures right { (p : Program) →
            IsIndexOf p index.old →
            AreModulesKnown p kinds.now →
            OnOk result
            (AddsMissing (targets_in self.old.targets) (IsNameOf p (target_of target.entry))
            (targets_in self.new.targets)) }
        ensures linked { (p : Program) →
            IsIndexOf p index.old →
            AreModulesKnown p kinds.now →
            length self.old.linked.items ≡ length kinds.now.modules.now →
            OnOk result
            (HoldsOfLists (AreLinkedIn p) (λ d. target_of target.entry ≡ Namespace d)
            self.old.linked.items self.new.linked.items) }
        ensures meanings { OnOk result (self.new.meanings ≡ self.old.meanings) }
        ensures same { OnOk result (index.new ≡ index.old) }
    {
        match target {
            TargetRef::Namespace { which } => {
                self.link(alloc, kinds, index, which)?;
                Ok(())
            }
            TargetRef::Declared { .. } => Ok(()),
            TargetRef::External { .. } => Ok(()),
            TargetRef::CommonJs { .. } => Ok(()),
        }
    }

    // Notes which names a module links. Their targets are meant.
    fn link(
        &mut self,
        alloc: Global,
        kinds: &Kinds<'_, '_, 'a>,
        index: &mut Index<'a>,
        which: usize,
    ) -> Result<(), AllocError>
        ensures right { (p : Program) →
            IsIndexOf p index.old →
            AreModulesKnown p kinds.now →
            OnOk result
            (AddsMissing (targets_in self.old.targets) (LinksTo p which)
            (targets_in self.new.targets)) }
        ensures linked { (p : Program) →
            IsIndexOf p index.old →
            AreModulesKnown p kinds.now →
            length self.old.linked.items ≡ length kinds.now.modules.now →
            OnOk result
            (HoldsOfLists (AreLinkedIn p) (λ d. d ≡ which) self.old.linked.items
            self.new.linked.items) }
        ensures meanings { OnOk result (self.new.meanings ≡ self.old.meanings) }
        ensures same { OnOk result (index.new ≡ index.old) }
    {
        let linked = linked_names(alloc, kinds, index, which)?;
        add_targets(&mut self.targets, &linked)?;
        put_at(&mut self.linked, which, linked);
        Ok(())
    }
}

// The target at a place of those met.
fn target_at<'a>(targets: &TextSet<TargetRef<'a>>, place: usize) -> TargetRef<'a>
    requires { place < length targets.now.keys }
    ensures { slice_get targets.now.keys place ≡ Some result }
{
    targets.as_slice()[place]
}

// Adds the target that is meant, if one is.
fn add_meant<'a>(
    targets: &mut TextSet<TargetRef<'a>>,
    meaning: Option<Meaning<'a>>,
) -> Result<(), AllocError>
    ensures { OnOk result
        (AddsMissing (targets_in targets.old) (MeansSome meaning.entry) (targets_in targets.new)) }
{
    match meaning {
        Some(meaning) => add_target(targets, meaning.target),
        None => Ok(()),
    }
}

// Adds a target.
fn add_target<'a>(
    targets: &mut TextSet<TargetRef<'a>>,
    target: TargetRef<'a>,
) -> Result<(), AllocError>
    ensures { OnOk result
        (AddsMissing (targets_in targets.old) (λ other. other ≡ target_of target.entry)
        (targets_in targets.new)) }
{
    targets.insert(target)?;
    Ok(())
}

// Adds the targets of names.
fn add_targets<'a>(
    targets: &mut TextSet<TargetRef<'a>>,
    linked: &[(&'a str, TargetRef<'a>)],
) -> Result<(), AllocError>
    ensures { OnOk result
        (AddsMissing (targets_in targets.old) (Contains (map target_in linked.now))
        (targets_in targets.new)) }
{
    for pair in linked {
        add_target(targets, pair.1)?;
    }
    Ok(())
}

// The reads around a use.
fn reads_of<'t, 'a>(reads: &'t [MemberRead<'a>], its: Use<'a>) -> &'t [MemberRead<'a>]
    ensures { result.now ≡ reads_by reads.now its.entry }
{
    let rest = if its.first_read < reads.len() {
        &reads[its.first_read..]
    } else {
        &[]
    };
    if its.count < rest.len() {
        &rest[..its.count]
    } else {
        rest
    }
}

// What a use with these reads means whose name this import binds.
fn used<'a>(
    alloc: Global,
    kinds: &Kinds<'_, '_, 'a>,
    index: &mut Index<'a>,
    which: usize,
    reads: &[MemberRead<'a>],
    import: Option<ImportRef<'a>>,
) -> Result<Option<Meaning<'a>>, AllocError>
    ensures right { IfOk result (λ found.
        (p : Program) →
        IsIndexOf p index.old →
        AreModulesKnown p kinds.now →
        (x : Text) (entry : ImportEntry) →
        option_map import_entry_of import.entry ≡ Some entry →
        import_of (imports_in p which) x ≡ Some entry →
        IsMeaning p which x (map name_read reads.now) found) }
    ensures same { OnOk result (index.new ≡ index.old) }
{
    let Some(import) = import else {
        return Ok(None);
    };
    match named(alloc, kinds, index, which, import)? {
        Some(target) => {
            let meaning = read(alloc, index, reads, target)?;
            Ok(Some(meaning))
        }
        None => Ok(None),
    }
}

// What an imported name stands for.
fn named<'a>(
    alloc: Global,
    kinds: &Kinds<'_, '_, 'a>,
    index: &mut Index<'a>,
    which: usize,
    import: ImportRef<'a>,
) -> Result<Option<TargetRef<'a>>, AllocError>
    ensures right { IfOk result (λ found.
        (p : Program) →
        IsIndexOf p index.old →
        AreModulesKnown p kinds.now →
        Contains (imports_in p which) (import_entry_of import.entry) →
        IsImported p which (import_entry_of import.entry) (option_map target_of found)) }
    ensures same { OnOk result (index.new ≡ index.old) }
{
    match taking(kinds, which, import.specifier, import.taken, None) {
        OwnTarget::Gives(given) => Ok(Some(given.target)),
        OwnTarget::Leads(asked) => {
            let answer = index.answer(alloc, asked)?;
            Ok(answer.linked())
        }
        OwnTarget::Nothing => Ok(None),
    }
}

// What a use means whose name stands for a target: each read of a linked name of a namespace means what
// that name is linked to.
fn read<'a>(
    alloc: Global,
    index: &mut Index<'a>,
    reads: &[MemberRead<'a>],
    target: TargetRef<'a>,
) -> Result<Meaning<'a>, AllocError>
    ensures right { IfOk result (λ meaning.
        (p : Program) →
        IsIndexOf p index.old →
        ReadsOn p (target_of target.entry) (map name_read reads.now) meaning.steps
        (target_of meaning.target)) }
    ensures same { OnOk result (index.new ≡ index.old) }
{
    let mut meaning = Meaning { target, steps: 0 };
    for read in reads {
        let Some(next) = read_on(alloc, index, meaning.target, read.name)? else {
            return Ok(meaning);
        };
        meaning = Meaning {
            target: next,
            steps: meaning.steps + 1,
        };
    }
    Ok(meaning)
}

// What a read of a name of a target means by itself: what a name of a namespace is linked to.
fn read_on<'a>(
    alloc: Global,
    index: &mut Index<'a>,
    target: TargetRef<'a>,
    name: &'a str,
) -> Result<Option<TargetRef<'a>>, AllocError>
    ensures right { IfOk result (λ next. (p : Program) → IsIndexOf p index.old →
        IsReadTarget p (target_of target.entry) name.now (option_map target_of next)) }
    ensures same { OnOk result (index.new ≡ index.old) }
{
    match target {
        TargetRef::Namespace { which } => {
            let answer = index.answer(alloc, Asked { which, name })?;
            Ok(answer.linked())
        }
        TargetRef::Declared { .. } => Ok(None),
        TargetRef::External { .. } => Ok(None),
        TargetRef::CommonJs { .. } => Ok(None),
    }
}
