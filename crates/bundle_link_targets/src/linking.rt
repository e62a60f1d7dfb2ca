//! The modules of one bundle, linked.

ghost use Rattle.std.specs.Prelude.{◌≡◌, ◌⊎◌, IfOk, OnOk, List, map, slice_get, unwrap_or, ℕ};
ghost use Rattle.bundle_rules.specs.Bundle.{AreLinked, externals};
ghost use Rattle.bundle_rules.specs.Linking.{HasExternalStar, IsMissing, Namespace};
ghost use Rattle.bundle_rules.specs.Meaning.{IsMeant, Of};
ghost use Rattle.bundle_rules.specs.Program.{IsReached, Program};
ghost use Rattle.bundle_rules.specs.Symbols.{symbol_of_label};
ghost use Rattle.bundle_link_tables.specs.TablesOf.{taken_of};
ghost use Rattle.bundle_link_index.specs.Says.{target_of};
ghost use Rattle.bundle_rules.specs.Tables.{IsResolution, TellsCommonJs, TellsMeant};
ghost use Rattle.bundle_link_index.specs.Outside.{IsIndexOf};
ghost use Rattle.bundle_link_index.specs.Programs.{AreModulesKnown, IsLinkProgram};
ghost use Rattle.bundle_link_targets.specs.Found.{HoldsMeant, targets_in};
ghost use Rattle.bundle_link_targets.specs.Handed.{AreExternalsOf, AreLoadsIn, HoldsLinked, HoldsMeanings, IsMeaningAt};
ghost use Rattle.bundle_link_targets.specs.Judged.{IsStageJudged};
ghost use Rattle.bundle_link_targets.specs.Linked.{HandsOut, HandsOver, IsJudgedBy, IsLinkingOf, found_says};
ghost use Rattle.bundle_link_targets.specs.Meant.{AreModules};
ghost use Rattle.bundle_link_targets.specs.Names.{target_pair};
ghost use Rattle.bundle_link_targets.specs.Stages.{AreKindsOf};
ghost use Rattle.bundle_link_targets.specs.Symbols as Symbols;
ghost use Rattle.bundle_link_targets.specs.Symbols.{IsTakable, noted_text};
ghost use Rattle.bundle_link_targets.specs.Taken.{PicksThose};

use crate::faults::{call_fault_of, link_fault_of};
use crate::lists::list_at;
use crate::meant::{Meant, meant_in};
use crate::symbols::{name_else, symbols_of};
use crate::taken::{external_stars_of, externals_of, loads_of};
use crate::target::{
    External, LinkFault, LinkModule, Loaded, Meaning, ResolvedTo, Setting, TargetRef,
};
use bundle_link_index::index::DEFAULT;
use bundle_link_index::kinds::flag;
use bundle_link_index::{Answer, Index, Kinds};
use bundle_link_tables::Taken;
use bundle_scope_denote::texts::TextMap;
use std::alloc::{AllocError, Global};

/// What each name of the modules of a bundle stands for, which of the modules are CommonJS, what of them is
/// meant, and what is wrong with them.
pub struct Linking<'a> {
    alloc: Global,
    index: Index<'a>,
    common_js: Vec<bool>,
    meant: Meant<'a>,
    outside: Outside<'a>,
    call_fault: Option<LinkFault<'a>>,
    link_fault: Option<LinkFault<'a>>,
}

// By hand, so that who lets go of one only calls this.
impl<'a> Drop for Linking<'a> {
    fn drop(self) {
        let Linking {
            alloc: _alloc,
            index: _index,
            common_js: _common_js,
            meant: _meant,
            outside: _outside,
            call_fault: _call_fault,
            link_fault: _link_fault,
        } = self;
    }
}

// The linking of modules of these kinds, whose names are indexed.
fn joined<'a>(alloc: Global, kinds: Kinds<'_, '_, 'a>, indexed: Indexed<'a>) -> Linking<'a>
    ensures index { result.index ≡ indexed.entry.index }
    ensures common_js { result.common_js.items ≡ kinds.entry.common_js.items }
    ensures meant { result.meant ≡ indexed.entry.found.meant }
    ensures outside { result.outside ≡ indexed.entry.found.outside }
    ensures links { result.link_fault ≡ indexed.entry.found.link_fault }
    ensures calls { (p : Program) →
        AreKindsOf p kinds.entry → IsStageJudged p kinds.entry.list.now 0 2 result.call_fault }
{
    let call_fault = call_fault_of(&kinds);
    let Kinds { common_js, .. } = kinds;
    let Indexed { index, found } = indexed;
    Linking {
        alloc,
        index,
        common_js,
        meant: found.meant,
        outside: found.outside,
        call_fault,
        link_fault: found.link_fault,
    }
}

// The index of modules, with what is found by it.
#[derive(Drop)]
struct Indexed<'a> {
    index: Index<'a>,
    found: LinkFound<'a>,
}

impl<'a> Indexed<'a> {
    // The index of modules of these kinds.
    fn new(alloc: Global, kinds: &Kinds<'_, '_, 'a>) -> Result<Indexed<'a>, AllocError>
        ensures index { IfOk result (λ indexed.
            (p : Program) → AreModulesKnown p kinds.now → IsIndexOf p indexed.index) }
        ensures meant { IfOk result (λ indexed.
            (p : Program) →
            AreModulesKnown p kinds.now →
            AreModules p →
            HoldsMeant p (targets_in indexed.found.meant.targets)) }
        ensures meanings { IfOk result (λ indexed. (p : Program) → AreModulesKnown p kinds.now →
            HoldsMeanings p indexed.found.meant.meanings.items) }
        ensures linked { IfOk result (λ indexed.
            (p : Program) →
            AreModulesKnown p kinds.now →
            AreModules p →
            HoldsLinked p indexed.found.meant.linked.items) }
        ensures outside { IfOk result (λ indexed. (p : Program) → AreModulesKnown p kinds.now →
            HandsOut p kinds.now.list.now indexed.found.outside) }
        ensures judged { IfOk result (λ indexed.
            (p : Program) →
            AreKindsOf p kinds.now →
            AreModules p →
            IsStageJudged p kinds.now.list.now 3 9 indexed.found.link_fault) }
    {
        let mut index = Index::new(alloc, kinds)?;
        let found = LinkFound::new(alloc, kinds, &mut index)?;
        Ok(Indexed { index, found })
    }
}

// What is meant, the first fault of the linking, and what is taken from outside.
#[derive(Drop)]
struct LinkFound<'a> {
    meant: Meant<'a>,
    link_fault: Option<LinkFault<'a>>,
    outside: Outside<'a>,
}

impl<'a> LinkFound<'a> {
    // What is found by an index.
    fn new(
        alloc: Global,
        kinds: &Kinds<'_, '_, 'a>,
        index: &mut Index<'a>,
    ) -> Result<LinkFound<'a>, AllocError>
        ensures meant { IfOk result (λ found.
            (p : Program) →
            IsIndexOf p index.old →
            AreModulesKnown p kinds.now →
            AreModules p →
            HoldsMeant p (targets_in found.meant.targets)) }
        ensures meanings { IfOk result (λ found.
            (p : Program) →
            IsIndexOf p index.old →
            AreModulesKnown p kinds.now →
            HoldsMeanings p found.meant.meanings.items) }
        ensures linked { IfOk result (λ found.
            (p : Program) →
            IsIndexOf p index.old →
            AreModulesKnown p kinds.now →
            AreModules p →
            HoldsLinked p found.meant.linked.items) }
        ensures outside { IfOk result (λ found.
            (p : Program) →
            IsIndexOf p index.old →
            AreModulesKnown p kinds.now →
            HandsOut p kinds.now.list.now found.outside) }
        ensures judged { IfOk result (λ found.
            (p : Program) →
            IsIndexOf p index.old →
            AreKindsOf p kinds.now →
            AreModules p →
            IsStageJudged p kinds.now.list.now 3 9 found.link_fault) }
        ensures same { OnOk result (index.new ≡ index.old) }
    {
        let meant = meant_in(alloc, kinds, index)?;
        let link_fault = link_fault_of(alloc, kinds, index, &meant.targets)?;
        let outside = Outside::new(alloc, kinds, &*index, &meant)?;
        Ok(LinkFound {
            meant,
            link_fault,
            outside,
        })
    }
}

/// What is taken of externals and CommonJS modules.
#[derive(Drop)]
struct Outside<'a> {
    externals: Vec<External<'a>>,
    external_stars: Vec<&'a str>,
    loads: Vec<Vec<Loaded<'a>>>,
    symbols: TextMap<TargetRef<'a>, &'a str>,
}

impl<'a> Outside<'a> {
    fn new(
        alloc: Global,
        kinds: &Kinds<'_, '_, 'a>,
        index: &Index<'a>,
        meant: &Meant<'a>,
    ) -> Result<Outside<'a>, AllocError>
        ensures { IfOk result (λ outside.
            (p : Program) →
            IsIndexOf p index.now →
            AreModulesKnown p kinds.now →
            (AreModules p → HoldsMeant p (targets_in meant.now.targets)) →
            HandsOut p kinds.now.list.now outside) }
    {
        let externals = externals_of(alloc, kinds, &meant.targets)?;
        let external_stars = external_stars_of(alloc, kinds, index, externals.as_slice())?;
        Ok(Outside {
            externals,
            external_stars,
            loads: loads_of(alloc, kinds, &meant.targets)?,
            symbols: symbols_of(alloc, kinds)?,
        })
    }
}

// What is found at a place of what is found of uses.
fn meaning_at<'a>(found: &[Option<Meaning<'a>>], number: usize) -> Option<Meaning<'a>>
    ensures { result ≡ unwrap_or (slice_get found.now number) None }
{
    found.get(number).copied().unwrap_or(None)
}

impl<'a> Linking<'a> {
    /// Links modules. `list` has the numbers of the modules that the entry reaches, in post-order of their
    /// requests, the entry last. The caller sees to it that all numbers, in `leads` too, are indexes of
    /// `modules`, and that no module has a fault of its own.
    pub fn new(
        alloc: Global,
        modules: &[LinkModule<'_, 'a>],
        list: &[usize],
        entry: usize,
        setting: Setting,
    ) -> Result<Linking<'a>, AllocError>
        ensures linked { IfOk result (λ linking. (p : Program) →
            IsLinkProgram p modules.now list.now entry setting.require → IsLinkingOf p linking) }
        ensures judged { IfOk result (λ linking. (p : Program) →
            IsLinkProgram p modules.now list.now entry setting.require →
            p.settings.iife ≡ setting.iife → IsJudgedBy p list.now linking) }
        ensures handed { IfOk result (λ linking.
            (p : Program) →
            IsLinkProgram p modules.now list.now entry setting.require →
            HandsOver p list.now linking) }
    {
        let kinds = Kinds::new(alloc, modules, list, entry, setting)?;
        let indexed = Indexed::new(alloc, &kinds)?;
        Ok(joined(alloc, kinds, indexed))
    }

    /// What a module gives for a name.
    pub fn resolve(&self, number: usize, name: &str) -> Result<ResolvedTo<'a>, AllocError>
        ensures { IfOk result (λ found. (p : Program) → IsLinkingOf p self.now →
            IsResolution p number name.now (found_says found)) }
    {
        let answer = self.index.found(self.alloc, number, name)?;
        match answer {
            Answer::One(given) => Ok(ResolvedTo::One(given.target)),
            Answer::Two(first, second) => Ok(ResolvedTo::Two(first.target, second.target)),
            Answer::None => self.missing(number, name),
        }
    }

    // What a module gives for a name where nothing is given: an external that is starred may hold it, or not.
    fn missing(&self, number: usize, name: &str) -> Result<ResolvedTo<'a>, AllocError>
        ensures { IfOk result (λ found. (p : Program) → IsLinkingOf p self.now →
            IsMissing p number name.now → IsResolution p number name.now (found_says found)) }
    {
        if name == DEFAULT {
            return Ok(ResolvedTo::None);
        }
        let is_starred = self.index.finds_external_star(self.alloc, number)?;
        if is_starred {
            Ok(ResolvedTo::ExternalStar)
        } else {
            Ok(ResolvedTo::None)
        }
    }

    /// Whether a module is CommonJS in this bundle.
    pub fn is_common_js(&self, number: usize) -> bool
        ensures { (p : Program) → IsLinkingOf p self.now → TellsCommonJs p number result }
    {
        flag(&self.common_js, number)
    }

    /// Whether the object of a module's namespace is meant.
    pub fn is_object_meant(&self, which: usize) -> bool
        ensures { (p : Program) → IsLinkingOf p self.now → AreModules p →
            TellsMeant p which result }
    {
        self.meant.has_object(which)
    }

    /// What a use of an imported name means, by its number among the uses of its module. None where the
    /// module is not listed, or the name is not linked.
    pub fn meaning(&self, which: usize, number: usize) -> Option<Meaning<'a>>
        ensures { (p : Program) → IsLinkingOf p self.now → IsReached p which →
            IsMeaningAt p which number result }
    {
        meaning_at(list_at(&self.meant.meanings, which), number)
    }

    /// The names that a module links, ascending, with their targets: of the entry, and of each module
    /// whose namespace object is meant. Empty for any other.
    pub fn linked_names(&self, which: usize) -> &[(&'a str, TargetRef<'a>)]
        ensures { (p : Program) → IsLinkingOf p self.now → AreModules p →
            (which ≡ p.entry) ⊎ IsMeant p (Of (Namespace which)) →
            AreLinked p which (map target_pair result.now) }
    {
        list_at(&self.meant.linked, which)
    }

    /// The externals that ECMAScript modules of the list ask for, in the order of first occurrence.
    pub fn externals(&self) -> &[External<'a>]
        ensures { (p : Program) (list : List ℕ) → HandsOver p list self.now →
            AreExternalsOf p list result.now }
    {
        self.outside.externals.as_slice()
    }

    /// The CommonJS modules that an ECMAScript module of the list imports or re-exports, in the order of
    /// its requests. Empty for any other module.
    pub fn loads(&self, which: usize) -> &[Loaded<'a>]
        ensures { (p : Program) (list : List ℕ) →
            HandsOver p list self.now →
            IsReached p which →
            AreLoadsIn p which result.now }
    {
        list_at(&self.outside.loads, which)
    }

    /// The externals that the entry stars, or that stand at the end of a chain of stars from it, in the
    /// order of `externals`.
    pub fn external_stars(&self) -> &[&'a str]
        ensures { (p : Program) (list : List ℕ) →
            HandsOver p list self.now →
            PicksThose (HasExternalStar p p.entry) (externals p list)
            (map (λ star. star.now) result.now) }
    {
        self.outside.external_stars.as_slice()
    }

    /// What a target is called before names are made apart: `mod` for a namespace; the local name of the
    /// first import that takes it, else its own name, else `name`.
    pub fn symbol_of(&self, target: TargetRef<'a>) -> &'a str
        ensures { (p : Program) (list : List ℕ) → HandsOver p list self.now →
            IsTakable p (target_of target.entry) →
            result.now ≡ symbol_of_label p list (Of (target_of target.entry)) }
    {
        match target {
            TargetRef::Declared { name, .. } => name,
            TargetRef::Namespace { .. } => "mod",
            TargetRef::External { taken, .. } => self.noted_or(target, taken),
            TargetRef::CommonJs { taken, .. } => self.noted_or(target, taken),
        }
    }

    // What is noted of a target, or what it is called where nothing is.
    fn noted_or(&self, target: TargetRef<'a>, taken: Taken<'a>) -> &'a str
        ensures { result.now
            ≡ unwrap_or (noted_text self.now.outside.symbols target.entry)
            (Symbols.name_else (taken_of taken.entry)) }
    {
        match self.outside.symbols.get(&target) {
            Some(symbol) => *symbol,
            None => name_else(taken),
        }
    }

    /// The first fault of the literal calls of `require`, which is judged before the declarations of
    /// modules are.
    pub fn call_fault(&self) -> Option<LinkFault<'a>>
        ensures { (p : Program) (list : List ℕ) → IsJudgedBy p list self.now →
            IsStageJudged p list 0 2 result }
    {
        self.call_fault
    }

    /// The first fault of the linking, which is judged after them.
    pub fn link_fault(&self) -> Option<LinkFault<'a>>
        ensures { (p : Program) (list : List ℕ) →
            IsJudgedBy p list self.now → AreModules p → IsStageJudged p list 3 9 result }
    {
        self.link_fault
    }
}
