//! Where the specifiers of modules lead, and which modules are CommonJS.

ghost use Rattle.std.specs.Prelude.{◌≡◌, ◌++◌, ◌&&◌, ◌||◌, [], IfOk, OnOk, List, filter_map, not, option_map, slice_get, ℕ};
ghost use Rattle.std.specs.List.{cons_option, flat_map};
ghost use Rattle.bundle_rules.specs.Nodes.{Text};
ghost use Rattle.bundle_rules.specs.Program.{Program};
ghost use Rattle.bundle_link_tables.specs.Sources.{HasTexts};
ghost use Rattle.bundle_link_index.specs.Handed as handed;
ghost use Rattle.bundle_link_index.specs.Handed.{HoldsNumbers, modules_called, external_one, is_kind, modules_numbered, required_from};
ghost use Rattle.bundle_link_index.specs.Leads.{flagged, lead_of, lead_told, lead_to, required_of};
ghost use Rattle.bundle_link_index.specs.Programs.{AreModulesKnown, IsLinkProgram};

use crate::target::{LinkModule, Setting};
use bundle_link_tables::{RequireCall, Source, Tables};
use bundle_scope_denote::texts::TextSet;
use indexmap::IndexSet;
use std::alloc::{AllocError, Global};

/// Where a specifier of a module leads.
#[derive(Clone, Copy)]
pub enum Lead {
    External,
    /// To this ECMAScript module,
    Module(usize),
    /// or to this CommonJS module.
    CommonJs(usize),
    /// To nothing that is known.
    Nowhere,
}

/// The modules to link, with their kinds.
#[derive(Drop)]
pub struct Kinds<'m, 't, 'a> {
    pub modules: &'m [LinkModule<'t, 'a>],
    pub list: &'m [usize],
    pub entry: usize,
    pub setting: Setting,
    externals: TextSet<&'a str>,
    pub common_js: Vec<bool>,
}

impl<'m, 't, 'a> Kinds<'m, 't, 'a> {
    /// Finds the kinds of modules. A module is CommonJS where it is not the entry, is a script, and uses a
    /// name of CommonJS or is required by a listed one.
    pub fn new(
        alloc: Global,
        modules: &'m [LinkModule<'t, 'a>],
        list: &'m [usize],
        entry: usize,
        setting: Setting,
    ) -> Result<Kinds<'m, 't, 'a>, AllocError>
        ensures right { IfOk result (λ kinds. (p : Program) →
            IsLinkProgram p modules.now list.now entry setting.require → AreModulesKnown p kinds) }
        ensures held { IfOk result (λ kinds.
            (kinds.list.now ≡ list.now) × (kinds.setting.iife ≡ setting.iife)) }
    {
        let required = required_by(alloc, modules, list)?;
        let common_js = kinds_of(alloc, modules, &required, entry, setting.require)?;
        let externals = externals_of(alloc, modules)?;
        Ok(Kinds {
            modules,
            list,
            entry,
            setting,
            externals,
            common_js,
        })
    }

    /// The tables of a module.
    pub fn tables(&self, which: usize) -> Option<&'t Tables<'a>>
        ensures { result
            ≡ option_map (λ its. its.tables) (slice_get self.now.modules.now which) }
    {
        Some(self.modules.get(which)?.tables)
    }

    /// The number of the module to which a literal call of `require` leads.
    pub fn required(&self, number: usize, specifier: &str) -> Option<usize>
        ensures { result ≡ required_of self.now.modules.now number specifier.now }
    {
        match self.modules.get(number) {
            Some(module) => module.leads.get(specifier).copied(),
            None => None,
        }
    }

    /// Where a specifier of an import or export leads.
    pub fn lead(&self, number: usize, specifier: &str) -> Lead
        ensures { lead_told result ≡ lead_of self.now number specifier.now }
    {
        if self.externals.has_text(specifier) {
            return Lead::External;
        }
        match self.required(number, specifier) {
            Some(other) => self.kind_of(other),
            None => Lead::Nowhere,
        }
    }

    // That a specifier leads to a module.
    fn kind_of(&self, number: usize) -> Lead
        ensures { lead_told result ≡ lead_to self.now.common_js.items number }
    {
        if self.is_common_js(number) {
            Lead::CommonJs(number)
        } else {
            Lead::Module(number)
        }
    }

    /// Whether a module is CommonJS.
    pub fn is_common_js(&self, number: usize) -> bool
        ensures { result ≡ flagged self.now.common_js.items number }
    {
        flag(&self.common_js, number)
    }
}

// The texts that are external, as far as they stand in imports and exports.
fn externals_of<'a>(
    alloc: Global,
    modules: &[LinkModule<'_, 'a>],
) -> Result<TextSet<&'a str>, AllocError>
    ensures { IfOk result (λ texts. HasTexts texts (handed.externals_of modules.now)) }
{
    let mut texts = TextSet::new(alloc);
    for module in modules {
        add_externals(&mut texts, &module.tables.sources)?;
    }
    Ok(texts)
}

// Adds those of a module.
fn add_externals<'a>(texts: &mut TextSet<&'a str>, sources: &[Source<'a>]) -> Result<(), AllocError>
    ensures { (before : List Text) → HasTexts texts.old before →
        OnOk result (HasTexts texts.new (before ++ flat_map external_one sources.now)) }
{
    for source in sources {
        add_external(texts, *source)?;
    }
    Ok(())
}

fn add_external<'a>(texts: &mut TextSet<&'a str>, source: Source<'a>) -> Result<(), AllocError>
    ensures { (before : List Text) → HasTexts texts.old before →
        OnOk result (HasTexts texts.new (before ++ external_one source.entry)) }
{
    if source.is_external {
        texts.insert(source.specifier)?;
        return Ok(());
    }
    Ok(())
}

// The modules that listed ones require by literal calls.
fn required_by(
    alloc: Global,
    modules: &[LinkModule],
    list: &[usize],
) -> Result<IndexSet<usize>, AllocError>
    ensures { IfOk result (λ required.
        HoldsNumbers required (handed.required_by modules.now list.now)) }
{
    let mut required = IndexSet::new(alloc);
    for number in list {
        add_required(&mut required, module_at(modules, *number))?;
    }
    Ok(required)
}

// The module with a number.
fn module_at<'t, 'a>(modules: &[LinkModule<'t, 'a>], number: usize) -> Option<LinkModule<'t, 'a>>
    ensures { result ≡ slice_get modules.now number }
{
    modules.get(number).copied()
}

// Adds those that a module requires, if it is there.
fn add_required(
    required: &mut IndexSet<usize>,
    link_module: Option<LinkModule>,
) -> Result<(), AllocError>
    ensures { (before : List ℕ) → HoldsNumbers required.old before →
        OnOk result (HoldsNumbers required.new (before ++ required_from link_module.entry)) }
{
    match link_module {
        Some(link_module) => {
            let tables = link_module.tables;
            add_called(required, &link_module, &tables.calls)
        }
        None => Ok(()),
    }
}

// Adds the modules to which calls of a module lead.
fn add_called(
    required: &mut IndexSet<usize>,
    link_module: &LinkModule,
    calls: &[RequireCall],
) -> Result<(), AllocError>
    ensures { (before : List ℕ) →
        HoldsNumbers required.old before →
        OnOk result
        (HoldsNumbers required.new (before ++ filter_map (modules_called link_module.now) calls.now)) }
{
    for call in calls {
        add_number(required, called(&*link_module, *call))?;
    }
    Ok(())
}

// The number of the module to which a call of a module leads.
fn called<'a>(link_module: &LinkModule<'_, 'a>, call: RequireCall<'a>) -> Option<usize>
    ensures { result ≡ modules_called link_module.now call.entry }
{
    link_module.leads.get(call.specifier).copied()
}

fn add_number(required: &mut IndexSet<usize>, number: Option<usize>) -> Result<(), AllocError>
    ensures { (before : List ℕ) → HoldsNumbers required.old before →
        OnOk result (HoldsNumbers required.new (before ++ cons_option number [])) }
{
    match number {
        Some(number) => {
            required.insert(number)?;
            Ok(())
        }
        None => Ok(()),
    }
}

// Whether each module is CommonJS, where these are required.
fn kinds_of(
    alloc: Global,
    modules: &[LinkModule],
    required: &IndexSet<usize>,
    entry: usize,
    require: bool,
) -> Result<Vec<bool>, AllocError>
    ensures { (those : List ℕ) →
        HoldsNumbers required.now those →
        IfOk result (λ flags.
        flags.items ≡ modules_numbered (is_kind require entry those) 0 modules.now) }
{
    let mut flags = Vec::new(alloc);
    for (number, module) in modules.iter().enumerate() {
        let is_required = required.contains(&number);
        flags.push(is_common_js(module, require, number == entry, is_required))?;
    }
    Ok(flags)
}

// Whether a module is CommonJS.
fn is_common_js(link_module: &LinkModule, require: bool, is_entry: bool, is_required: bool) -> bool
    ensures { result
        ≡ (require
        && (not is_entry
        && (link_module.now.tables.now.is_script
        && (link_module.now.tables.now.names_common_js || is_required)))) }
{
    let tables = link_module.tables;
    require && !is_entry && tables.is_script && (tables.names_common_js || is_required)
}

/// Whether a number is flagged.
pub fn flag(flags: &[bool], number: usize) -> bool
    ensures { result ≡ flagged flags.now number }
{
    flags.get(number).copied().unwrap_or(false)
}
