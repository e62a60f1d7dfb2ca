//! Files to bundles.

ghost use Rattle.std.specs.Prelude.{◌≡◌, ◌<◌, ◌≤◌, ◌++◌, ◌∷◌, [], map, length, string_bytes, IfOk, OnOk};
ghost use Rattle.std.specs.List.{AllZip};
ghost use Rattle.bundler_call.specs.Kept.{entry_of, settings_of};
ghost use Rattle.gutsirava_bundle.specs.Command.{link_settings, linked_told, module_type, HasTextOf, IsCommandAnswer, IsLinked};
ghost use Rattle.gutsirava_bundle.specs.Linking.{BeginsAt, HasNameOf, IsLinkAnswer};
ghost use Rattle.gutsirava_bundle.specs.Parties.{gives_nothing, fails_nowhere};

use crate::insight::{BundleBegin, BundleInsight, insight_of};
use crate::mapped::map_of;
use crate::output::{BundleBody, BundleFrame, text_of};
use crate::parties::{KeyResolver, NoMeta, UnitLoader};
use crate::trees::UnitTrees;
use bundle_tree::hook::Hook;
use bundle_tree_ast::Module;
use bundle_tree_names::config::{Config, ModuleType};
use bundle_tree_names::error::Error;
use bundle_tree_names::file_name::FileName;
use bundler_call::{Bundle, BundleCauses, Bundler, OrderedConfig};
use gutsirava_graph::{
    BundleEntry, BundleSettings, BundleUnit, BundledModule, EntryGraph, MapSetting, Messages,
    OutputFormat, ProgressListener, Root, Teller, UnitTable, file_of, modules_of, read_entries,
};
use gutsirava_resolve::{FileSystem, Resolver};
use std::alloc::{AllocError, Global};
use std::collections::BTreeSet;

/// The text of a bundle.
#[derive(Drop)]
pub struct BundleText {
    /// What its entry calls it.
    pub name: String,
    pub text: String,
    /// Its source map, where that is asked for.
    pub map: Option<String>,
    /// What it is made of, where that is asked for.
    pub insight: Option<BundleInsight>,
}

/// What comes of entries.
#[derive(Drop)]
pub struct Bundled {
    /// A text for each entry, in their order; none where an error is told.
    pub outputs: Vec<BundleText>,
    /// The paths of the files that were read.
    pub inputs: Vec<String>,
    /// The same files, with what they ask for, where that is asked for.
    pub modules: Vec<BundledModule>,
    pub messages: Messages,
}

/// What the linker gives.
struct LinkedBundles {
    bundles: Vec<Bundle>,
    /// What the items of each bundle are made for, where that is asked for.
    causes: Vec<BundleCauses>,
}

/// Lets go of it. Written by hand, so that who lets one go calls this function.
impl Drop for LinkedBundles {
    fn drop(self) {
        let LinkedBundles {
            bundles: _bundles,
            causes: _causes,
        } = self;
    }
}

/// What the linker answers.
struct LinkAnswer {
    told: Result<LinkedBundles, Error>,
}

/// Lets go of it. Written by hand, so that who lets one go does not go through all that an error may hold.
impl Drop for LinkAnswer {
    fn drop(self) {
        let LinkAnswer { told: _told } = self;
    }
}

/// Bundles entries with all that they need, and tells how far it is. Refused only for memory: all else that is wrong is
/// told.
pub fn bundle_entries<F: FileSystem + Drop, P: ProgressListener>(
    alloc: Global,
    files: F,
    resolver: Resolver<F>,
    entries: Vec<BundleEntry>,
    settings: &BundleSettings,
    progress: &mut P,
) -> Result<Bundled, AllocError>
    ensures none { IfOk result (λ it. 0 < it.messages.errors → it.outputs.items ≡ []) }
    ensures answers { IfOk result (λ it. it.messages.errors ≡ 0 →
        IsCommandAnswer settings.now entries.items it.outputs.items) }
{
    let mut trees = UnitTrees::new(alloc);
    let graph = read_entries(
        alloc, files, resolver, entries, settings, &mut trees, progress,
    )?;
    let EntryGraph {
        teller,
        table,
        roots,
    } = graph;
    let bundled = bundled_of(
        teller,
        &table,
        &mut trees,
        settings,
        roots.as_slice(),
        progress,
    )?;
    Ok(bundled)
}

// What comes of modules whose files were read.
fn bundled_of<P: ProgressListener>(
    teller: Teller<'_>,
    table: &UnitTable,
    trees: &mut UnitTrees,
    settings: &BundleSettings,
    roots: &[Root],
    progress: &mut P,
) -> Result<Bundled, AllocError>
    ensures grows { IfOk result (λ it. teller.entry.messages.errors ≤ it.messages.errors) }
    ensures none { IfOk result (λ it. 0 < it.messages.errors → it.outputs.items ≡ []) }
    ensures answer { IfOk result (λ it. it.messages.errors ≡ 0 →
        IsLinkAnswer settings.now roots.now it.outputs.items) }
{
    let mut teller = teller;
    let outputs = outputs_of(&mut teller, table, trees, settings, roots, progress)?;
    let bundled = finish(teller, settings, table.units.as_slice(), outputs)?;
    Ok(bundled)
}

// The texts of bundles, where all was read.
fn outputs_of<P: ProgressListener>(
    teller: &mut Teller<'_>,
    table: &UnitTable,
    trees: &mut UnitTrees,
    settings: &BundleSettings,
    roots: &[Root],
    progress: &mut P,
) -> Result<Vec<BundleText>, AllocError>
    ensures grows { teller.old.messages.errors ≤ teller.new.messages.errors }
    ensures answer { IfOk result (λ outputs. teller.new.messages.errors ≡ 0 →
        IsLinkAnswer settings.now roots.now outputs.items) }
{
    if teller.messages.errors > 0 {
        return Ok(Vec::new(teller.alloc));
    }
    progress.begins_to_link();
    link(teller, table, trees, settings, roots)
}

// What is told of all that was done; where that is an error, no text.
fn finish(
    teller: Teller<'_>,
    settings: &BundleSettings,
    units: &[BundleUnit],
    outputs: Vec<BundleText>,
) -> Result<Bundled, AllocError>
    ensures told { IfOk result (λ it. it.messages ≡ teller.entry.messages) }
    ensures none { IfOk result (λ it. 0 < it.messages.errors → it.outputs.items ≡ []) }
    ensures same { IfOk result (λ it. it.messages.errors ≡ 0 → it.outputs ≡ outputs) }
{
    let alloc = teller.alloc;
    let inputs = paths_of(alloc, units)?;
    let modules = if settings.has_insight {
        modules_of(alloc, units)?
    } else {
        Vec::new(alloc)
    };
    let messages = teller.into_messages();
    let outputs = unless_faults(alloc, messages.errors, outputs);
    Ok(Bundled {
        outputs,
        inputs,
        modules,
        messages,
    })
}

// The paths of the files among modules.
fn paths_of(alloc: Global, units: &[BundleUnit]) -> Result<Vec<String>, AllocError> {
    let mut paths = Vec::new(alloc);
    for unit in units {
        if let Some(path) = unit.path() {
            paths.push(String::from_str(alloc, path)?)?;
        }
    }
    Ok(paths)
}

// The texts, where there are no errors.
fn unless_faults(alloc: Global, errors: usize, outputs: Vec<BundleText>) -> Vec<BundleText>
    ensures none { 0 < errors → result.items ≡ [] }
    ensures same { errors ≡ 0 → result ≡ outputs }
{
    if errors > 0 { Vec::new(alloc) } else { outputs }
}

// Links the modules that were read.
fn link(
    teller: &mut Teller<'_>,
    table: &UnitTable,
    trees: &mut UnitTrees,
    settings: &BundleSettings,
    roots: &[Root],
) -> Result<Vec<BundleText>, AllocError>
    ensures grows { teller.old.messages.errors ≤ teller.new.messages.errors }
    ensures answer { IfOk result (λ outputs. teller.new.messages.errors ≡ 0 →
        IsLinkAnswer settings.now roots.now outputs.items) }
{
    let alloc = teller.alloc;
    let entries = link_entries(alloc, roots)?;
    let linked = bundles(alloc, &table.externals, trees, settings, entries)?;
    match &linked.told {
        Ok(made) => texts_of(alloc, settings, roots, table.units.as_slice(), made),
        Err(error) => {
            teller.tell_refusal(table.units.as_slice(), error)?;
            Ok(Vec::new(alloc))
        }
    }
}

// The entries of bundles that begin with these modules, called by their numbers. Names of bundles do not show in them.
fn link_entries(alloc: Global, roots: &[Root]) -> Result<Vec<(String, FileName)>, AllocError>
    ensures { IfOk result (λ entries. AllZip BeginsAt roots.now entries.items) }
{
    let mut entries = Vec::new(alloc);
    for root in roots {
        let unit = root.unit;
        let name = format!(in alloc; "{unit}")?;
        entries.push((name, file_of(alloc, unit)?))?;
    }
    Ok(entries)
}

// The texts of bundles, each called as its entry.
fn texts_of(
    alloc: Global,
    settings: &BundleSettings,
    roots: &[Root],
    units: &[BundleUnit],
    linked: &LinkedBundles,
) -> Result<Vec<BundleText>, AllocError>
    ensures { IfOk result (λ outputs. length linked.now.bundles.items ≡ length roots.now →
        AllZip (HasTextOf settings.now) linked.now.bundles.items outputs.items
        × AllZip HasNameOf roots.now outputs.items) }
{
    let mut outputs = Vec::new(alloc);
    for (bundle, root) in linked.bundles.iter().zip(roots) {
        let own = linked.causes.get(outputs.len());
        let output = output_of(alloc, settings, bundle, root, units, own)?;
        push_text(&mut outputs, output)?;
    }
    Ok(outputs)
}

// Puts down one more text.
fn push_text(outputs: &mut Vec<BundleText>, output: BundleText) -> Result<(), AllocError>
    ensures { OnOk result (outputs.new.items ≡ outputs.old.items ++ output ∷ []) }
{
    outputs.push(output)?;
    Ok(())
}

// The text of a bundle.
#[tactic(auto, using(std::proofs::lemmas::Grind::common_steps, crate::proofs::Answering::text_of_bundle))]
fn output_of(
    alloc: Global,
    settings: &BundleSettings,
    bundle: &Bundle,
    root: &Root,
    units: &[BundleUnit],
    causes: Option<&BundleCauses>,
) -> Result<BundleText, AllocError>
    ensures text { IfOk result (HasTextOf settings.now bundle.now) }
    ensures name { IfOk result (HasNameOf root.now) }
{
    let frame = BundleFrame {
        hashbang: root.hashbang.as_ref().map(|line| line.as_str()),
        is_common_js: root.unit != root.file,
    };
    let body = text_of(alloc, &bundle.module, settings, frame)?;
    let map = map_in(alloc, settings, units, causes, &body)?;
    let insight = insight_in(alloc, settings, units, root, causes, &body)?;
    let name = root.name.clone()?;
    let BundleBody { text, .. } = body;
    Ok(BundleText {
        name,
        text,
        map,
        insight,
    })
}

// The source map of a bundle, where it is asked for.
fn map_in(
    alloc: Global,
    settings: &BundleSettings,
    units: &[BundleUnit],
    causes: Option<&BundleCauses>,
    body: &BundleBody<'_>,
) -> Result<Option<String>, AllocError> {
    match causes {
        Some(causes) if settings.source_map != MapSetting::Off => {
            Ok(Some(map_of(alloc, units, settings, causes, body)?))
        }
        _ => Ok(None),
    }
}

// What a bundle is made of, where that is asked for.
fn insight_in(
    alloc: Global,
    settings: &BundleSettings,
    units: &[BundleUnit],
    root: &Root,
    causes: Option<&BundleCauses>,
    body: &BundleBody<'_>,
) -> Result<Option<BundleInsight>, AllocError> {
    let begin = BundleBegin {
        unit: root.unit,
        file: root.file,
    };
    match causes {
        Some(causes) if settings.has_insight => {
            let insight = insight_of(alloc, units, settings, begin, causes, body)?;
            Ok(Some(insight))
        }
        _ => Ok(None),
    }
}

// What the linker makes of the modules, whose trees are taken.
fn bundles(
    alloc: Global,
    externals: &BTreeSet<String>,
    trees: &mut UnitTrees,
    settings: &BundleSettings,
    entries: Vec<(String, FileName)>,
) -> Result<LinkAnswer, AllocError>
    ensures { IfOk result (λ answer. IsLinked gives_nothing fails_nowhere
        (link_settings settings.now (map string_bytes externals.now.keys))
        trees.old.list.items (map entry_of entries.items) (linked_told answer.told)) }
{
    let hook = Box::new(alloc, NoMeta)?;
    let config = config_of(alloc, settings, externals)?;
    let order = settings.in_standard_order;
    let has_causes = settings.source_map != MapSetting::Off || settings.has_insight;
    let told = linked(
        alloc,
        trees.take(),
        config,
        order,
        hook,
        entries,
        has_causes,
    );
    Ok(LinkAnswer { told })
}

// What the linker makes of trees, with what the items of the bundles are made for or without.
fn linked(
    alloc: Global,
    trees: Vec<Option<Module>>,
    config: Config,
    in_standard_order: bool,
    hook: Box<dyn Hook>,
    entries: Vec<(String, FileName)>,
    has_causes: bool,
) -> Result<LinkedBundles, Error>
    ensures { IsLinked (may_give hook) (may_fail_hook hook)
        (settings_of (record { base = config; in_standard_order = in_standard_order }))
        trees.items (map entry_of entries.items) (linked_told result) }
{
    let loader = UnitLoader { trees };
    let config = OrderedConfig {
        base: config,
        in_standard_order,
    };
    let bundler = Bundler::with_order(alloc, loader, KeyResolver, config, hook);
    let (bundles, causes) = if has_causes {
        bundler.into_bundles_with_causes(alloc, entries)?
    } else {
        (bundler.into_bundles(alloc, entries)?, Vec::new(alloc))
    };
    Ok(LinkedBundles { bundles, causes })
}

// The linker's settings.
fn config_of(
    alloc: Global,
    settings: &BundleSettings,
    externals: &BTreeSet<String>,
) -> Result<Config, AllocError>
    ensures { IfOk result (λ config.
        settings_of (record { base = config; in_standard_order = settings.now.in_standard_order })
        ≡ link_settings settings.now (map string_bytes externals.now.keys)) }
{
    let mut config = Config::new(alloc);
    config.require = true;
    config.module = module_type_of(settings.format);
    config.external_modules = copies_of(alloc, externals)?;
    Ok(config)
}

// What the linker writes a bundle as.
fn module_type_of(format: OutputFormat) -> ModuleType
    ensures { result ≡ module_type format }
{
    match format {
        OutputFormat::Module => ModuleType::Es,
        OutputFormat::Iife => ModuleType::Iife,
    }
}

// Texts, copied.
fn copies_of(alloc: Global, texts: &BTreeSet<String>) -> Result<Vec<String>, AllocError>
    ensures { IfOk result (λ copies.
        map string_bytes copies.items ≡ map string_bytes texts.now.keys) }
{
    let mut copies = Vec::with_capacity(alloc, texts.len())?;
    for text in texts {
        copies.push(text.clone()?)?;
    }
    Ok(copies)
}
