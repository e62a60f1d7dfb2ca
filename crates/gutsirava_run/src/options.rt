//! The options of the command, as the crates below it take them.
ghost use Rattle.std.specs.Prelude.{◌≡◌, ◌++◌, map, option_map, string_bytes, IfOk, OnOk};
ghost use Rattle.gutsirava_run.specs.Making.{IsAskedFor, IsResolvedFor, charset_of, field_of, format_of, global_of, is_standard, map_setting, output_folder, pair_of, path_from, script_globals, script_name, stay_inline, target_of, text_of};

use crate::views::has_views;
use gutsirava_bundle::{BundleSettings, Charset, MapSetting, OutputFormat};
use gutsirava_path::{folder_of, join};
use gutsirava_resolve::{Externals, MainField, Settings as Resolution, TargetPlatform};
use gutsirava_words::{
    CharsetSetting, Destination, ExternalGlobal, FormatSetting, LegalComments, Options, Order,
    Platform, SourceMap, SourcesContent,
};
use std::alloc::{AllocError, Global};

/// What a bundle is to be, where the command runs in this folder.
pub(crate) fn settings_of(
    alloc: Global,
    options: &Options,
    folder: &str,
) -> Result<BundleSettings, AllocError>
    ensures { IfOk result (IsAskedFor folder.now options.now) }
{
    let script = Script::of(alloc, &options.format)?;
    let folders = Folders::of(alloc, options, folder)?;
    let meta_url = copy_of(&options.meta_url)?;
    Ok(BundleSettings {
        format: format_of(&options.format),
        in_standard_order: is_standard(options.order),
        platform: target_of(options.platform),
        global_name: script.name,
        globals: script.globals,
        meta_url,
        charset: charset_of(options.charset),
        keeps_comments: stay_inline(options.legal_comments),
        source_map: map_setting(options.source_map, options.sources_content),
        has_insight: has_views(options),
        root: folders.root,
        folder: folders.here,
        output_folder: folders.output,
    })
}

/// What bundles are written as.
pub(crate) fn format_of(format: &FormatSetting) -> OutputFormat
    ensures { result ≡ format_of format.now }
{
    match format {
        FormatSetting::Esm => OutputFormat::Module,
        FormatSetting::Iife(_) => OutputFormat::Iife,
    }
}

fn charset_of(charset: CharsetSetting) -> Charset
    ensures { result ≡ charset_of charset }
{
    match charset {
        CharsetSetting::Ascii => Charset::Ascii,
        CharsetSetting::Utf8 => Charset::Utf8,
    }
}

fn is_standard(order: Order) -> bool
    ensures { result ≡ is_standard order }
{
    match order {
        Order::Standard => true,
        Order::Needs => false,
    }
}

/// What a script takes from variables outside, and gives to them.
#[derive(Drop)]
struct Script {
    name: Option<String>,
    globals: Vec<(String, String)>,
}

impl Script {
    /// Nothing, of a module.
    fn of(alloc: Global, format: &FormatSetting) -> Result<Script, AllocError>
        ensures name { IfOk result (λ it. text_of it.name ≡ script_name format.now) }
        ensures globals { IfOk result (λ it.
            map pair_of it.globals.items ≡ script_globals format.now) }
    {
        match format {
            FormatSetting::Esm => Ok(Script {
                name: None,
                globals: Vec::new(alloc),
            }),
            FormatSetting::Iife(iife) => {
                let globals = pairs_of(alloc, iife.globals.as_slice())?;
                let name = copy_of(&iife.name)?;
                Ok(Script { name, globals })
            }
        }
    }
}

fn pairs_of(alloc: Global, globals: &[ExternalGlobal]) -> Result<Vec<(String, String)>, AllocError>
    ensures { IfOk result (λ pairs.
        map pair_of pairs.items ≡ map global_of globals.now) }
{
    let mut pairs = Vec::new(alloc);
    for global in globals {
        pairs.push(pair_of(global)?)?;
    }
    Ok(pairs)
}

fn pair_of(global: &ExternalGlobal) -> Result<(String, String), AllocError>
    ensures { IfOk result (λ it. pair_of it ≡ global_of global.now) }
{
    let specifier = global.specifier.clone()?;
    Ok((specifier, global.name.clone()?))
}

/// The folders that matter to a bundle.
#[derive(Drop)]
struct Folders {
    /// The one in which the command runs.
    here: String,
    /// The one that no module may lie outside of.
    root: Option<String>,
    /// The one in which the bundles will lie.
    output: String,
}

impl Folders {
    fn of(alloc: Global, options: &Options, folder: &str) -> Result<Folders, AllocError>
        ensures here { IfOk result (λ it. string_bytes it.here ≡ folder.now) }
        ensures root { IfOk result (λ it. text_of it.root
            ≡ option_map (λ path. path_from folder.now (string_bytes path)) options.now.root) }
        ensures output { IfOk result (λ it.
            string_bytes it.output ≡ output_folder options.now.output folder.now) }
    {
        let root = root_of(alloc, &options.root, folder)?;
        let here = String::from_str(alloc, folder)?;
        let output = output_folder(alloc, options, folder)?;
        Ok(Folders { here, root, output })
    }
}

/// The folder that no module may lie outside of.
fn root_of(alloc: Global, root: &Option<String>, folder: &str) -> Result<Option<String>, AllocError>
    ensures { IfOk result (λ it. text_of it
        ≡ option_map (λ path. path_from folder.now (string_bytes path)) root.now) }
{
    match root {
        Some(root) => Ok(Some(join(alloc, folder, root.as_str())?)),
        None => Ok(None),
    }
}

fn copy_of(text: &Option<String>) -> Result<Option<String>, AllocError>
    ensures { IfOk result (λ it. text_of it ≡ text_of text.now) }
{
    match text {
        Some(text) => Ok(Some(text.clone()?)),
        None => Ok(None),
    }
}

fn target_of(platform: Platform) -> TargetPlatform
    ensures { result ≡ target_of platform }
{
    match platform {
        Platform::Node => TargetPlatform::Node,
        Platform::Browser => TargetPlatform::Browser,
    }
}

fn stay_inline(comments: LegalComments) -> bool
    ensures { result ≡ stay_inline comments }
{
    match comments {
        LegalComments::Inline => true,
        LegalComments::None => false,
    }
}

fn map_setting(map: SourceMap, content: SourcesContent) -> MapSetting
    ensures { result ≡ map_setting map content }
{
    match map {
        SourceMap::None => MapSetting::Off,
        SourceMap::Linked | SourceMap::Inline | SourceMap::External => match content {
            SourcesContent::Kept => MapSetting::Contents,
            SourcesContent::Dropped => MapSetting::Paths,
        },
    }
}

// The folder in which the bundles will lie.
fn output_folder(alloc: Global, options: &Options, folder: &str) -> Result<String, AllocError>
    ensures { IfOk result (λ it.
        string_bytes it ≡ output_folder options.now.output folder.now) }
{
    match &options.output {
        Destination::Stdout => String::from_str(alloc, folder),
        Destination::Folder(output) => join(alloc, folder, output.as_str()),
        Destination::File(output) => {
            let path = join(alloc, folder, output.as_str())?;
            String::from_str(alloc, folder_of(path.as_str()))
        }
    }
}

/// How specifiers are resolved.
pub(crate) fn resolution_of(
    alloc: Global,
    options: &Options,
    folder: &str,
) -> Result<Resolution, AllocError>
    ensures { IfOk result (IsResolvedFor options.now) }
{
    let mut settings = Resolution::for_bundle(alloc, target_of(options.platform))?;
    adapt(alloc, &mut settings, options, folder)?;
    Ok(settings)
}

/// Sets what the options say of resolution.
fn adapt(
    alloc: Global,
    settings: &mut Resolution,
    options: &Options,
    folder: &str,
) -> Result<(), AllocError>
    ensures { OnOk result (IsResolvedFor options.now settings.new) }
{
    let conditions = options.conditions.as_slice();
    add_texts(&mut settings.import_conditions, conditions)?;
    add_texts(&mut settings.require_conditions, conditions)?;
    if let Some(fields) = &options.main_fields {
        set_fields(&mut settings.main_fields, fields.as_slice())?;
    }
    add_externals(
        alloc,
        &mut settings.externals,
        folder,
        options.externals.as_slice(),
    )
}

/// Adds what is left.
fn add_externals(
    alloc: Global,
    externals: &mut Externals,
    folder: &str,
    texts: &[String],
) -> Result<(), AllocError> {
    for text in texts {
        externals.add(alloc, folder, text.as_str())?;
    }
    Ok(())
}

/// Adds copies of texts.
fn add_texts(texts: &mut Vec<String>, more: &[String]) -> Result<(), AllocError>
    ensures { OnOk result (map string_bytes texts.new.items
        ≡ map string_bytes texts.old.items ++ map string_bytes more.now) }
{
    for text in more {
        texts.push(text.clone()?)?;
    }
    Ok(())
}

/// Sets which fields of package.json name a main file.
fn set_fields(main_fields: &mut Vec<MainField>, names: &[String]) -> Result<(), AllocError> {
    main_fields.clear();
    for name in names {
        if let Some(field) = field_of(name.as_str()) {
            main_fields.push(field)?;
        }
    }
    Ok(())
}

/// The field of package.json that has this name, where one names main files.
fn field_of(name: &str) -> Option<MainField>
    ensures { result ≡ field_of name.now }
{
    match name {
        "browser" => Some(MainField::Browser),
        "module" => Some(MainField::Module),
        "main" => Some(MainField::Main),
        _ => None,
    }
}
