//! What people look at beside bundles: a metafile, a table, a picture.
ghost use Rattle.std.specs.Prelude.{◌≡◌, map, IfOk, OnOk};
ghost use Rattle.gutsirava_run.specs.Delivery.{AddsFiles, HasViews, given_path, stored_file};
ghost use Rattle.gutsirava_run.specs.Making.{has_views};

use crate::delivery::path_of;
use crate::options::format_of;
use crate::store::OutputFile;
use gutsirava_bundle::{
    BundleInsight, BundleText, Bundled, BundledLink, BundledModule, ModuleForm, RequestForm,
};
use gutsirava_path::relative;
use gutsirava_views::{
    ImportKind, ImportTarget, ImportView, InputFormat, InputView, OutputPart, OutputView, Overview,
    analysis_text, metafile_text, picture_text,
};
use gutsirava_words::{Destination, Options, Switch, ViewChoices};
use std::alloc::{AllocError, Global};
use std::collections::BTreeSet;

/// Whether options ask for something to look at.
pub(crate) fn has_views(options: &Options) -> bool
    ensures { result ≡ has_views options.now.views }
{
    let views = &options.views;
    views.metafile.is_some() || views.graph.is_some() || matches!(views.analyze, Switch::On)
}

/// What was read and made, told from a folder.
pub(crate) fn overview_of(
    alloc: Global,
    options: &Options,
    folder: &str,
    bundled: &Bundled,
) -> Result<Overview, AllocError> {
    let mut overview = Overview {
        inputs: Vec::new(alloc),
        outputs: Vec::new(alloc),
    };
    for (path, module) in bundled.inputs.iter().zip(&bundled.modules) {
        let path = shown(alloc, folder, path.as_str())?;
        overview.inputs.push(input_of(alloc, path, module)?)?;
    }
    for bundle in &bundled.outputs {
        if let Some(insight) = &bundle.insight {
            let output = output_of(alloc, options, bundle, insight, bundled.modules.as_slice())?;
            overview.outputs.push(output)?;
        }
    }
    Ok(overview)
}

// A path as it is told: from the folder on.
fn shown(alloc: Global, folder: &str, path: &str) -> Result<String, AllocError> {
    let near = relative(alloc, folder, path)?;
    match near.as_str().strip_prefix("./") {
        Some(inner) => String::from_str(alloc, inner),
        None => Ok(near),
    }
}

fn input_of(alloc: Global, path: String, module: &BundledModule) -> Result<InputView, AllocError> {
    let mut imports = Vec::new(alloc);
    for link in &module.links {
        imports.push(import_of(alloc, link)?)?;
    }
    Ok(InputView {
        path,
        bytes: module.bytes,
        format: format_in(module.form),
        imports,
    })
}

fn format_in(form: ModuleForm) -> InputFormat {
    match form {
        ModuleForm::EcmaScript => InputFormat::EcmaScript,
        ModuleForm::CommonJs => InputFormat::CommonJs,
        ModuleForm::Json => InputFormat::Json,
    }
}

fn import_of(alloc: Global, link: &BundledLink) -> Result<ImportView, AllocError> {
    let target = match link.target {
        Some(input) => ImportTarget::Input(input),
        None => ImportTarget::External(link.specifier.clone()?),
    };
    Ok(ImportView {
        kind: kind_of(link.asking),
        target,
        original: String::from_str(alloc, link.specifier.as_str())?,
    })
}

fn kind_of(asking: RequestForm) -> ImportKind {
    match asking {
        RequestForm::Import => ImportKind::Statement,
        RequestForm::Require => ImportKind::Require,
        RequestForm::Dynamic => ImportKind::Dynamic,
    }
}

fn output_of(
    alloc: Global,
    options: &Options,
    bundle: &BundleText,
    insight: &BundleInsight,
    modules: &[BundledModule],
) -> Result<OutputView, AllocError> {
    let format = format_of(&options.format);
    let path = match &options.output {
        Destination::Stdout => String::from_str(alloc, "<stdout>")?,
        output => path_of(alloc, output, format, bundle.name.as_str())?,
    };
    Ok(OutputView {
        path,
        bytes: bundle.text.len(),
        entry: insight.entry,
        exports: exports_of(alloc, insight)?,
        imports: externals_of(alloc, insight, modules)?,
        parts: parts_of(alloc, insight)?,
    })
}

fn exports_of(alloc: Global, insight: &BundleInsight) -> Result<Vec<String>, AllocError> {
    let mut exports = Vec::new(alloc);
    for name in &insight.exports {
        exports.push(name.clone()?)?;
    }
    Ok(exports)
}

fn parts_of(alloc: Global, insight: &BundleInsight) -> Result<Vec<OutputPart>, AllocError> {
    let mut parts = Vec::new(alloc);
    for part in &insight.parts {
        parts.push(OutputPart {
            begin: part.begin,
            end: part.end,
            input: part.input,
        })?;
    }
    Ok(parts)
}

// What a bundle leaves to whoever runs it, each once by the form in which it is asked for.
fn externals_of(
    alloc: Global,
    insight: &BundleInsight,
    modules: &[BundledModule],
) -> Result<Vec<ImportView>, AllocError> {
    let mut known = BTreeSet::new(alloc);
    let mut imports = Vec::new(alloc);
    for input in &insight.inputs {
        if let Some(module) = modules.get(*input) {
            for link in &module.links {
                let key = (form_number(link.asking), link.specifier.clone()?);
                if link.target.is_none() && known.insert(key)? {
                    imports.push(import_of(alloc, link)?)?;
                }
            }
        }
    }
    Ok(imports)
}

fn form_number(asking: RequestForm) -> u8 {
    match asking {
        RequestForm::Import => 0,
        RequestForm::Require => 1,
        RequestForm::Dynamic => 2,
    }
}

/// The table of what takes which part of bundles, where it is asked for.
pub(crate) fn analysis_of(
    alloc: Global,
    options: &Options,
    overview: &Overview,
    has_colors: bool,
) -> Result<Option<String>, AllocError> {
    match options.views.analyze {
        Switch::On => Ok(Some(analysis_text(alloc, overview, has_colors)?)),
        Switch::Off => Ok(None),
    }
}

/// Files, and behind them those of what people look at, where bundles go into files.
#[tactic(auto, using(crate::proofs::ViewLemmas::adds_nothing, crate::proofs::ViewLemmas::adds_both))]
pub(crate) fn with_views(
    alloc: Global,
    options: &Options,
    overview: &mut Overview,
    files: Vec<OutputFile>,
) -> Result<Vec<OutputFile>, AllocError>
    ensures { IfOk result (λ all. HasViews options.now.output options.now.views
        (map stored_file files.items) (map stored_file all.items)) }
{
    let mut all = files;
    match &options.output {
        Destination::Stdout => {}
        Destination::File(_) | Destination::Folder(_) => {
            tell_sizes(overview, all.as_slice());
            add_metafile(alloc, &options.views, overview, &mut all)?;
            add_graph(alloc, &options.views, overview, &mut all)?;
        }
    }
    Ok(all)
}

// Puts down how long the files of bundles are.
fn tell_sizes(overview: &mut Overview, files: &[OutputFile]) {
    for output in overview.outputs.iter_mut() {
        if let Some(bytes) = size_of_file(files, output.path.as_str()) {
            output.bytes = bytes;
        }
    }
}

fn size_of_file(files: &[OutputFile], path: &str) -> Option<usize> {
    let file = files.iter().find(|file| file.path.as_str() == path)?;
    Some(file.text.len())
}

// Adds the metafile, where one is asked for.
#[tactic(auto, using(crate::proofs::ViewLemmas::adds_nothing, crate::proofs::ViewLemmas::adds_file))]
fn add_metafile(
    alloc: Global,
    views: &ViewChoices,
    overview: &Overview,
    files: &mut Vec<OutputFile>,
) -> Result<(), AllocError>
    ensures { OnOk result (AddsFiles (given_path views.now.metafile)
        (map stored_file files.old.items) (map stored_file files.new.items)) }
{
    if let Some(path) = &views.metafile {
        let path = path.clone()?;
        let text = metafile_text(alloc, overview)?;
        files.push(OutputFile { path, text })?;
    }
    Ok(())
}

// Adds the picture, where one is asked for.
#[tactic(auto, using(crate::proofs::ViewLemmas::adds_nothing, crate::proofs::ViewLemmas::adds_file))]
fn add_graph(
    alloc: Global,
    views: &ViewChoices,
    overview: &Overview,
    files: &mut Vec<OutputFile>,
) -> Result<(), AllocError>
    ensures { OnOk result (AddsFiles (given_path views.now.graph)
        (map stored_file files.old.items) (map stored_file files.new.items)) }
{
    if let Some(path) = &views.graph {
        let path = path.clone()?;
        let text = picture_text(alloc, overview)?;
        files.push(OutputFile { path, text })?;
    }
    Ok(())
}
