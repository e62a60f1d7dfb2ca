//! The metafile, in esbuild's form.

ghost use Rattle.std.specs.Prelude.{◌≡◌, ◌∷◌, [], IfOk, OnOk, codes, length, map, slice_index, string_bytes, vec_len};
ghost use Rattle.gutsirava_views.specs.Json.{array, member, object};
ghost use Rattle.gutsirava_views.specs.Metafile as metafile;
ghost use Rattle.gutsirava_views.specs.Writing.{AddsItems};

use crate::json::JsonWriter;
use crate::{
    ImportKind, ImportTarget, ImportView, InputFormat, InputView, OutputView, Overview, shares_of,
};
use std::alloc::{AllocError, Global};

/// The metafile of a run, in the form of esbuild's, which its viewers read.
pub fn metafile_text(alloc: Global, overview: &Overview) -> Result<String, AllocError>
    ensures { IfOk result (λ text. string_bytes text ≡ metafile.metafile_of overview.now) }
{
    let mut json = JsonWriter::new(alloc);
    json.open("{")?;
    put_inputs(&mut json, overview)?;
    put_outputs(alloc, &mut json, overview)?;
    json.close("}")?;
    json.finish()
}

fn put_inputs(json: &mut JsonWriter, overview: &Overview) -> Result<(), AllocError>
    requires { json.old.depth ≡ 1 }
    ensures { OnOk result (AddsItems 1 (member (codes "inputs") (object 1
        (map (metafile.input_member overview.now) overview.now.inputs.items)) ∷ []) json.old json.new) }
{
    json.open_member("inputs", "{")?;
    for input in &overview.inputs {
        put_input(json, overview, input)?;
    }
    json.close("}")
}

fn put_input(
    json: &mut JsonWriter,
    overview: &Overview,
    input: &InputView,
) -> Result<(), AllocError>
    requires { json.old.depth ≡ 2 }
    ensures { OnOk result (AddsItems 2
        (metafile.input_member overview.now input.now ∷ []) json.old json.new) }
{
    json.open_member(input.path.as_str(), "{")?;
    json.put_number("bytes", input.bytes)?;
    put_imports(json, overview, input.imports.as_slice(), true)?;
    put_format(json, input.format)?;
    json.close("}")
}

fn put_imports(
    json: &mut JsonWriter,
    overview: &Overview,
    imports: &[ImportView],
    has_original: bool,
) -> Result<(), AllocError>
    requires { json.old.depth ≡ 3 }
    ensures { OnOk result (AddsItems 3
        (metafile.imports_member overview.now has_original imports.now ∷ []) json.old json.new) }
{
    json.open_member("imports", "[")?;
    for import in imports {
        put_import(json, overview, import, has_original)?;
    }
    json.close("]")
}

fn put_import(
    json: &mut JsonWriter,
    overview: &Overview,
    import: &ImportView,
    has_original: bool,
) -> Result<(), AllocError>
    requires { json.old.depth ≡ 4 }
    ensures { OnOk result (AddsItems 4
        (metafile.import_object overview.now has_original import.now ∷ []) json.old json.new) }
{
    json.open_element("{")?;
    json.put_text("path", overview.target_of(&import.target))?;
    json.put_text("kind", kind_word(import.kind))?;
    put_origin(json, import, has_original)?;
    json.close("}")
}

// Writes that what is asked for is external, or how a module is asked for.
fn put_origin(
    json: &mut JsonWriter,
    import: &ImportView,
    has_original: bool,
) -> Result<(), AllocError>
    requires { json.old.depth ≡ 5 }
    ensures { OnOk result (AddsItems 5 (metafile.origin_members
        import.now.target (string_bytes import.now.original) has_original) json.old json.new) }
{
    match &import.target {
        ImportTarget::External(_) => json.put_true("external"),
        ImportTarget::Input(_) if has_original => {
            json.put_text("original", import.original.as_str())
        }
        ImportTarget::Input(_) => Ok(()),
    }
}

fn put_format(json: &mut JsonWriter, format: InputFormat) -> Result<(), AllocError>
    requires { json.old.depth ≡ 3 }
    ensures { OnOk result (AddsItems 3 (metafile.format_members format) json.old json.new) }
{
    match format {
        InputFormat::EcmaScript => json.put_text("format", "esm"),
        InputFormat::CommonJs => json.put_text("format", "cjs"),
        InputFormat::Json => Ok(()),
    }
}

fn put_outputs(alloc: Global, json: &mut JsonWriter, overview: &Overview) -> Result<(), AllocError>
    requires { json.old.depth ≡ 1 }
    ensures { OnOk result (AddsItems 1 (member (codes "outputs") (object 1
        (map (metafile.output_member overview.now) overview.now.outputs.items)) ∷ []) json.old json.new) }
{
    json.open_member("outputs", "{")?;
    for output in &overview.outputs {
        put_output(alloc, json, overview, output)?;
    }
    json.close("}")
}

fn put_output(
    alloc: Global,
    json: &mut JsonWriter,
    overview: &Overview,
    output: &OutputView,
) -> Result<(), AllocError>
    requires { json.old.depth ≡ 2 }
    ensures { OnOk result (AddsItems 2
        (metafile.output_member overview.now output.now ∷ []) json.old json.new) }
{
    json.open_member(output.path.as_str(), "{")?;
    put_imports(json, overview, output.imports.as_slice(), false)?;
    put_exports(json, output.exports.as_slice())?;
    json.put_text("entryPoint", overview.path_of(output.entry))?;
    put_shares(alloc, json, overview, output)?;
    json.put_number("bytes", output.bytes)?;
    json.close("}")
}

fn put_exports(json: &mut JsonWriter, exports: &[String]) -> Result<(), AllocError>
    requires { json.old.depth ≡ 3 }
    ensures { OnOk result (AddsItems 3
        (metafile.exports_member exports.now ∷ []) json.old json.new) }
{
    json.open_member("exports", "[")?;
    for name in exports {
        json.put_element(name.as_str())?;
    }
    json.close("]")
}

// Writes how many bytes of a bundle were made for which input.
fn put_shares(
    alloc: Global,
    json: &mut JsonWriter,
    overview: &Overview,
    output: &OutputView,
) -> Result<(), AllocError>
    requires { json.old.depth ≡ 3 }
    ensures { OnOk result (AddsItems 3
        (metafile.shares_member overview.now output.now ∷ []) json.old json.new) }
{
    let parts = output.parts.as_slice();
    let shares = shares_of(alloc, parts, overview.inputs.len(), output.bytes)?;
    json.open_member("inputs", "{")?;
    put_each(json, overview, shares.as_slice())?;
    json.close("}")
}

fn put_each(json: &mut JsonWriter, overview: &Overview, shares: &[usize]) -> Result<(), AllocError>
    requires { json.old.depth ≡ 4 }
    ensures { OnOk result (AddsItems 4 (metafile.all_shares overview.now
        (slice_index shares.now) (length shares.now)) json.old json.new) }
{
    for (input, share) in shares.iter().enumerate() {
        put_share(json, overview, input, *share)?;
    }
    Ok(())
}

// Writes how many bytes were made for an input; where there are none, nothing.
fn put_share(
    json: &mut JsonWriter,
    overview: &Overview,
    input: usize,
    bytes: usize,
) -> Result<(), AllocError>
    requires { json.old.depth ≡ 4 }
    ensures { OnOk result (AddsItems 4
        (metafile.share_members overview.now input bytes) json.old json.new) }
{
    if bytes == 0 {
        return Ok(());
    }
    json.open_member(overview.path_of(input), "{")?;
    json.put_number("bytesInOutput", bytes)?;
    json.close("}")
}

fn kind_word(kind: ImportKind) -> &'static str
    ensures { result.now ≡ metafile.kind_word kind }
{
    match kind {
        ImportKind::Statement => "import-statement",
        ImportKind::Dynamic => "dynamic-import",
        ImportKind::Require => "require-call",
    }
}
