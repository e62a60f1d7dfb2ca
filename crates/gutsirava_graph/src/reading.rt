//! The files of modules are read, and made trees for the linker.

ghost use Rattle.std.specs.Prelude.{◌≡◌, ◌≤◌};

use crate::bond::{Bond, stands_of};
use crate::graph::{Asker, Graph, MOST_DEPTH};
use crate::link::{BondedRequest, Wish, bonded};
use crate::progress::ProgressListener;
use crate::settings::{BundleSettings, MapSetting, OutputFormat};
use crate::spot::place_of;
use crate::teller::{Teller, TextPlace};
use crate::trees::TreeMaker;
use crate::unit::{ExportTable, UnitFile, UnitLink, UnitOrigin, target_of};
use crate::unit_table::UnitTable;
use bundle_syntax::{ExportMetadata, Node, Piece};
use gutsirava_resolve::FileSystem;
use gutsirava_sources::{
    Exported, KeptComment, KnownKind, Placed, ReadError, RewrittenList, Seat, SourceKind,
    SourceModule, SourceOutline, SourceRecords, SourceRequest, Stand, common_js_exports,
    exports_of, outline_of, parts_of, read_known, rewritten,
};
use gutsirava_traces::{NOWHERE, SourceTrace};
use std::alloc::{AllocError, Global};

// How a module is read.
#[derive(Drop)]
struct UnitForm {
    known: KnownKind,
    is_node: bool,
    is_main: bool,
}

// What stands for the requests of a module, and where each leads.
#[derive(Drop)]
struct BondedRequests {
    bonds: Vec<Bond>,
    links: Vec<UnitLink>,
}

/// What is kept for a source map of the list of a module whose tree was made.
#[derive(Drop)]
pub(crate) struct TracedTree {
    trace: Option<SourceTrace>,
}

// What was read of a module.
#[derive(Drop)]
struct Read {
    trace: Option<SourceTrace>,
    links: Vec<UnitLink>,
    table: ExportTable,
}

impl<'s, F: FileSystem + Drop> Graph<'s, F> {
    /// Reads the files of all modules, those too that are found on the way, as long as not too much is wrong.
    pub(crate) fn read_files<T: TreeMaker, P: ProgressListener>(
        &mut self,
        trees: &mut T,
        progress: &mut P,
    ) -> Result<(), AllocError>
        ensures { self.old.teller.messages.errors ≤ self.new.teller.messages.errors }
    {
        for at in 0..usize::MAX {
            if at >= self.table.units.len() || self.teller.messages.is_full() {
                break;
            }
            progress.has_found(self.table.units.len());
            self.read_unit(trees, at)?;
        }
        Ok(())
    }

    // Reads the file of a module, where that has one.
    fn read_unit<T: TreeMaker>(&mut self, trees: &mut T, at: usize) -> Result<(), AllocError>
        ensures { self.old.teller.messages.errors ≤ self.new.teller.messages.errors }
    {
        let Some((file, form)) = self.table.begin_file(at) else {
            return Ok(());
        };
        let read = self.read_file(trees, asker_of(at, &file, &form), &file, form)?;
        self.table.end_file(at, file, read);
        Ok(())
    }

    fn read_file<T: TreeMaker>(
        &mut self,
        trees: &mut T,
        asker: Asker<'_>,
        file: &UnitFile,
        form: UnitForm,
    ) -> Result<Option<Read>, AllocError>
        ensures { self.old.teller.messages.errors ≤ self.new.teller.messages.errors }
    {
        match read_known(self.table.alloc, asker.text, form.known) {
            Ok(source) => self.read_source(trees, asker, file.is_data, &source),
            Err(error) => leave_unread(&mut self.teller, asker, error),
        }
    }

    fn read_source<T: TreeMaker>(
        &mut self,
        trees: &mut T,
        asker: Asker<'_>,
        is_data: bool,
        source: &SourceModule<'_>,
    ) -> Result<Option<Read>, AllocError>
        ensures { self.old.teller.messages.errors ≤ self.new.teller.messages.errors }
    {
        match source.pieces(self.table.alloc, MOST_DEPTH) {
            Ok(placed) => {
                let kept = comments_of(self.table.alloc, self.settings, source, &placed)?;
                self.read_placed(trees, asker, is_data, &placed, kept.as_slice())
            }
            Err(error) => leave_unread(&mut self.teller, asker, error),
        }
    }

    // What comes of the list of a file.
    fn read_placed<T: TreeMaker>(
        &mut self,
        trees: &mut T,
        asker: Asker<'_>,
        is_data: bool,
        placed: &Placed<'_>,
        comments: &[KeptComment<'_>],
    ) -> Result<Option<Read>, AllocError>
        ensures { self.old.teller.messages.errors ≤ self.new.teller.messages.errors }
    {
        let settings = self.settings;
        let outline = outline_of(self.table.alloc, placed.pieces.as_slice())?;
        tell_outline(&mut self.teller, settings, asker, placed, &outline)?;
        let bonded = self.bonds(asker, &*placed, &outline)?;
        let seat = SeatForm {
            asker,
            is_data,
            settings,
        };
        read_bonded(
            &mut self.teller,
            trees,
            seat,
            placed,
            &outline,
            bonded,
            comments,
        )
    }

    // What stands for each request of a module, and where each leads.
    fn bonds<'x, 'a>(
        &mut self,
        asker: Asker<'x>,
        placed: &'x Placed<'a>,
        outline: &'x SourceOutline<'a>,
    ) -> Result<BondedRequests, AllocError>
        ensures { self.old.teller.messages.errors ≤ self.new.teller.messages.errors }
    {
        let mut bonded = BondedRequests::new(self.table.alloc);
        for (number, request) in outline.requests.iter().enumerate() {
            let wish = wish_of(asker, placed, request, number);
            bonded.push(self.bonded_request(wish)?)?;
        }
        Ok(bonded)
    }

    // What stands for a request, and where it leads.
    fn bonded_request(&mut self, wish: Wish<'_, '_>) -> Result<BondedRequest, AllocError>
        ensures { self.old.teller.messages.errors ≤ self.new.teller.messages.errors }
    {
        let settings = self.settings;
        let lead = self.lead(wish.asker.path, wish.request)?;
        bonded(&mut self.teller, &mut self.table, settings, wish, lead)
    }
}

impl UnitTable {
    // The file of a module that is to be read, taken out, and how. It is done then.
    fn begin_file(&mut self, at: usize) -> Option<(UnitFile, UnitForm)> {
        let unit = self.units.get_mut(at)?;
        if unit.is_done || unit.path().is_none() {
            return None;
        }
        unit.is_done = true;
        let known = KnownKind {
            kind: unit.kind,
            records: take_records(&mut unit.origin),
        };
        let form = UnitForm {
            known,
            is_node: unit.is_node,
            is_main: unit.is_main,
        };
        let blank = UnitOrigin::Text(String::new(self.alloc));
        let file = std::mem::replace(&mut unit.origin, blank).into_file()?;
        Some((file, form))
    }

    // Puts back the file of a module, with what was read of it.
    fn end_file(&mut self, at: usize, file: UnitFile, read: Option<Read>) {
        if let Some(unit) = self.units.get_mut(at) {
            unit.origin = UnitOrigin::File(file);
            if let Some(
                Read {
                    trace,
                    links,
                    table,
                },
            ) = read
            {
                unit.trace = trace;
                unit.links = links;
                unit.table = table;
            }
        }
    }
}

// What was read of the text of a file.
fn take_records(origin: &mut UnitOrigin) -> Option<SourceRecords> {
    match origin {
        UnitOrigin::File(file) => file.records.take(),
        UnitOrigin::Facade { .. } | UnitOrigin::Text(_) => None,
    }
}

// A module that is read from a file.
fn asker_of<'f>(unit: usize, file: &'f UnitFile, form: &UnitForm) -> Asker<'f> {
    Asker {
        unit,
        path: file.path.as_str(),
        text: file.text.as_str(),
        kind: form.known.kind,
        is_node: form.is_node,
        is_main: form.is_main,
    }
}

// A request of a module with this list.
fn wish_of<'x, 'a>(
    asker: Asker<'x>,
    placed: &Placed<'_>,
    request: &'x SourceRequest<'a>,
    number: usize,
) -> Wish<'x, 'a> {
    Wish {
        asker,
        request,
        parts: parts_of(placed.pieces.as_slice(), request),
        number,
        at: place_of(placed, request.place),
    }
}

// Tells what is wrong with the text of a module, of which nothing comes.
fn leave_unread(
    teller: &mut Teller<'_>,
    asker: Asker<'_>,
    error: ReadError,
) -> Result<Option<Read>, AllocError>
    ensures { teller.old.messages.errors ≤ teller.new.messages.errors }
{
    teller.tell_unread(asker.path, asker.text, error)?;
    Ok(None)
}

// The comments of a module that stay.
fn comments_of<'a>(
    alloc: Global,
    settings: &BundleSettings,
    source: &'a SourceModule<'_>,
    placed: &Placed<'_>,
) -> Result<Vec<KeptComment<'a>>, AllocError> {
    if !settings.keeps_comments {
        return Ok(Vec::new(alloc));
    }
    match source.comments(alloc, placed) {
        Ok(comments) => Ok(comments),
        Err(_) => Err(AllocError),
    }
}

// What a module of a file is, and what it keeps.
#[derive(Clone, Copy)]
struct SeatForm<'x, 's> {
    asker: Asker<'x>,
    is_data: bool,
    settings: &'s BundleSettings,
}

impl<'s> SeatForm<'_, 's> {
    fn seat<'n>(self, notes: &'n ExportMetadata) -> Seat<'n>
    where
        's: 'n,
    {
        Seat {
            kind: self.asker.kind,
            keeps_meta: self.settings.format != OutputFormat::Iife,
            meta_url: self.settings.meta_url.as_ref().map(|url| url.as_str()),
            is_main: self.asker.is_main,
            is_data: self.is_data,
            keeps_origins: !self.is_data && !matches!(self.settings.source_map, MapSetting::Off),
            notes,
        }
    }
}

// What comes of the list of a file, where it is known what stands for its requests.
fn read_bonded<'a, T: TreeMaker>(
    teller: &mut Teller<'_>,
    trees: &mut T,
    form: SeatForm<'_, '_>,
    placed: &Placed<'a>,
    outline: &SourceOutline<'a>,
    bonded: BondedRequests,
    comments: &[KeptComment<'_>],
) -> Result<Option<Read>, AllocError>
    ensures { teller.old.messages.errors ≤ teller.new.messages.errors }
{
    let alloc = teller.alloc;
    let notes = ExportMetadata::default();
    let pieces = placed.pieces.as_slice();
    let bonds = bonded.bonds.as_slice();
    let unit = form.asker.unit;
    match tree_of(
        alloc,
        trees,
        unit,
        placed,
        outline,
        bonds,
        comments,
        form.seat(&notes),
    )? {
        Some(tree) => {
            let read = read_of(alloc, form.asker.kind, pieces, outline, tree, bonded)?;
            Ok(Some(read))
        }
        None => {
            teller.tell_internal(form.asker.path)?;
            Ok(None)
        }
    }
}

// Tells of what is left open in a module.
fn tell_outline(
    teller: &mut Teller<'_>,
    settings: &BundleSettings,
    asker: Asker<'_>,
    placed: &Placed<'_>,
    outline: &SourceOutline<'_>,
) -> Result<(), AllocError>
    ensures { teller.new.messages.errors ≡ teller.old.messages.errors }
{
    for piece in &outline.unknown {
        tell_call(teller, asker, placed, *piece)?;
    }
    match outline.meta {
        Some(piece) => tell_meta(teller, settings, asker, place_of(placed, piece)),
        None => Ok(()),
    }
}

// Tells of a call at a piece that stays.
fn tell_call(
    teller: &mut Teller<'_>,
    asker: Asker<'_>,
    placed: &Placed<'_>,
    piece: usize,
) -> Result<(), AllocError>
    ensures { teller.new.messages.errors ≡ teller.old.messages.errors }
{
    let word = call_word(placed, piece);
    let why = format!(in teller.alloc; "{word}() of what is no literal stays as it is")?;
    let place = TextPlace {
        path: asker.path,
        text: asker.text,
        at: place_of(placed, piece),
        length: word.len(),
    };
    teller.warn(place, why)
}

// Tells of an `import.meta` that nothing is known of.
fn tell_meta(
    teller: &mut Teller<'_>,
    settings: &BundleSettings,
    asker: Asker<'_>,
    at: usize,
) -> Result<(), AllocError>
    ensures { teller.new.messages.errors ≡ teller.old.messages.errors }
{
    if settings.format != OutputFormat::Iife || settings.meta_url.is_some() {
        return Ok(());
    }
    let why = format!(in teller.alloc; "import.meta is empty in a script")?;
    let place = TextPlace {
        path: asker.path,
        text: asker.text,
        at,
        length: 11,
    };
    teller.warn(place, why)
}

// The word by which a call at a piece asks for a module.
fn call_word(placed: &Placed<'_>, call: usize) -> &'static str {
    match placed.pieces.get(call.saturating_add(1)) {
        Some(Piece::Ident { .. }) => "require",
        _ => "import",
    }
}

/// Puts down what stands for one more request.
pub(crate) fn push_bond(bonds: &mut Vec<Bond>, bond: Bond) -> Result<(), AllocError> {
    bonds.push(bond)?;
    Ok(())
}

impl BondedRequests {
    fn new(alloc: Global) -> BondedRequests {
        BondedRequests {
            bonds: Vec::new(alloc),
            links: Vec::new(alloc),
        }
    }

    fn push(&mut self, request: BondedRequest) -> Result<(), AllocError> {
        let BondedRequest { bond, link } = request;
        push_bond(&mut self.bonds, bond)?;
        self.links.push(link)?;
        Ok(())
    }
}

// What was read of a module with this tree.
fn read_of<'a>(
    alloc: Global,
    kind: SourceKind,
    pieces: &[Piece<'a>],
    outline: &SourceOutline<'a>,
    tree: TracedTree,
    bonded: BondedRequests,
) -> Result<Read, AllocError> {
    let BondedRequests { bonds, links } = bonded;
    let TracedTree { trace } = tree;
    let table = table_of(
        alloc,
        kind,
        pieces,
        outline,
        bonds.as_slice(),
        links.as_slice(),
    )?;
    Ok(Read {
        trace,
        links,
        table,
    })
}

// The names that a module exports.
fn table_of<'a>(
    alloc: Global,
    kind: SourceKind,
    pieces: &[Piece<'a>],
    outline: &SourceOutline<'a>,
    bonds: &[Bond],
    links: &[UnitLink],
) -> Result<ExportTable, AllocError> {
    match kind {
        SourceKind::CommonJs => common_js_table(alloc, pieces, outline, links),
        SourceKind::EcmaScript => module_table(alloc, pieces, outline, bonds, links),
    }
}

fn common_js_table<'a>(
    alloc: Global,
    pieces: &[Piece<'a>],
    outline: &SourceOutline<'a>,
    links: &[UnitLink],
) -> Result<ExportTable, AllocError> {
    let exports = common_js_exports(alloc, pieces, outline)?;
    let mut table = ExportTable::new(alloc);
    add_names(alloc, &mut table, exports.names.as_slice())?;
    add_passed(&mut table, exports.passed.as_slice(), links)?;
    Ok(table)
}

fn add_names(alloc: Global, table: &mut ExportTable, names: &[&str]) -> Result<(), AllocError> {
    for name in names {
        table.add_name(alloc, name)?;
    }
    Ok(())
}

// Adds the modules that these requests lead to, all of whose names are exported.
fn add_passed(
    table: &mut ExportTable,
    passed: &[usize],
    links: &[UnitLink],
) -> Result<(), AllocError> {
    for number in passed {
        if let Some(target) = target_of(links, *number) {
            table.stars.push(target)?;
        }
    }
    Ok(())
}

fn module_table(
    alloc: Global,
    pieces: &[Piece<'_>],
    outline: &SourceOutline<'_>,
    bonds: &[Bond],
    links: &[UnitLink],
) -> Result<ExportTable, AllocError> {
    let mut table = ExportTable::new(alloc);
    let exports = exports_of(alloc, pieces)?;
    add_exports(alloc, &mut table, exports.as_slice())?;
    add_stars(&mut table, pieces, outline, bonds, links)?;
    Ok(table)
}

fn add_exports(
    alloc: Global,
    table: &mut ExportTable,
    exports: &[Exported<'_>],
) -> Result<(), AllocError> {
    for export in exports {
        table.add_name(alloc, export.name)?;
    }
    Ok(())
}

// Adds what each `export *` of a module leads to.
fn add_stars(
    table: &mut ExportTable,
    pieces: &[Piece<'_>],
    outline: &SourceOutline<'_>,
    bonds: &[Bond],
    links: &[UnitLink],
) -> Result<(), AllocError> {
    for (number, request) in outline.requests.iter().enumerate() {
        if is_star(pieces, request.begin) {
            add_star(table, target_of(links, number), bonds.get(number))?;
        }
    }
    Ok(())
}

// Adds the module all of whose names are exported, or the text that is left of it.
fn add_star(
    table: &mut ExportTable,
    target: Option<usize>,
    bond: Option<&Bond>,
) -> Result<(), AllocError> {
    match (target, bond) {
        (Some(target), _) => table.stars.push(target)?,
        (None, Some(Bond::Left(text))) => table.outer.push(text.clone()?)?,
        _ => {}
    }
    Ok(())
}

// Whether an `export *` without a name begins at a place.
fn is_star(pieces: &[Piece<'_>], at: usize) -> bool {
    matches!(
        pieces.get(at),
        Some(Piece::Open {
            node: Node::ExportAll { .. },
            ..
        })
    )
}

/// Makes the tree of a module, with what stands for its requests; none where its list is that of no module.
pub(crate) fn tree_of<'p: 'b, 'c: 'b, 'n: 'b, 'b, T: TreeMaker>(
    alloc: Global,
    trees: &mut T,
    unit: usize,
    placed: &Placed<'p>,
    outline: &SourceOutline<'_>,
    bonds: &'b [Bond],
    comments: &[KeptComment<'c>],
    seat: Seat<'n>,
) -> Result<Option<TracedTree>, AllocError> {
    let stands = stands_of(alloc, bonds)?;
    let made = rewritten_list(alloc, placed, outline, stands.as_slice(), comments, seat)?;
    traced(alloc, trees, unit, &made, placed.places.as_slice())
}

// The list of a module, with what stands for its requests.
fn rewritten_list<'p: 'b, 'c: 'b, 'n: 'b, 'b>(
    alloc: Global,
    placed: &Placed<'p>,
    outline: &SourceOutline<'_>,
    stands: &[Stand<'b>],
    comments: &[KeptComment<'c>],
    seat: Seat<'n>,
) -> Result<RewrittenList<'b>, AllocError> {
    let pieces = placed.pieces.as_slice();
    rewritten(alloc, pieces, outline, stands, comments, seat)
}

// Makes the tree of a list, and gives what is kept of that.
fn traced<T: TreeMaker>(
    alloc: Global,
    trees: &mut T,
    unit: usize,
    made: &RewrittenList<'_>,
    places: &[u32],
) -> Result<Option<TracedTree>, AllocError> {
    if !trees.make(unit, made.pieces.as_slice())? {
        return Ok(None);
    }
    let trace = trace_of(alloc, made, places)?;
    Ok(Some(TracedTree { trace }))
}

// What is kept of a list, where its origins are kept, and the places of these in the text are known.
fn trace_of(
    alloc: Global,
    made: &RewrittenList<'_>,
    places: &[u32],
) -> Result<Option<SourceTrace>, AllocError> {
    let Some(origins) = &made.origins else {
        return Ok(None);
    };
    let mut kept = Vec::with_capacity(alloc, origins.len())?;
    for origin in origins {
        kept.push(places.get(*origin as usize).copied().unwrap_or(NOWHERE))?;
    }
    let trace = SourceTrace::of(alloc, made.pieces.as_slice(), kept)?;
    Ok(Some(trace))
}
