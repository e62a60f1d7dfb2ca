//! The source map of a bundle.

use crate::output::BundleBody;
use bundle_syntax::{Node, Piece};
use bundle_tree_names::file_name::FileName;
use bundler_call::{BundleCauses, ItemCause};
use gutsirava_graph::{BundleSettings, BundleUnit, MapSetting, OutputFormat, unit_in};
use gutsirava_maps::{MapSource, map_text};
use gutsirava_path::relative;
use gutsirava_traces::{MapMaker, PrintedList, SourceFile};
use std::alloc::{AllocError, Global};

/// The source map of a bundle with this body, whose items are made for these causes: its JSON text. Refused only for
/// memory.
pub(crate) fn map_of(
    alloc: Global,
    units: &[BundleUnit],
    settings: &BundleSettings,
    causes: &BundleCauses,
    body: &BundleBody<'_>,
) -> Result<String, AllocError> {
    let mut mapper = BundleMapper::new(alloc, units, causes.modules.as_slice(), body)?;
    if let Some(items) = &causes.items {
        let list = body.list();
        mapper.add_items(list, first_item(&list, settings.format), items.as_slice())?;
    }
    mapper.text(settings)
}

/// Where the first item begins: in a script, behind the directive of the function.
pub(crate) fn first_item(list: &PrintedList<'_, '_>, format: OutputFormat) -> usize {
    match format {
        OutputFormat::Module => 1,
        OutputFormat::Iife => match list.pieces.iter().position(is_block) {
            Some(block) => list.behind(block.saturating_add(1)),
            None => list.pieces.len(),
        },
    }
}

fn is_block(piece: &Piece<'_>) -> bool {
    matches!(
        piece,
        Piece::Open {
            node: Node::BlockStmt,
            ..
        }
    )
}

// The source map of a bundle that is being made.
#[derive(Drop)]
struct BundleMapper<'x> {
    alloc: Global,
    units: &'x [BundleUnit],
    modules: &'x [FileName],
    maker: MapMaker<'x>,
    // For each module that was met, by its place among the bundle's, its file.
    files: Vec<Option<SourceFile<'x>>>,
    // The modules of the sources, by their numbers.
    sources: Vec<&'x BundleUnit>,
}

impl<'x> BundleMapper<'x> {
    fn new(
        alloc: Global,
        units: &'x [BundleUnit],
        modules: &'x [FileName],
        body: &'x BundleBody<'_>,
    ) -> Result<BundleMapper<'x>, AllocError> {
        let mut files = Vec::with_capacity(alloc, modules.len())?;
        for _ in modules {
            files.push(None)?;
        }
        Ok(BundleMapper {
            alloc,
            units,
            modules,
            maker: MapMaker::new(alloc, body.text.as_str(), body.base),
            files,
            sources: Vec::new(alloc),
        })
    }

    // Takes in items, of which the first begins at a place of the list.
    fn add_items(
        &mut self,
        list: PrintedList<'_, '_>,
        first: usize,
        causes: &[ItemCause],
    ) -> Result<(), AllocError> {
        let mut at = first;
        for cause in causes {
            at = self.add_item(list, at, cause)?;
        }
        self.maker.add_other(list, at)?;
        self.maker.finish()
    }

    // Takes in an item, which begins at a place of the list. Gives the place behind it.
    fn add_item(
        &mut self,
        list: PrintedList<'_, '_>,
        at: usize,
        cause: &ItemCause,
    ) -> Result<usize, AllocError> {
        match cause {
            ItemCause::OwnStatement { module, statement } => {
                self.add_own(list, at, *module, Some(*statement))
            }
            ItemCause::LoadFunction { module } => self.add_own(list, at, *module, None),
            _ => self.maker.add_other(list, at),
        }
    }

    // Takes in what stands for a statement of a module, or for all of them.
    fn add_own(
        &mut self,
        list: PrintedList<'_, '_>,
        at: usize,
        module: usize,
        statement: Option<usize>,
    ) -> Result<usize, AllocError> {
        self.open_file(module)?;
        match self.files.get_mut(module) {
            Some(Some(file)) => match statement {
                Some(statement) => self.maker.add_statement(list, at, file, statement),
                None => self.maker.add_function(list, at, file),
            },
            _ => self.maker.add_other(list, at),
        }
    }

    // Opens the file of a module, where it is not open yet, and something is kept of its list.
    fn open_file(&mut self, module: usize) -> Result<(), AllocError> {
        if self.is_open(module) {
            return Ok(());
        }
        let Some(unit) = self.unit_of(module) else {
            return Ok(());
        };
        let Some(trace) = &unit.trace else {
            return Ok(());
        };
        let number = u32::try_from(self.sources.len()).unwrap_or(u32::MAX);
        self.sources.push(unit)?;
        if let Some(place) = self.files.get_mut(module) {
            *place = Some(SourceFile::new(self.alloc, number, unit.text(), trace));
        }
        Ok(())
    }

    fn is_open(&self, module: usize) -> bool {
        matches!(self.files.get(module), Some(Some(_)))
    }

    fn unit_of(&self, module: usize) -> Option<&'x BundleUnit> {
        let unit = unit_in(self.modules.get(module)?)?;
        self.units.get(unit)
    }

    // The text of the map.
    fn text(&self, settings: &BundleSettings) -> Result<String, AllocError> {
        let paths = self.paths(settings.output_folder.as_str())?;
        let mut sources = Vec::with_capacity(self.alloc, paths.len())?;
        for (unit, path) in self.sources.iter().zip(paths.as_slice()) {
            sources.push(MapSource {
                path: path.as_str(),
                content: unit.text(),
            })?;
        }
        map_text(
            self.alloc,
            sources.as_slice(),
            matches!(settings.source_map, MapSetting::Contents),
            &self.maker.names,
            &self.maker.mappings,
        )
    }

    // Where the sources lie, from a folder on.
    fn paths(&self, folder: &str) -> Result<Vec<String>, AllocError> {
        let mut paths = Vec::with_capacity(self.alloc, self.sources.len())?;
        for unit in &self.sources {
            paths.push(path_from(self.alloc, folder, unit.path().unwrap_or(""))?)?;
        }
        Ok(paths)
    }
}

// Where a file lies, from a folder on: `x.js` or `../x.js`.
fn path_from(alloc: Global, folder: &str, path: &str) -> Result<String, AllocError> {
    let path = relative(alloc, folder, path)?;
    match path.as_str().strip_prefix("./") {
        Some(path) => String::from_str(alloc, path),
        None => Ok(path),
    }
}
