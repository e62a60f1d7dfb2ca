//! What a picture shows: boxes and lines between them.

use crate::picture::blocks::NodeBlocks;
use crate::picture::paths::{
    depth_for, folder_count, folder_in, parted, shared_folder, short_path, sorted_folders,
};
use crate::sizes::counted;
use crate::{ImportKind, ImportTarget, Overview, size_text};
use std::alloc::{AllocError, Global};
use std::collections::BTreeMap;

/// More modules than that are shown by folders.
const MOST_MODULES: usize = 200;

/// Folders are told apart as far as there are no more than that.
const MOST_FOLDERS: usize = 80;

/// Where there are fewer folders than that, modules are shown.
const FEWEST_FOLDERS: usize = 4;

/// So many colours there are.
pub(crate) const COLOURS: usize = 9;

/// What a box stands for.
#[derive(Clone, Copy, PartialEq, Eq)]
pub(crate) enum BoxKind {
    Module,
    Folder,
    External,
}

/// A box.
#[derive(Drop)]
pub(crate) struct DrawnBox {
    pub(crate) kind: BoxKind,
    /// The folder, with the `/` behind it, and the name.
    pub(crate) folder: String,
    pub(crate) name: String,
    /// What stands at its right.
    pub(crate) note: String,
    /// The colour, by its number.
    pub(crate) colour: usize,
    pub(crate) bytes: usize,
    pub(crate) is_entry: bool,
    /// Whether a box of another block asks for it.
    pub(crate) is_asked: bool,
}

/// That a box asks for another one.
#[derive(Clone, Copy)]
pub(crate) struct DrawnLink {
    pub(crate) from: usize,
    pub(crate) to: usize,
    /// Whether that is by `import()` alone.
    pub(crate) is_lazy: bool,
}

/// What a picture shows.
#[derive(Drop)]
pub(crate) struct DrawnGraph {
    pub(crate) nodes: Vec<DrawnBox>,
    /// In their order by boxes, none twice, and none from a box to itself.
    pub(crate) links: Vec<DrawnLink>,
    /// What each colour stands for.
    pub(crate) colours: Vec<String>,
    pub(crate) title: String,
    pub(crate) subtitle: String,
}

/// What the picture of a run shows.
pub(crate) fn graph_of(alloc: Global, overview: &Overview) -> Result<DrawnGraph, AllocError> {
    let paths = paths_of(alloc, overview)?;
    let colours = colours_of(alloc, paths.as_slice())?;
    let boxes = boxes_of(alloc, overview, paths.as_slice(), &colours)?;
    with_links(alloc, overview, boxes, colours)
}

// Boxes, with the lines between them.
fn with_links(
    alloc: Global,
    overview: &Overview,
    mut boxes: BoxList,
    colours: FolderColours,
) -> Result<DrawnGraph, AllocError> {
    let links = links_of(alloc, overview, &mut boxes)?;
    let subtitle = subtitle_of(alloc, overview, &boxes)?;
    let title = title_of(alloc, overview)?;
    let BoxList { nodes, .. } = boxes;
    let FolderColours { names, .. } = colours;
    Ok(DrawnGraph {
        nodes,
        links,
        colours: names,
        title,
        subtitle,
    })
}

// A box for each module, or for each folder.
fn boxes_of(
    alloc: Global,
    overview: &Overview,
    paths: &[&str],
    colours: &FolderColours,
) -> Result<BoxList, AllocError> {
    match folder_depth(alloc, paths)? {
        Some(depth) => folder_boxes(alloc, overview, paths, colours, depth),
        None => module_boxes(alloc, overview, paths, colours),
    }
}

// The paths of the modules, without the folder that all of them lie in.
fn paths_of<'o>(alloc: Global, overview: &'o Overview) -> Result<Vec<&'o str>, AllocError> {
    let mut paths = Vec::new(alloc);
    for input in &overview.inputs {
        paths.push(short_path(input.path.as_str()))?;
    }
    let shared = shared_folder(paths.as_slice());
    for path in paths.iter_mut() {
        *path = behind(path, shared);
    }
    Ok(paths)
}

fn behind(path: &str, at: usize) -> &str {
    match path.split_at_checked(at) {
        Some((_, inner)) => inner,
        None => path,
    }
}

// As far as so many names folders are boxes; none, where modules are.
fn folder_depth(alloc: Global, paths: &[&str]) -> Result<Option<usize>, AllocError> {
    if paths.len() <= MOST_MODULES {
        return Ok(None);
    }
    let depth = depth_for(alloc, paths, MOST_FOLDERS)?;
    if folder_count(alloc, paths, depth)? < FEWEST_FOLDERS {
        return Ok(None);
    }
    Ok(Some(depth))
}

// What the colours stand for: folders, as far as there are colours.
#[derive(Drop)]
struct FolderColours {
    depth: usize,
    names: Vec<String>,
}

fn colours_of(alloc: Global, paths: &[&str]) -> Result<FolderColours, AllocError> {
    let depth = depth_for(alloc, paths, COLOURS)?;
    let folders = sorted_folders(alloc, paths, depth)?;
    let names = most_frequent(alloc, folders.as_slice())?;
    Ok(FolderColours { depth, names })
}

// The folders that stand most often among these, which are sorted; as many as there are colours.
fn most_frequent(alloc: Global, folders: &[&str]) -> Result<Vec<String>, AllocError> {
    let counts = counts_of(alloc, folders)?;
    let mut names = Vec::new(alloc);
    for (_, folder) in counts.iter().rev().take(COLOURS) {
        names.push(String::from_str(alloc, *folder)?)?;
    }
    Ok(names)
}

// How often each of these folders stands there, the least often first.
fn counts_of<'p>(alloc: Global, folders: &[&'p str]) -> Result<Vec<(usize, &'p str)>, AllocError> {
    let mut counts = Vec::new(alloc);
    let mut count: usize = 0;
    for (at, folder) in folders.iter().enumerate() {
        count = count.saturating_add(1);
        if folders.get(at.saturating_add(1)) != Some(folder) {
            counts.push((count, *folder))?;
            count = 0;
        }
    }
    counts.sort()?;
    Ok(counts)
}

impl FolderColours {
    // The colour of a path, by its number.
    fn of(&self, path: &str) -> usize {
        let folder = folder_in(path, self.depth);
        self.names
            .iter()
            .position(|name| name.as_str() == folder)
            .unwrap_or(COLOURS)
    }
}

// Boxes, and in which of them each module is.
#[derive(Drop)]
struct BoxList {
    nodes: Vec<DrawnBox>,
    places: Vec<usize>,
    externals: usize,
}

// A box for each module.
fn module_boxes(
    alloc: Global,
    overview: &Overview,
    paths: &[&str],
    colours: &FolderColours,
) -> Result<BoxList, AllocError> {
    let nodes = module_nodes(alloc, overview, paths, colours)?;
    Ok(BoxList {
        places: first_numbers(alloc, nodes.len())?,
        nodes,
        externals: 0,
    })
}

fn first_numbers(alloc: Global, count: usize) -> Result<Vec<usize>, AllocError> {
    let mut numbers = Vec::new(alloc);
    for number in 0..count {
        numbers.push(number)?;
    }
    Ok(numbers)
}

fn module_nodes(
    alloc: Global,
    overview: &Overview,
    paths: &[&str],
    colours: &FolderColours,
) -> Result<Vec<DrawnBox>, AllocError> {
    let mut nodes = Vec::new(alloc);
    for (at, (input, path)) in overview.inputs.iter().zip(paths).enumerate() {
        let mut node = module_node(alloc, path, input.bytes)?;
        node.colour = colours.of(path);
        node.is_entry = is_entry(overview, at);
        nodes.push(node)?;
    }
    Ok(nodes)
}

fn module_node(alloc: Global, path: &str, bytes: usize) -> Result<DrawnBox, AllocError> {
    let (folder, name) = parted(path);
    let mut node = DrawnBox::new(alloc, BoxKind::Module, name)?;
    node.folder.push_str(folder)?;
    node.note = size_text(alloc, bytes)?;
    node.bytes = bytes;
    Ok(node)
}

impl DrawnBox {
    // A box of this name, with nothing beside it.
    fn new(alloc: Global, kind: BoxKind, name: &str) -> Result<DrawnBox, AllocError> {
        Ok(DrawnBox {
            kind,
            folder: String::new(alloc),
            name: String::from_str(alloc, name)?,
            note: String::new(alloc),
            colour: COLOURS,
            bytes: 0,
            is_entry: false,
            is_asked: false,
        })
    }
}

fn is_entry(overview: &Overview, input: usize) -> bool {
    overview.outputs.iter().any(|output| output.entry == input)
}

// A folder while its modules are counted.
#[derive(Clone, Copy)]
struct FolderTally {
    modules: usize,
    bytes: usize,
    is_entry: bool,
}

// A box for each folder, as far as so many of its names.
fn folder_boxes(
    alloc: Global,
    overview: &Overview,
    paths: &[&str],
    colours: &FolderColours,
    depth: usize,
) -> Result<BoxList, AllocError> {
    let mut boxes = empty_folders(alloc, paths, colours, depth)?;
    let count = boxes.nodes.len();
    let tallies = tallies_of(alloc, overview, boxes.places.as_slice(), count)?;
    for (node, tally) in boxes.nodes.iter_mut().zip(&tallies) {
        tally.tell(alloc, node)?;
    }
    Ok(boxes)
}

// The boxes of folders, in the order in which they are found, with nothing in them.
fn empty_folders(
    alloc: Global,
    paths: &[&str],
    colours: &FolderColours,
    depth: usize,
) -> Result<BoxList, AllocError> {
    let places = folder_places(alloc, paths, depth)?;
    let mut nodes = Vec::new(alloc);
    for (path, place) in paths.iter().zip(&places) {
        if *place == nodes.len() {
            nodes.push(folder_box(alloc, path, depth, colours)?)?;
        }
    }
    Ok(BoxList {
        nodes,
        places,
        externals: 0,
    })
}

// The number of each path's folder, in the order in which folders are found.
fn folder_places(alloc: Global, paths: &[&str], depth: usize) -> Result<Vec<usize>, AllocError> {
    let mut known = BTreeMap::new(alloc);
    let mut places = Vec::new(alloc);
    for path in paths {
        let next = known.len();
        let place = *known.entry(folder_in(path, depth))?.or_insert(next);
        places.push(place)?;
    }
    Ok(places)
}

fn tallies_of(
    alloc: Global,
    overview: &Overview,
    places: &[usize],
    count: usize,
) -> Result<Vec<FolderTally>, AllocError> {
    let none = FolderTally {
        modules: 0,
        bytes: 0,
        is_entry: false,
    };
    let mut tallies = vec![in alloc; none; count]?;
    for (at, (input, place)) in overview.inputs.iter().zip(places).enumerate() {
        if let Some(tally) = tallies.get_mut(*place) {
            tally.add(input.bytes, is_entry(overview, at));
        }
    }
    Ok(tallies)
}

fn folder_box(
    alloc: Global,
    path: &str,
    depth: usize,
    colours: &FolderColours,
) -> Result<DrawnBox, AllocError> {
    let folder = folder_in(path, depth);
    let name = if folder.is_empty() { "./" } else { folder };
    let mut node = DrawnBox::new(alloc, BoxKind::Folder, name)?;
    node.colour = colours.of(path);
    Ok(node)
}

impl FolderTally {
    fn add(&mut self, bytes: usize, is_entry: bool) {
        self.modules = self.modules.saturating_add(1);
        self.bytes = self.bytes.saturating_add(bytes);
        self.is_entry = self.is_entry || is_entry;
    }

    fn tell(self, alloc: Global, node: &mut DrawnBox) -> Result<(), AllocError> {
        let mut note = counted(alloc, self.modules, "module")?;
        push_dotted(&mut note, size_text(alloc, self.bytes)?)?;
        node.note = note;
        node.bytes = self.bytes;
        node.is_entry = self.is_entry;
        Ok(())
    }
}

// Appends a text behind a dot.
fn push_dotted(text: &mut String, more: String) -> Result<(), AllocError> {
    text.push_str(" \u{b7} ")?;
    text.push_str(more.as_str())
}

// The lines between boxes; boxes for what is external are added.
fn links_of(
    alloc: Global,
    overview: &Overview,
    boxes: &mut BoxList,
) -> Result<Vec<DrawnLink>, AllocError> {
    let mut known = BTreeMap::new(alloc);
    let mut all = BTreeMap::new(alloc);
    for (from, input) in overview.inputs.iter().enumerate() {
        let asking = boxes.place_of(from);
        for import in &input.imports {
            let to = boxes.place_for(alloc, &mut known, &import.target)?;
            let is_lazy = matches!(import.kind, ImportKind::Dynamic);
            add_link(&mut all, (asking, to), is_lazy)?;
        }
    }
    listed_links(alloc, &all)
}

// Adds a line between two boxes: one that is dashed where each is.
fn add_link(
    all: &mut BTreeMap<(usize, usize), bool>,
    ends: (usize, usize),
    is_lazy: bool,
) -> Result<(), AllocError> {
    if ends.0 != ends.1 {
        let link = all.entry(ends)?.or_insert(is_lazy);
        *link = *link && is_lazy;
    }
    Ok(())
}

fn listed_links(
    alloc: Global,
    all: &BTreeMap<(usize, usize), bool>,
) -> Result<Vec<DrawnLink>, AllocError> {
    let mut links = Vec::new(alloc);
    for ((from, to), is_lazy) in all {
        links.push(DrawnLink {
            from: *from,
            to: *to,
            is_lazy: *is_lazy,
        })?;
    }
    Ok(links)
}

impl BoxList {
    // The box of a module.
    fn place_of(&self, input: usize) -> usize {
        self.places.get(input).copied().unwrap_or(0)
    }

    // The box of what is asked for; one for what is external is added, if it has none.
    fn place_for<'o>(
        &mut self,
        alloc: Global,
        known: &mut BTreeMap<&'o str, usize>,
        target: &'o ImportTarget,
    ) -> Result<usize, AllocError> {
        match target {
            ImportTarget::Input(input) => Ok(self.place_of(*input)),
            ImportTarget::External(name) => {
                let place = *known.entry(name.as_str())?.or_insert(self.nodes.len());
                self.add_external(alloc, name.as_str(), place)?;
                Ok(place)
            }
        }
    }

    // Adds the box of what is external, if it has none.
    fn add_external(&mut self, alloc: Global, name: &str, place: usize) -> Result<(), AllocError> {
        if place == self.nodes.len() {
            self.externals = self.externals.saturating_add(1);
            self.nodes
                .push(DrawnBox::new(alloc, BoxKind::External, name)?)?;
        }
        Ok(())
    }
}

fn title_of(alloc: Global, overview: &Overview) -> Result<String, AllocError> {
    match overview.outputs.as_slice() {
        [output] => String::from_str(alloc, overview.path_of(output.entry)),
        outputs => counted(alloc, outputs.len(), "bundle"),
    }
}

fn subtitle_of(alloc: Global, overview: &Overview, boxes: &BoxList) -> Result<String, AllocError> {
    let mut bytes: usize = 0;
    for input in &overview.inputs {
        bytes = bytes.saturating_add(input.bytes);
    }
    let count = overview.inputs.len();
    let mut subtitle = counted(alloc, count, "module")?;
    let inner = boxes.nodes.len().saturating_sub(boxes.externals);
    if inner < count {
        push_folders(alloc, &mut subtitle, inner)?;
    }
    push_dotted(&mut subtitle, size_text(alloc, bytes)?)?;
    push_dotted(&mut subtitle, counted(alloc, boxes.externals, "external")?)?;
    Ok(subtitle)
}

fn push_folders(alloc: Global, text: &mut String, count: usize) -> Result<(), AllocError> {
    let folders = format!(in alloc; " in {count} folders")?;
    text.push_str(folders.as_str())
}

impl DrawnGraph {
    /// Puts down which boxes are asked for from other blocks.
    pub(crate) fn mark_asked(&mut self, blocks: &NodeBlocks) {
        for link in &self.links {
            if blocks.of(link.from) != blocks.of(link.to)
                && let Some(node) = self.nodes.get_mut(link.to)
            {
                node.is_asked = true;
            }
        }
    }
}
