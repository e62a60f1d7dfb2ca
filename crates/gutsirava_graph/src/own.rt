//! The modules of the command's own are read, and made trees for the linker, where all files are read.

ghost use Rattle.std.specs.Prelude.{◌≤◌};

use crate::bond::Bond;
use crate::facade::{Facade, HELPER, NAMESPACE, PUT, REGISTRY, TARGET};
use crate::graph::MOST_DEPTH;
use crate::reading::{push_bond, tree_of};
use crate::teller::Teller;
use crate::trees::TreeMaker;
use crate::unit::UnitOrigin;
use crate::unit_table::UnitTable;
use bundle_syntax::ExportMetadata;
use gutsirava_sources::{Placed, Seat, SourceKind, SourceOutline, outline_of, read_as};
use std::alloc::AllocError;

// The text of a module of the command's own.
#[derive(Drop)]
struct OwnText {
    text: String,
    kind: SourceKind,
    /// The module for which it stands.
    target: usize,
}

/// Reads the modules of the command's own, those too that are found on the way, as long as not too much is wrong.
pub(crate) fn read_own<T: TreeMaker>(
    teller: &mut Teller<'_>,
    table: &mut UnitTable,
    trees: &mut T,
) -> Result<(), AllocError>
    ensures { teller.old.messages.errors ≤ teller.new.messages.errors }
{
    for at in 0..usize::MAX {
        if at >= table.units.len() || teller.messages.is_full() {
            break;
        }
        read_own_unit(teller, table, trees, at)?;
    }
    Ok(())
}

// Reads a module, where it is one of the command's own.
fn read_own_unit<T: TreeMaker>(
    teller: &mut Teller<'_>,
    table: &mut UnitTable,
    trees: &mut T,
    at: usize,
) -> Result<(), AllocError>
    ensures { teller.old.messages.errors ≤ teller.new.messages.errors }
{
    let Some(own) = table.own_text(at)? else {
        return Ok(());
    };
    if table.own_tree(trees, at, &own)? {
        Ok(())
    } else {
        teller.tell_internal(own.text.as_str())
    }
}

impl UnitTable {
    // The text of a module of the command's own; none of a file's.
    fn own_text(&self, at: usize) -> Result<Option<OwnText>, AllocError> {
        let Some(unit) = self.units.get(at) else {
            return Ok(None);
        };
        let kind = unit.kind;
        match &unit.origin {
            UnitOrigin::File(_) => Ok(None),
            UnitOrigin::Facade { facade, target } => Ok(Some(OwnText {
                text: self.facade_text(*facade, *target)?,
                kind,
                target: *target,
            })),
            UnitOrigin::Text(text) => Ok(Some(OwnText {
                text: text.clone()?,
                kind,
                target: 0,
            })),
        }
    }

    // Makes the tree of a text of the command's own; whether it is that of a module.
    fn own_tree<T: TreeMaker>(
        &mut self,
        trees: &mut T,
        at: usize,
        own: &OwnText,
    ) -> Result<bool, AllocError> {
        let Ok(source) = read_as(self.alloc, own.text.as_str(), own.kind) else {
            return Ok(false);
        };
        let Ok(placed) = source.pieces(self.alloc, MOST_DEPTH) else {
            return Ok(false);
        };
        self.listed_tree(trees, at, &placed, own.kind, own.target)
    }

    // The same of its list.
    fn listed_tree<T: TreeMaker>(
        &mut self,
        trees: &mut T,
        at: usize,
        placed: &Placed<'_>,
        kind: SourceKind,
        target: usize,
    ) -> Result<bool, AllocError> {
        let outline = outline_of(self.alloc, placed.pieces.as_slice())?;
        let bonds = self.own_bonds(&outline, target)?;
        let notes = ExportMetadata::default();
        let seat = own_seat(kind, &notes);
        let made = tree_of(self.alloc, trees, at, placed, &outline, &bonds, &[], seat)?;
        Ok(made.is_some())
    }

    // What stands for each request of a text of the command's own.
    fn own_bonds(
        &mut self,
        outline: &SourceOutline<'_>,
        target: usize,
    ) -> Result<Vec<Bond>, AllocError> {
        let mut bonds = Vec::new(self.alloc);
        for request in &outline.requests {
            let bond = self.own_bond(request.specifier, target)?;
            push_bond(&mut bonds, bond)?;
        }
        Ok(bonds)
    }

    fn own_bond(&mut self, specifier: &str, target: usize) -> Result<Bond, AllocError> {
        match self.named_unit(specifier, target)? {
            Some(unit) => Bond::to_module(self.alloc, unit),
            None => Bond::to_left(self.alloc, specifier),
        }
    }

    // The module that a text of the command's own names for a target.
    fn named_unit(&mut self, specifier: &str, target: usize) -> Result<Option<usize>, AllocError> {
        let unit = match specifier {
            TARGET => target,
            HELPER => self.facade(0, Facade::Helper)?,
            REGISTRY => self.facade(0, Facade::Registry)?,
            NAMESPACE => self.facade(target, Facade::Namespace)?,
            _ => {
                let number = specifier.strip_prefix(PUT);
                match number.and_then(|number| number.parse::<usize>().ok()) {
                    Some(module) => self.facade(module, Facade::Put)?,
                    None => return Ok(None),
                }
            }
        };
        Ok(Some(unit))
    }
}

// What a module of the command's own is.
fn own_seat(kind: SourceKind, notes: &ExportMetadata) -> Seat<'_> {
    Seat {
        kind,
        keeps_meta: false,
        meta_url: None,
        is_main: false,
        is_data: false,
        keeps_origins: false,
        notes,
    }
}
