//! What stands for the requests of a module.

ghost use Rattle.std.specs.Prelude.{◌≤◌};

use crate::bond::{Bond, Seats};
use crate::facade::Facade;
use crate::graph::Asker;
use crate::lead::RequestLead;
use crate::numbers::key_of;
use crate::settings::{BundleSettings, OutputFormat};
use crate::teller::{Teller, TextPlace};
use crate::unit::UnitLink;
use crate::unit_table::UnitTable;
use gutsirava_report::Note;
use gutsirava_sources::{RequestForm, RequestParts, SourceKind, SourceRequest};
use std::alloc::{AllocError, Global};

/// A request of a file.
#[derive(Clone, Copy)]
pub(crate) struct Wish<'x, 'a> {
    pub(crate) asker: Asker<'x>,
    pub(crate) request: &'x SourceRequest<'a>,
    /// Which parts its declaration asks for.
    pub(crate) parts: RequestParts,
    /// The number of the request.
    pub(crate) number: usize,
    /// Where its specifier stands in the text of the file.
    pub(crate) at: usize,
}

impl<'x> Wish<'x, '_> {
    // Where the specifier stands, with its quotes.
    fn place(self) -> TextPlace<'x> {
        TextPlace {
            path: self.asker.path,
            text: self.asker.text,
            at: self.at,
            length: self.request.specifier.len().saturating_add(2),
        }
    }

    // The link of the request, which leads to this module.
    fn link(self, target: Option<usize>) -> UnitLink {
        let TextPlace { at, length, .. } = self.place();
        UnitLink {
            asking: self.request.asking,
            at,
            length,
            target,
        }
    }
}

/// What stands for a request, and where it leads.
#[derive(Drop)]
pub(crate) struct BondedRequest {
    pub(crate) bond: Bond,
    pub(crate) link: UnitLink,
}

// What a request is to name in the tree.
#[derive(Drop)]
enum RequestTarget {
    Unit(usize),
    /// The text stays, or stands in the place of the specifier.
    Text(String),
}

/// What stands for a request that leads to this, and where it leads.
pub(crate) fn bonded(
    teller: &mut Teller<'_>,
    table: &mut UnitTable,
    settings: &BundleSettings,
    wish: Wish<'_, '_>,
    lead: RequestLead,
) -> Result<BondedRequest, AllocError>
    ensures { teller.old.messages.errors ≤ teller.new.messages.errors }
{
    let target = request_target(teller, table, settings, wish, lead)?;
    table.bonded_to(wish, target)
}

// What a request is to name that leads to this.
fn request_target(
    teller: &mut Teller<'_>,
    table: &mut UnitTable,
    settings: &BundleSettings,
    wish: Wish<'_, '_>,
    lead: RequestLead,
) -> Result<RequestTarget, AllocError>
    ensures { teller.old.messages.errors ≤ teller.new.messages.errors }
{
    match lead {
        RequestLead::Unit(unit) => unit_target(teller, table, wish, unit),
        RequestLead::Left { text, is_told } => {
            if is_told {
                teller.tell_left(wish.request.specifier, wish.place())?;
            }
            left_target(teller, table, settings, wish, text)
        }
        RequestLead::Stays => table.stay(wish.request.specifier),
        RequestLead::Nowhere { why, notes } => refuse(teller, table, wish, why, notes),
    }
}

// The same of what leads to a module. Only for CommonJS modules is an ECMAScript module in the registry.
fn unit_target(
    teller: &mut Teller<'_>,
    table: &mut UnitTable,
    wish: Wish<'_, '_>,
    unit: usize,
) -> Result<RequestTarget, AllocError>
    ensures { teller.old.messages.errors ≤ teller.new.messages.errors }
{
    if wish.request.asking != RequestForm::Require
        || wish.asker.kind == SourceKind::CommonJs
        || table.kind_of(unit) == SourceKind::CommonJs
    {
        return Ok(RequestTarget::Unit(unit));
    }
    if wish.request.is_tried {
        return table.stay(wish.request.specifier);
    }
    let specifier = wish.request.specifier;
    let why = format!(in teller.alloc;
        "require() of the ECMAScript module {specifier:?} by an ECMAScript module, which import is for"
    )?;
    let notes = Vec::new(teller.alloc);
    refuse(teller, table, wish, why, notes)
}

// The same of what is left under this text: in a module the text; in a script what stands for it.
fn left_target(
    teller: &mut Teller<'_>,
    table: &mut UnitTable,
    settings: &BundleSettings,
    wish: Wish<'_, '_>,
    text: String,
) -> Result<RequestTarget, AllocError>
    ensures { teller.old.messages.errors ≤ teller.new.messages.errors }
{
    table.leave(text.as_str())?;
    match outer_expression(teller.alloc, settings, wish.request, text.as_str())? {
        Some(expression) => {
            outer_target(teller, table, wish, text.as_str(), expression.as_str())
        }
        None => Ok(RequestTarget::Text(text)),
    }
}

// The same of what is this expression in a script.
fn outer_target(
    teller: &mut Teller<'_>,
    table: &mut UnitTable,
    wish: Wish<'_, '_>,
    text: &str,
    expression: &str,
) -> Result<RequestTarget, AllocError>
    ensures { teller.old.messages.errors ≤ teller.new.messages.errors }
{
    if wish.parts.star {
        let specifier = wish.request.specifier;
        let why = format!(in teller.alloc;
            "export * of {specifier:?}, which is left, in a script: its names are not known"
        )?;
        let notes = Vec::new(teller.alloc);
        return refuse(teller, table, wish, why, notes);
    }
    Ok(RequestTarget::Unit(table.outer_unit(text, expression)?))
}

// Tells why a request leads nowhere. Its specifier stays.
fn refuse(
    teller: &mut Teller<'_>,
    table: &mut UnitTable,
    wish: Wish<'_, '_>,
    why: String,
    notes: Vec<Note>,
) -> Result<RequestTarget, AllocError>
    ensures { teller.old.messages.errors ≤ teller.new.messages.errors }
{
    teller.fault(wish.place(), why, notes)?;
    table.stay(wish.request.specifier)
}

// What stands in a script for what is left under this text; none where the text does.
fn outer_expression(
    alloc: Global,
    settings: &BundleSettings,
    request: &SourceRequest<'_>,
    text: &str,
) -> Result<Option<String>, AllocError> {
    let asking = request.asking;
    if settings.format != OutputFormat::Iife || asking == RequestForm::Dynamic {
        return Ok(None);
    }
    if let Some(global) = global_of(settings, request.specifier) {
        return Ok(Some(String::from_str(alloc, global)?));
    }
    if asking == RequestForm::Import {
        return Ok(Some(format!(in alloc; "require({text:?})")?));
    }
    Ok(None)
}

impl UnitTable {
    // The text of a request stays.
    fn stay(&mut self, text: &str) -> Result<RequestTarget, AllocError> {
        self.leave(text)?;
        Ok(RequestTarget::Text(String::from_str(self.alloc, text)?))
    }

    // What stands for a request that names this, and where it leads.
    fn bonded_to(
        &mut self,
        wish: Wish<'_, '_>,
        target: RequestTarget,
    ) -> Result<BondedRequest, AllocError> {
        match target {
            RequestTarget::Text(text) => Ok(BondedRequest {
                bond: Bond::Left(text),
                link: wish.link(None),
            }),
            RequestTarget::Unit(unit) => Ok(BondedRequest {
                bond: self.bond_to(wish, unit)?,
                link: wish.link(Some(unit)),
            }),
        }
    }

    // What stands for a request that leads to a module.
    fn bond_to(&mut self, wish: Wish<'_, '_>, unit: usize) -> Result<Bond, AllocError> {
        let kind = self.kind_of(unit);
        match wish.request.asking {
            RequestForm::Import => self.bond_parts(wish, unit, kind),
            RequestForm::Require if kind == SourceKind::CommonJs => {
                Bond::to_module(self.alloc, unit)
            }
            RequestForm::Require => {
                self.asks_modules = true;
                let got = self.facade(unit, Facade::Got)?;
                Bond::to_module(self.alloc, got)
            }
            RequestForm::Dynamic => self.dynamic(wish, unit, kind),
        }
    }

    // What stands for an `import` or `export` of a module.
    fn bond_parts(
        &mut self,
        wish: Wish<'_, '_>,
        unit: usize,
        kind: SourceKind,
    ) -> Result<Bond, AllocError> {
        let parts = wish.parts;
        if kind == SourceKind::EcmaScript && !parts.namespace {
            return Bond::to_module(self.alloc, unit);
        }
        let seats = match kind {
            SourceKind::EcmaScript => self.module_seats(unit)?,
            SourceKind::CommonJs => {
                let is_whole = wish.asker.is_node || self.is_data(unit);
                self.common_js_seats(is_whole, parts, unit)?
            }
        };
        Bond::to_parts(self.alloc, seats)
    }

    // The modules that stand for an ECMAScript module whose namespace is asked for as a value.
    fn module_seats(&mut self, unit: usize) -> Result<Seats, AllocError> {
        let mut seats = Seats::of(unit);
        seats.namespace = self.facade(unit, Facade::Namespace)?;
        Ok(seats)
    }

    // The modules that stand between a CommonJS module and one that imports it.
    fn common_js_seats(
        &mut self,
        is_whole: bool,
        parts: RequestParts,
        unit: usize,
    ) -> Result<Seats, AllocError> {
        let mut seats = Seats::of(unit);
        if parts.default {
            let facade = chosen(is_whole, Facade::NodeDefault, Facade::BundlerDefault);
            seats.default = self.facade(unit, facade)?;
        } else {
            seats.run = self.facade(unit, Facade::Run)?;
        }
        if parts.namespace {
            let facade = chosen(is_whole, Facade::NodeNamespace, Facade::BundlerNamespace);
            seats.namespace = self.facade(unit, facade)?;
        }
        if parts.star {
            seats.star = self.facade(unit, Facade::Names)?;
        }
        Ok(seats)
    }

    // What stands for an `import()`.
    fn dynamic(
        &mut self,
        wish: Wish<'_, '_>,
        unit: usize,
        kind: SourceKind,
    ) -> Result<Bond, AllocError> {
        let is_whole = wish.asker.is_node || self.is_data(unit);
        let asking = wish.asker.kind;
        if asking == SourceKind::CommonJs && kind == SourceKind::EcmaScript {
            self.asks_modules = true;
        }
        let load = self.facade(unit, load_facade(asking, kind, is_whole))?;
        match asking {
            SourceKind::EcmaScript => Bond::to_load(self.alloc, load, wish.number),
            SourceKind::CommonJs => Ok(Bond::Loader(key_of(self.alloc, load)?)),
        }
    }
}

// What loads a module of this kind for one of another.
fn load_facade(asking: SourceKind, kind: SourceKind, is_whole: bool) -> Facade {
    match (asking, kind) {
        (SourceKind::EcmaScript, SourceKind::EcmaScript) => Facade::LoadModule,
        (SourceKind::EcmaScript, SourceKind::CommonJs) => {
            chosen(is_whole, Facade::NodeLoad, Facade::BundlerLoad)
        }
        (SourceKind::CommonJs, SourceKind::CommonJs) => {
            chosen(is_whole, Facade::NodeLoader, Facade::BundlerLoader)
        }
        (SourceKind::CommonJs, SourceKind::EcmaScript) => Facade::ModuleLoader,
    }
}

// What stands for a specifier in a script, where that is given.
fn global_of<'s>(settings: &'s BundleSettings, specifier: &str) -> Option<&'s str> {
    for (name, global) in &settings.globals {
        if name.as_str() == specifier {
            return Some(global.as_str());
        }
    }
    None
}

fn chosen(is_whole: bool, whole: Facade, part: Facade) -> Facade {
    if is_whole { whole } else { part }
}
