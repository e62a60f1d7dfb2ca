//! Where the requests of a module lead.

ghost use Rattle.std.specs.Prelude.{◌≤◌};

use crate::facade::Facade;
use crate::graph::{FoundUnit, Graph};
use crate::settings::BundleSettings;
use crate::teller::Teller;
use gutsirava_path::{Loader, Specifier, relative};
use gutsirava_report::Note;
use gutsirava_resolve::{
    FileSystem, ResolutionError, ResolveRequest as Wanted, Resolved, TargetPlatform,
};
use gutsirava_sources::{RequestForm, SourceRequest};
use std::alloc::{AllocError, Global};

/// So many paths are told where none of them is a file.
const MOST_TRIED: usize = 6;

/// What a request leads to.
#[derive(Drop)]
pub(crate) enum RequestLead {
    /// A module.
    Unit(usize),
    /// What is left under this text; whether that is told.
    Left { text: String, is_told: bool },
    /// Nothing, and its specifier stays.
    Stays,
    /// Nothing, which is told: why, and what is noted of it.
    Nowhere { why: String, notes: Vec<Note> },
}

impl<'s, F: FileSystem + Drop> Graph<'s, F> {
    /// What a request of the file at a path leads to.
    pub(crate) fn lead(
        &mut self,
        importer: &str,
        request: &SourceRequest<'_>,
    ) -> Result<RequestLead, AllocError>
        ensures { self.old.teller.messages.errors ≤ self.new.teller.messages.errors }
    {
        let wanted = Wanted {
            specifier: request.specifier,
            importer,
            loader: loader_of(request.asking),
        };
        let resolved = self.resolver.resolve(wanted);
        match &resolved {
            Ok(resolution) => self.lead_resolved(request, resolution),
            Err(error) => unresolved_lead(&self.teller, request, error),
        }
    }

    // The same of one that was resolved.
    fn lead_resolved(
        &mut self,
        request: &SourceRequest<'_>,
        resolution: &Resolved,
    ) -> Result<RequestLead, AllocError>
        ensures { self.old.teller.messages.errors ≤ self.new.teller.messages.errors }
    {
        match resolution {
            Resolved::File { path, suffix } => self.lead_file(path, suffix),
            Resolved::Empty(_) => Ok(RequestLead::Unit(self.table.facade(0, Facade::Empty)?)),
            Resolved::Builtin(_) | Resolved::External(_) | Resolved::ExternalFile(_) => {
                outside_lead(self.table.alloc, self.settings, request, resolution)
            }
        }
    }

    // The same of the file at a path.
    fn lead_file(&mut self, path: &str, suffix: &str) -> Result<RequestLead, AllocError>
        ensures { self.old.teller.messages.errors ≤ self.new.teller.messages.errors }
    {
        if path.ends_with(".node") {
            return left_path(self.table.alloc, self.settings, path);
        }
        match self.discover(path, suffix)? {
            FoundUnit::Unit(unit) => Ok(RequestLead::Unit(unit)),
            FoundUnit::Unread(why) => Ok(RequestLead::Nowhere {
                why,
                notes: Vec::new(self.table.alloc),
            }),
        }
    }
}

// What a request of what is left leads to.
fn outside_lead(
    alloc: Global,
    settings: &BundleSettings,
    request: &SourceRequest<'_>,
    resolution: &Resolved,
) -> Result<RequestLead, AllocError> {
    let is_told = match resolution {
        Resolved::ExternalFile(path) => return left_path(alloc, settings, path),
        Resolved::Builtin(_) => matches!(settings.platform, TargetPlatform::Browser),
        _ => is_address(request.specifier, loader_of(request.asking)),
    };
    let text = String::from_str(alloc, request.specifier)?;
    Ok(RequestLead::Left { text, is_told })
}

// What a request of a file that is left leads to: its path from where the bundle lies.
fn left_path(
    alloc: Global,
    settings: &BundleSettings,
    path: &str,
) -> Result<RequestLead, AllocError> {
    let text = relative(alloc, settings.output_folder.as_str(), path)?;
    Ok(RequestLead::Left {
        text,
        is_told: false,
    })
}

// What a request leads to that is not resolved.
fn unresolved_lead(
    teller: &Teller<'_>,
    request: &SourceRequest<'_>,
    error: &ResolutionError,
) -> Result<RequestLead, AllocError> {
    match error {
        ResolutionError::Memory(_) => Err(AllocError),
        _ if request.is_tried => Ok(RequestLead::Stays),
        error => {
            let notes = tried_notes(teller, error)?;
            let why = format!(in teller.alloc; "{error}")?;
            Ok(RequestLead::Nowhere { why, notes })
        }
    }
}

// What is noted of a request that is not resolved.
fn tried_notes(teller: &Teller<'_>, error: &ResolutionError) -> Result<Vec<Note>, AllocError> {
    let mut notes = Vec::new(teller.alloc);
    if let ResolutionError::NotFound { tried, .. } = error
        && !tried.is_empty()
    {
        notes.push(Note {
            text: tried_text(teller, tried.as_slice())?,
            place: None,
        })?;
    }
    Ok(notes)
}

// The paths that were tried, the first ones of them.
fn tried_text(teller: &Teller<'_>, tried: &[String]) -> Result<String, AllocError> {
    let mut text = String::from_str(teller.alloc, "no file is at ")?;
    for (number, path) in tried.iter().take(MOST_TRIED).enumerate() {
        if number > 0 {
            text.push_str(", ")?;
        }
        text.push_str(teller.shown(path.as_str())?.as_str())?;
    }
    if tried.len() > MOST_TRIED {
        text.push_str(", ..")?;
    }
    Ok(text)
}

fn is_address(specifier: &str, loader: Loader) -> bool {
    matches!(Specifier::of(specifier, loader), Specifier::Url(_))
}

fn loader_of(asking: RequestForm) -> Loader {
    match asking {
        RequestForm::Import | RequestForm::Dynamic => Loader::EcmaScript,
        RequestForm::Require => Loader::CommonJs,
    }
}
