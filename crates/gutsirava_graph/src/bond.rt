//! What stands for a request in the tree of the module that asks.

use crate::numbers::key_of;
use gutsirava_sources::{PartKeys, Stand};
use std::alloc::{AllocError, Global};

/// What stands for a request, with texts of its own.
pub(crate) enum Bond {
    Left(String),
    Module(String),
    Parts {
        names: String,
        star: String,
        run: String,
        default: String,
        namespace: String,
    },
    Load(String, String),
    Loader(String),
}

/// Lets go of it. Written by hand, so that who lets one go calls this function.
impl Drop for Bond {
    fn drop(self) {
        match self {
            Bond::Left(_text) => {}
            Bond::Module(_key) => {}
            Bond::Parts {
                names: _names,
                star: _star,
                run: _run,
                default: _default,
                namespace: _namespace,
            } => {}
            Bond::Load(_key, _name) => {}
            Bond::Loader(_key) => {}
        }
    }
}

/// The modules that stand for the parts of a request; the module itself, where a part is not asked for.
#[derive(Clone, Copy)]
pub(crate) struct Seats {
    pub(crate) names: usize,
    pub(crate) star: usize,
    pub(crate) run: usize,
    pub(crate) default: usize,
    pub(crate) namespace: usize,
}

impl Seats {
    /// The module itself, for all parts.
    pub(crate) fn of(unit: usize) -> Seats {
        Seats {
            names: unit,
            star: unit,
            run: unit,
            default: unit,
            namespace: unit,
        }
    }
}

impl Bond {
    /// The text, which is left.
    pub(crate) fn to_left(alloc: Global, text: &str) -> Result<Bond, AllocError> {
        Ok(Bond::Left(String::from_str(alloc, text)?))
    }

    pub(crate) fn to_module(alloc: Global, unit: usize) -> Result<Bond, AllocError> {
        Ok(Bond::Module(key_of(alloc, unit)?))
    }

    pub(crate) fn to_parts(alloc: Global, seats: Seats) -> Result<Bond, AllocError> {
        Ok(Bond::Parts {
            names: key_of(alloc, seats.names)?,
            star: key_of(alloc, seats.star)?,
            run: key_of(alloc, seats.run)?,
            default: key_of(alloc, seats.default)?,
            namespace: key_of(alloc, seats.namespace)?,
        })
    }

    /// The function that loads a module, by the number of the request.
    pub(crate) fn to_load(alloc: Global, unit: usize, request: usize) -> Result<Bond, AllocError> {
        let name = format!(in alloc; "\0load{request}")?;
        Ok(Bond::Load(key_of(alloc, unit)?, name))
    }

    fn stand(&self) -> Stand<'_> {
        match self {
            Bond::Left(text) => Stand::Left(text.as_str()),
            Bond::Module(key) => Stand::Module(key.as_str()),
            Bond::Parts {
                names,
                star,
                run,
                default,
                namespace,
            } => Stand::Parts(PartKeys {
                names: names.as_str(),
                star: star.as_str(),
                run: run.as_str(),
                default: default.as_str(),
                namespace: namespace.as_str(),
            }),
            Bond::Load(key, name) => Stand::Load(key.as_str(), name.as_str()),
            Bond::Loader(key) => Stand::Loader(key.as_str()),
        }
    }
}

/// What stands for each request.
pub(crate) fn stands_of(alloc: Global, bonds: &[Bond]) -> Result<Vec<Stand<'_>>, AllocError> {
    let mut stands = Vec::with_capacity(alloc, bonds.len())?;
    for bond in bonds {
        stands.push(bond.stand())?;
    }
    Ok(stands)
}
