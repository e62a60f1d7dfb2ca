//! What names stand for, and modules to link. Modules are named by their numbers.

use bundle_link_tables::{Tables, Taken};
use std::collections::BTreeMap;

/// What a name can stand for.
#[derive(Clone, Copy, PartialEq, Eq, Hash, PartialOrd, Ord)]
pub enum TargetRef<'a> {
    /// A declaration of a module.
    Declared {
        which: usize,
        name: &'a str,
    },
    /// The namespace of a module.
    Namespace {
        which: usize,
    },
    /// What is taken of an external.
    External {
        specifier: &'a str,
        taken: Taken<'a>,
    },
    /// What the module `taker` takes of a CommonJS module.
    CommonJs {
        taker: usize,
        which: usize,
        taken: Taken<'a>,
    },
}

/// A module to link: its tables, and the number of the module to which each of its requests leads.
#[derive(Clone, Copy)]
pub struct LinkModule<'t, 'a> {
    pub tables: &'t Tables<'a>,
    pub leads: &'t BTreeMap<String, usize>,
}

/// How a bundle is linked: whether literal calls of `require` are, and whether it is one function's call.
#[derive(Clone, Copy)]
pub struct Setting {
    pub require: bool,
    pub iife: bool,
}
