//! The settings of a bundle.

ghost use Rattle.std.specs.Prelude.{◌≡◌, true, false, []};

use std::alloc::Global;

/// What a bundle is written as.
#[derive(Clone, Copy, PartialEq, Eq, Hash, Debug, Default)]
pub enum ModuleType {
    /// An ECMAScript module.
    #[default]
    Es,
    /// A script whose whole text is one function expression that is called at once.
    Iife,
}

/// The settings of a bundle.
#[derive(Debug, Drop)]
pub struct Config {
    /// Whether a call of `require` with a literal loads a module.
    pub require: bool,
    /// Whether the names of the bundle stay as the modules have them, clashes included.
    pub disable_hygiene: bool,
    /// The specifiers that are left to the loader of the bundle.
    pub external_modules: Vec<String>,
    /// What the bundle is written as.
    pub module: ModuleType,
    /// How many modules may be kept.
    pub max_modules: u32,
}

impl Config {
    /// The settings to start from: an ES module with no external modules, no `require`, renaming
    /// where names clash, and no limit on the modules but the largest `u32`. It takes no memory.
    pub fn new(alloc: Global) -> Config
        ensures require { result.require ≡ false }
        ensures hygiene { result.disable_hygiene ≡ false }
        ensures external { result.external_modules.items ≡ [] }
        ensures es { result.module ≡ ModuleType.Es }
        ensures limit { result.max_modules ≡ 4294967295 }
    {
        Config {
            module: ModuleType::default(),
            require: false,
            disable_hygiene: false,
            external_modules: Vec::new(alloc),
            max_modules: u32::MAX,
        }
    }
}
