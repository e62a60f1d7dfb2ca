//! What names stand for, and what linking tells of modules. Modules are named by their numbers.

pub use bundle_link_index::target::{LinkModule, Setting, TargetRef};

/// What a module gives for a name (ECMA-262, 16.2.1.6.3 ResolveExport).
#[derive(Clone, Copy)]
pub enum ResolvedTo<'a> {
    /// One target.
    One(TargetRef<'a>),
    /// None.
    None,
    /// More than one; these two count as two. They are equal where they differ in the name bound by
    /// `import * as` that gives them.
    Two(TargetRef<'a>, TargetRef<'a>),
    /// None, but an external that is starred may hold it.
    ExternalStar,
}

/// What a use of an imported name means: the target, and how many of the reads around the name it
/// replaces with it.
#[derive(Clone, Copy)]
pub struct Meaning<'a> {
    pub target: TargetRef<'a>,
    pub steps: usize,
}

/// An external that the modules of a bundle ask for, with what of it is meant: these names, ascending,
/// and whether the whole is.
#[derive(Drop)]
pub struct External<'a> {
    pub specifier: &'a str,
    pub names: Vec<&'a str>,
    pub whole: bool,
}

/// A CommonJS module that a module imports or re-exports, with what of it is meant there: these names,
/// ascending, and whether the whole is.
#[derive(Drop)]
pub struct Loaded<'a> {
    pub which: usize,
    pub names: Vec<&'a str>,
    pub whole: bool,
}

/// What is wrong with a bundle's modules.
#[derive(Clone, Copy, PartialEq, Eq, Debug)]
pub enum FaultKind {
    /// A literal call of `require` is of the entry.
    RequiredEntry,
    /// One is of a module with an import or export declaration or `import.meta`.
    RequiredEsModule,
    /// An `await` stands outside functions in a CommonJS module.
    AwaitInCommonJs,
    /// `export * from` a CommonJS module.
    StarOfCommonJs,
    /// A name is asked for that is given not at all,
    MissingExport,
    /// more than once,
    AmbiguousExport,
    /// or only perhaps by an external that is starred.
    ExternalStarOnly,
    /// The object of its namespace is meant, and it stars an external.
    NamespaceOverExternalStar,
    /// An import or re-export of an external, where the bundle is one function's call.
    ExternalUnderIife,
    /// An `arguments` that nothing binds, where the bundle is one function's call.
    ArgumentsUnderIife,
}

/// A fault: what is wrong, in which module, and with which name or specifier, which is empty where none
/// is told.
#[derive(Clone, Copy, PartialEq, Eq, Debug)]
pub struct LinkFault<'a> {
    pub kind: FaultKind,
    pub which: usize,
    pub name: &'a str,
}
