//! The tables of a module: what it asks of others, what it gives, and what its statements use of it.

/// What is taken of another module: one of its names, or the whole. `import d from` takes the name
/// `default`.
#[derive(Clone, Copy, PartialEq, Eq, Hash, PartialOrd, Ord, Debug)]
pub enum Taken<'a> {
    Named(&'a str),
    Whole,
}

/// An import: the name that it binds, the module that it asks for, and what it takes of that module.
#[derive(Clone, Copy, PartialEq, Eq, Debug)]
pub struct ImportRef<'a> {
    pub local: &'a str,
    pub specifier: &'a str,
    pub taken: Taken<'a>,
}

/// Where an exported name comes from. A local export of a name that was imported by name is given on, and
/// so is `Indirect`; one of a name bound by `import * as` is `Local`.
#[derive(Clone, Copy, PartialEq, Eq, Debug)]
pub enum Origin<'a> {
    /// From this name of the module's own top.
    Local {
        name: &'a str,
    },
    /// From another module.
    Indirect {
        specifier: &'a str,
        taken: Taken<'a>,
    },
}

/// An export of one name.
#[derive(Clone, Copy, PartialEq, Eq, Debug)]
pub struct Export<'a> {
    pub name: &'a str,
    pub origin: Origin<'a>,
}

/// A name that is asked of another module.
#[derive(Clone, Copy, PartialEq, Eq, Debug)]
pub struct AskedName<'a> {
    pub specifier: &'a str,
    pub name: &'a str,
}

/// A literal call of `require`, as `require('text')`, where nothing binds `require`.
#[derive(Clone, Copy, PartialEq, Eq, Debug)]
pub struct RequireCall<'a> {
    pub place: usize,
    pub specifier: &'a str,
}

/// A use of a name that an import binds, in an own statement: the place of the identifier, the name, and
/// the reads `.x` around it that may be static, innermost first. These are `count` ones of the table's
/// `reads`, from `first_read` on.
#[derive(Clone, Copy, PartialEq, Eq, Debug)]
pub struct Use<'a> {
    pub place: usize,
    pub local: &'a str,
    pub first_read: usize,
    pub count: usize,
}

/// A member expression with a plain word, neither written to nor the base of an optional chain: where it
/// begins, and the word.
#[derive(Clone, Copy, PartialEq, Eq, Debug)]
pub struct MemberRead<'a> {
    pub place: usize,
    pub name: &'a str,
}

/// An import or export that asks for another module.
#[derive(Clone, Copy, PartialEq, Eq, Debug)]
pub struct Source<'a> {
    pub specifier: &'a str,
    pub is_external: bool,
}

/// The tables of a module, read as an ECMAScript module. All lists stand in the order of the source.
#[derive(Drop)]
pub struct Tables<'a> {
    /// What it asks to be loaded, each text once: first what imports and exports ask for, and then the
    /// literal calls of `require`.
    pub requests: Vec<&'a str>,
    pub imports: Vec<ImportRef<'a>>,
    pub exports: Vec<Export<'a>>,
    /// The names that imports and indirect exports ask of other modules, in the order of the source.
    pub asked: Vec<AskedName<'a>>,
    /// What `export * from` asks for, each text once.
    pub stars: Vec<&'a str>,
    /// Each import or export that asks for a module, external or not.
    pub sources: Vec<Source<'a>>,
    /// The literal calls of `require` that are linked: all that are of no external, where `require` is on.
    pub calls: Vec<RequireCall<'a>>,
    pub uses: Vec<Use<'a>>,
    pub reads: Vec<MemberRead<'a>>,
    /// It has neither an import or export declaration nor `import.meta`.
    pub is_script: bool,
    pub has_import_meta: bool,
    /// A `require`, `module` or `exports` stands in it that nothing binds.
    pub names_common_js: bool,
    /// An `await` or `for await` stands in it outside functions. Static blocks and values of fields are
    /// outside functions.
    pub awaits: bool,
    /// An `arguments` stands in it that nothing binds.
    pub has_free_arguments: bool,
}

/// What is wrong with a tree by itself.
#[derive(Clone, Copy, PartialEq, Eq, Debug)]
pub enum FileFault<'a> {
    /// Two exports have this name.
    DoubledExport { name: &'a str },
    /// An export list without `from` names what the module's top does not bind, or has a string there.
    UndeclaredExport { name: &'a str },
    /// A `with` statement stands in it.
    With,
}
