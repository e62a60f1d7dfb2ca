//! The modules that stand between a module and those that ask for it. Between a CommonJS module and those that import it,
//! so that what it gives is what Node and bundlers give: its default export is all of its exports or their `default`, and
//! it runs where its import stands. Between an ECMAScript module and CommonJS modules, by a registry of namespaces.

use crate::tables::GivenNames;
use gutsirava_path::{extension, file_name, folder_of};
use gutsirava_sources::SourceKind;
use std::alloc::{AllocError, Global};

/// What a module between two others does.
#[derive(Clone, Copy, Debug, PartialEq, Eq, PartialOrd, Ord)]
pub(crate) enum Facade {
    /// It runs the target.
    Run,
    /// Its default export is all that the target exports.
    NodeDefault,
    /// The same, or the property `default` of a target that was made of an ECMAScript module (`__esModule`).
    BundlerDefault,
    /// It exports `namespace`, an object with the default export and all properties.
    NodeNamespace,
    BundlerNamespace,
    /// It exports the names that a CommonJS module gives to `export *`.
    Names,
    /// It exports `namespace`, an object with the names of an ECMAScript module as they are at that time.
    Namespace,
    /// It exports `load`, which gives the promise of the namespace of an ECMAScript module.
    LoadModule,
    /// The same of a CommonJS module, which runs at that call.
    NodeLoad,
    BundlerLoad,
    /// The same for CommonJS modules that ask: it is that function.
    NodeLoader,
    BundlerLoader,
    /// The same of an ECMAScript module, for CommonJS modules that ask.
    ModuleLoader,
    /// It puts the namespace of an ECMAScript module into the registry.
    Put,
    /// What it exports is what `require` gives for an ECMAScript module that is in the registry.
    Got,
    /// The registry: an object for namespaces.
    Registry,
    /// It exports `namespaceOf`, which makes the object for others.
    Helper,
    /// It is empty.
    Empty,
}

/// The specifiers by which they ask for their target, for its namespace, for the helper and the registry; and the front
/// of one that puts a module, by its number, into the registry.
pub(crate) const TARGET: &str = "target";

pub(crate) const NAMESPACE: &str = "namespace";

pub(crate) const HELPER: &str = "helper";

pub(crate) const REGISTRY: &str = "registry";

pub(crate) const PUT: &str = "put ";

const NAMESPACE_OF: &str = "export function namespaceOf(exports, isNode) {
  if (!isNode && exports && exports.__esModule) return exports;
  const isObject = exports !== null && (typeof exports === \"object\" || typeof exports === \"function\");
  const keys = new Set(isObject ? Object.keys(exports) : []);
  if (isObject && exports.__esModule) keys.add(\"__esModule\");
  const namespace = Object.create(null);
  for (const key of [...keys.add(\"default\")].sort())
    Object.defineProperty(namespace, key, {
      enumerable: true,
      get: key === \"default\" ? () => exports : () => exports[key],
    });
  return namespace;
}
";

const LOAD: &str = "import { namespace } from \"namespace\";
export function load() {
  return Promise.resolve().then(() => namespace);
}
";

impl Facade {
    pub(crate) fn kind(self) -> SourceKind {
        match self {
            Facade::NodeLoader
            | Facade::BundlerLoader
            | Facade::ModuleLoader
            | Facade::Got
            | Facade::Registry
            | Facade::Empty => SourceKind::CommonJs,
            _ => SourceKind::EcmaScript,
        }
    }

    /// Whether it runs a CommonJS module, or makes one run.
    pub(crate) fn runs_target(self) -> bool {
        matches!(
            self,
            Facade::Run
                | Facade::NodeDefault
                | Facade::BundlerDefault
                | Facade::NodeLoad
                | Facade::BundlerLoad
        )
    }

    /// The text of the module, where the target has this number and is called `name`. `names` are the names of an
    /// ECMAScript module, where they are known, or those that a CommonJS module shows.
    pub(crate) fn text(
        self,
        alloc: Global,
        target: usize,
        name: &str,
        names: Option<&GivenNames>,
    ) -> Result<String, AllocError> {
        match self {
            Facade::Run => String::from_str(alloc, "import \"target\";"),
            Facade::NodeDefault => format!(in alloc;
                "import * as {name}_exports from \"target\"; export {{ {name}_exports as default }};"
            ),
            Facade::BundlerDefault => format!(in alloc;
                "import * as {name}_exports from \"target\";
                const {name}_default = {name}_exports && {name}_exports[\"__esModule\"] ? {name}_exports[\"default\"] : {name}_exports;
                export {{ {name}_default as default }};"
            ),
            Facade::NodeNamespace => namespace(alloc, name, "true"),
            Facade::BundlerNamespace => namespace(alloc, name, "false"),
            Facade::Names => star_text(alloc, name, names),
            Facade::Namespace => live_namespace(alloc, name, names),
            Facade::LoadModule => String::from_str(alloc, LOAD),
            Facade::NodeLoad => load(alloc, "true"),
            Facade::BundlerLoad => load(alloc, "false"),
            Facade::NodeLoader => loader(alloc, "true"),
            Facade::BundlerLoader => loader(alloc, "false"),
            Facade::ModuleLoader => module_loader(alloc, target),
            Facade::Put => put_text(alloc, target),
            Facade::Got => got_text(alloc, target, names),
            Facade::Helper => String::from_str(alloc, NAMESPACE_OF),
            Facade::Empty | Facade::Registry => String::from_str(alloc, "exports;"),
        }
    }
}

fn namespace(alloc: Global, name: &str, is_node: &str) -> Result<String, AllocError> {
    format!(in alloc;
        "import * as {name}_exports from \"target\";
        import {{ namespaceOf }} from \"helper\";
        const {name}_namespace = namespaceOf({name}_exports, {is_node});
        export {{ {name}_namespace as namespace }};"
    )
}

fn load(alloc: Global, is_node: &str) -> Result<String, AllocError> {
    format!(in alloc;
        "import {{ namespaceOf }} from \"helper\";
        let namespace;
        export function load() {{
            return Promise.resolve().then(() => namespace ??= namespaceOf(require(\"target\"), {is_node}));
        }}"
    )
}

fn loader(alloc: Global, is_node: &str) -> Result<String, AllocError> {
    let helper = NAMESPACE_OF.strip_prefix("export ").unwrap_or("");
    format!(in alloc;
        "{helper}
        let namespace;
        module.exports = function () {{
            return Promise.resolve().then(() => namespace ??= namespaceOf(require(\"target\"), {is_node}));
        }};"
    )
}

fn module_loader(alloc: Global, target: usize) -> Result<String, AllocError> {
    format!(in alloc;
        "module.exports = function () {{
            return Promise.resolve().then(() => require(\"registry\").n{target});
        }};"
    )
}

fn put_text(alloc: Global, target: usize) -> Result<String, AllocError> {
    format!(in alloc;
        "import * as registry from \"registry\";
        import {{ namespace }} from \"namespace\";
        Object.assign(registry, {{ n{target}: namespace }});"
    )
}

// What `require` gives for an ECMAScript module, as Node has it: its export `module.exports`; else its namespace, which
// with a default export is said to be that of an ECMAScript module.
fn got_text(
    alloc: Global,
    target: usize,
    names: Option<&GivenNames>,
) -> Result<String, AllocError> {
    let given = format!(in alloc; "require(\"registry\").n{target}")?;
    if is_given(names, "module.exports") {
        return format!(in alloc; "module.exports = {given}[\"module.exports\"];");
    }
    if !is_given(names, "default") || is_given(names, "__esModule") {
        return format!(in alloc; "module.exports = {given};");
    }
    format!(in alloc;
        "const namespace = {given};
        const required = {{ __proto__: null, __esModule: true }};
        for (const key of Object.keys(namespace))
            Object.defineProperty(required, key, {{ enumerable: true, get: () => namespace[key] }});
        module.exports = required;"
    )
}

// Whether a name is among those that are known.
fn is_given(names: Option<&GivenNames>, name: &str) -> bool {
    match names {
        Some(given) => given.names.contains(name),
        None => false,
    }
}

// The names of the target but `default`, for `export *`. Each has a variable, so that a name may be any text.
fn star_text(alloc: Global, name: &str, names: Option<&GivenNames>) -> Result<String, AllocError> {
    let mut text = format!(in alloc; "import * as {name}_exports from \"target\";\n")?;
    if let Some(names) = names {
        push_variables(alloc, &mut text, name, names)?;
    }
    text.push_str("export { ")?;
    if let Some(names) = names {
        push_specifiers(alloc, &mut text, name, names)?;
    }
    text.push_str(" };")?;
    Ok(text)
}

// Puts down a variable for each name but `default`.
fn push_variables(
    alloc: Global,
    text: &mut String,
    name: &str,
    names: &GivenNames,
) -> Result<(), AllocError> {
    for (number, given) in names.names.iter().enumerate() {
        if given.as_str() != "default" {
            push_variable(alloc, text, name, number, given.as_str())?;
        }
    }
    Ok(())
}

fn push_variable(
    alloc: Global,
    text: &mut String,
    name: &str,
    number: usize,
    given: &str,
) -> Result<(), AllocError> {
    push_line(
        text,
        format!(in alloc; "const {name}_{number} = {name}_exports[{given:?}];\n"),
    )
}

// Puts down that each of these variables is exported under its name.
fn push_specifiers(
    alloc: Global,
    text: &mut String,
    name: &str,
    names: &GivenNames,
) -> Result<(), AllocError> {
    for (number, given) in names.names.iter().enumerate() {
        if given.as_str() != "default" {
            push_specifier(alloc, text, name, number, given.as_str())?;
        }
    }
    Ok(())
}

fn push_specifier(
    alloc: Global,
    text: &mut String,
    name: &str,
    number: usize,
    given: &str,
) -> Result<(), AllocError> {
    let key = written(alloc, given)?;
    push_line(text, format!(in alloc; "{name}_{number} as {key},"))
}

/// The statement that puts an ECMAScript module into the registry.
pub(crate) fn put_import(alloc: Global, module: usize) -> Result<String, AllocError> {
    format!(in alloc; "import \"put {module}\";\n")
}

// An object with a getter for each name of the target, and for those that modules have that are left. Where the names are
// not known by themselves, that of the linker.
fn live_namespace(
    alloc: Global,
    name: &str,
    names: Option<&GivenNames>,
) -> Result<String, AllocError> {
    match names {
        Some(names) => getters_text(alloc, name, names),
        None => format!(in alloc;
            "import * as {name}_namespace from \"target\"; export {{ {name}_namespace as namespace }};"
        ),
    }
}

// The same where the names are known.
fn getters_text(alloc: Global, name: &str, names: &GivenNames) -> Result<String, AllocError> {
    let mut text = String::from_str(alloc, "import {")?;
    push_imports(alloc, &mut text, names)?;
    text.push_str("} from \"target\";\n")?;
    push_outer_imports(alloc, &mut text, names)?;
    push_object(alloc, &mut text, name, names)?;
    Ok(text)
}

// Puts down an object with a getter for each name, and that it is exported.
fn push_object(
    alloc: Global,
    text: &mut String,
    name: &str,
    names: &GivenNames,
) -> Result<(), AllocError> {
    push_line(
        text,
        format!(in alloc; "const {name}_namespace = {{ __proto__: null, "),
    )?;
    push_getters(alloc, text, names)?;
    text.push_str(" };\n            ")?;
    for number in 0..names.outer.len() {
        push_line(text, outer_names(alloc, name, number))?;
    }
    push_line(
        text,
        format!(in alloc;
            "Object.defineProperty({name}_namespace, Symbol.toStringTag, {{ value: \"Module\" }});
            Object.preventExtensions({name}_namespace);
            export {{ {name}_namespace as namespace }};"
        ),
    )
}

// Puts down a text, where there is room for it.
fn push_line(text: &mut String, line: Result<String, AllocError>) -> Result<(), AllocError> {
    text.push_str(line?.as_str())
}

// Puts down an import of each name.
fn push_imports(alloc: Global, text: &mut String, names: &GivenNames) -> Result<(), AllocError> {
    for (number, given) in names.names.iter().enumerate() {
        push_import(alloc, text, number, given.as_str())?;
    }
    Ok(())
}

fn push_import(
    alloc: Global,
    text: &mut String,
    number: usize,
    given: &str,
) -> Result<(), AllocError> {
    let key = written(alloc, given)?;
    push_line(text, format!(in alloc; "{key} as v{number},"))
}

// Puts down a getter for each name.
fn push_getters(alloc: Global, text: &mut String, names: &GivenNames) -> Result<(), AllocError> {
    for (number, given) in names.names.iter().enumerate() {
        push_getter(alloc, text, number, given.as_str())?;
    }
    Ok(())
}

fn push_getter(
    alloc: Global,
    text: &mut String,
    number: usize,
    given: &str,
) -> Result<(), AllocError> {
    let key = written(alloc, given)?;
    push_line(
        text,
        format!(in alloc; "get {key}() {{ return v{number}; }},"),
    )
}

// Puts down an import of each module that is left.
fn push_outer_imports(
    alloc: Global,
    text: &mut String,
    names: &GivenNames,
) -> Result<(), AllocError> {
    for (number, outer) in names.outer.iter().enumerate() {
        push_line(
            text,
            format!(in alloc; "import * as o{number} from {outer:?};\n"),
        )?;
    }
    Ok(())
}

// Adds the names of a module that is left to those of a namespace.
fn outer_names(alloc: Global, name: &str, number: usize) -> Result<String, AllocError> {
    format!(in alloc;
        "for (const key of Object.keys(o{number}))
            if (key !== \"default\" && !(key in {name}_namespace))
                Object.defineProperty({name}_namespace, key, {{ enumerable: true, get: () => o{number}[key] }});
        "
    )
}

// A name as a module writes it: an identifier where it is one of ASCII, else a text.
fn written(alloc: Global, name: &str) -> Result<String, AllocError> {
    let is_word = name.chars().all(|letter| letter.is_ascii_alphanumeric()
        || letter == '_'
        || letter == '$');
    let begins_word = name
        .chars()
        .next()
        .is_some_and(|letter| !letter.is_ascii_digit());
    if is_word && begins_word {
        String::from_str(alloc, name)
    } else {
        format!(in alloc; "{name:?}")
    }
}

/// What the module of a file is called: the name of the file, or that of the folder of an `index`, as an identifier.
pub(crate) fn name_of(alloc: Global, path: &str) -> Result<String, AllocError> {
    let stem = stem_of(path);
    let stem = if stem == "index" {
        file_name(folder_of(path))
    } else {
        stem
    };
    let mut name = String::new(alloc);
    for letter in stem.chars() {
        let is_letter = letter.is_ascii_alphabetic() || letter == '_' || letter == '$';
        if is_letter || (letter.is_ascii_digit() && !name.is_empty()) {
            name.push(letter)?;
        } else if !name.as_str().ends_with('_') {
            name.push('_')?;
        }
    }
    if name.is_empty() {
        name.push('_')?;
    }
    Ok(name)
}

fn stem_of(path: &str) -> &str {
    let name = file_name(path);
    name.strip_suffix(extension(path)).unwrap_or(name)
}
