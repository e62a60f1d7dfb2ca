//! How specifiers are resolved.
ghost use Rattle.std.specs.Prelude.{◌≡◌, ◌++◌, ◌∷◌, [], IfOk, OnOk, map, string_bytes};
ghost use Rattle.gutsirava_resolve.specs.Settings as set;

use crate::externals::Externals;
use gutsirava_path::Loader;
use std::alloc::{AllocError, Global};

/// Where the bundle is to run.
#[derive(Clone, Copy)]
pub enum TargetPlatform {
    Node,
    Browser,
}

/// A field of package.json that names the main file of a package without `exports`.
#[derive(Clone, Copy, PartialEq, Eq)]
pub enum MainField {
    Browser,
    /// Taken by `require` only where nothing else names a main file.
    Module,
    Main,
}

/// How specifiers are resolved.
pub struct Settings {
    /// Which conditions of `exports` and `imports` hold for `import`, and which for `require`; `default` always does.
    pub import_conditions: Vec<String>,
    pub require_conditions: Vec<String>,
    /// The first of these fields that a package has names its main file.
    pub main_fields: Vec<MainField>,
    /// The endings that are tried where no file is at a path, with their `.`.
    pub extensions: Vec<String>,
    /// Whether a map `browser` replaces files and packages.
    pub uses_browser_map: bool,
    /// Whether `import` too finds folders, and files by the endings, as bundlers do and Node does not.
    pub completes_imports: bool,
    /// Whether an installed package comes before the module of Node's of that name, as browsers need it.
    pub prefers_packages: bool,
    pub externals: Externals,
}

impl Drop for Settings {
    fn drop(self) {
        let Settings {
            import_conditions: _import_conditions,
            require_conditions: _require_conditions,
            main_fields: _main_fields,
            extensions: _extensions,
            uses_browser_map: _uses_browser_map,
            completes_imports: _completes_imports,
            prefers_packages: _prefers_packages,
            externals: _externals,
        } = self;
    }
}

impl Settings {
    ghost use Rattle.std.specs.Prelude.{◌≡◌, ◌∷◌, [], false, true, codes, IfOk};
    ghost use Rattle.gutsirava_resolve.specs.declared.settings.MainField.TheVariants.{Main};
    ghost use Rattle.gutsirava_resolve.specs.Settings as set;
    ghost use Rattle.gutsirava_resolve.specs.SettingsOf.{AreFlags, IsFor};

    /// As Node resolves.
    pub fn for_node(alloc: Global) -> Result<Settings, AllocError>
        ensures flags { IfOk result (AreFlags false false) }
        ensures lists { IfOk result (IsFor (set.conditions_of (codes "node") (codes "import")
            (codes "module-sync" ∷ codes "node-addons" ∷ [])) (set.conditions_of (codes "node")
            (codes "require") (codes "module-sync" ∷ codes "node-addons" ∷ [])) (Main ∷ [])
            (codes ".js" ∷ codes ".json" ∷ codes ".node" ∷ [])) }
    {
        let conditions = Conditions::of(alloc, "node", &["module-sync", "node-addons"])?;
        let main_fields = vec![in alloc; MainField::Main]?;
        let extensions = texts_of(alloc, &[".js", ".json", ".node"])?;
        Ok(Settings {
            import_conditions: conditions.import,
            require_conditions: conditions.require,
            main_fields,
            extensions,
            uses_browser_map: false,
            completes_imports: false,
            prefers_packages: false,
            externals: Externals::new(alloc),
        })
    }

    /// As bundlers resolve for a platform.
    pub fn for_bundle(alloc: Global, platform: TargetPlatform) -> Result<Settings, AllocError>
        ensures flags { IfOk result (AreFlags (set.is_browser platform) true) }
        ensures lists { IfOk result (IsFor (set.conditions_of (set.runtime_of platform)
            (codes "import") (codes "module" ∷ [])) (set.conditions_of (set.runtime_of platform)
            (codes "require") (codes "module" ∷ [])) (set.fields_of platform) (codes ".mjs"
            ∷ codes ".js" ∷ codes ".cjs" ∷ codes ".json" ∷ [])) }
    {
        let conditions = Conditions::of(alloc, platform.runtime(), &["module"])?;
        let main_fields = platform.main_fields(alloc)?;
        let extensions = texts_of(alloc, &[".mjs", ".js", ".cjs", ".json"])?;
        Ok(Settings {
            import_conditions: conditions.import,
            require_conditions: conditions.require,
            main_fields,
            extensions,
            uses_browser_map: platform.is_browser(),
            completes_imports: true,
            prefers_packages: platform.is_browser(),
            externals: Externals::new(alloc),
        })
    }

    /// Which conditions hold for a loader.
    pub fn conditions(&self, loader: Loader) -> &[String]
        ensures { result.now ≡ set.conditions_for loader self.now.import_conditions.items
            self.now.require_conditions.items }
    {
        match loader {
            Loader::EcmaScript => self.import_conditions.as_slice(),
            Loader::CommonJs => self.require_conditions.as_slice(),
        }
    }

    /// Whether folders, and files by their endings, are found for a loader.
    pub fn completes(&self, loader: Loader) -> bool
        ensures { result ≡ set.completes self.now.completes_imports loader }
    {
        match loader {
            Loader::EcmaScript => self.completes_imports,
            Loader::CommonJs => true,
        }
    }
}

impl TargetPlatform {
    ghost use Rattle.std.specs.Prelude.{◌≡◌, IfOk};
    ghost use Rattle.gutsirava_resolve.specs.Settings as set;

    fn is_browser(self) -> bool
        ensures { result ≡ set.is_browser self }
    {
        match self {
            TargetPlatform::Node => false,
            TargetPlatform::Browser => true,
        }
    }

    /// The condition that holds there.
    fn runtime(self) -> &'static str
        ensures { result.now ≡ set.runtime_of self }
    {
        match self {
            TargetPlatform::Node => "node",
            TargetPlatform::Browser => "browser",
        }
    }

    /// The fields that name a main file for it.
    fn main_fields(self, alloc: Global) -> Result<Vec<MainField>, AllocError>
        ensures { IfOk result (λ fields. fields.items ≡ set.fields_of self) }
    {
        match self {
            TargetPlatform::Node => Ok(vec![in alloc; MainField::Main, MainField::Module]?),
            TargetPlatform::Browser => {
                Ok(vec![in alloc; MainField::Browser, MainField::Module, MainField::Main]?)
            }
        }
    }
}

/// The conditions that hold for the two loaders.
#[derive(Drop)]
struct Conditions {
    import: Vec<String>,
    require: Vec<String>,
}

impl Conditions {
    ghost use Rattle.std.specs.Prelude.{◌≡◌, codes, IfOk, map, string_bytes};
    ghost use Rattle.gutsirava_resolve.specs.Settings as set;

    /// What holds for both loaders, and `import` or `require` for its own.
    fn of(alloc: Global, runtime: &str, others: &[&str]) -> Result<Conditions, AllocError>
        ensures import { IfOk result (λ it. map string_bytes it.import.items
            ≡ set.conditions_of runtime.now (codes "import") (map (λ word. word.now) others.now)) }
        ensures require { IfOk result (λ it. map string_bytes it.require.items
            ≡ set.conditions_of runtime.now (codes "require") (map (λ word. word.now) others.now)) }
    {
        let import = conditions_of(alloc, runtime, "import", others)?;
        let require = conditions_of(alloc, runtime, "require", others)?;
        Ok(Conditions { import, require })
    }
}

/// The conditions of a loader.
fn conditions_of(
    alloc: Global,
    runtime: &str,
    loader: &str,
    others: &[&str],
) -> Result<Vec<String>, AllocError>
    ensures { IfOk result (λ texts. map string_bytes texts.items
        ≡ set.conditions_of runtime.now loader.now (map (λ word. word.now) others.now)) }
{
    let mut texts = Vec::new(alloc);
    add_texts(alloc, &mut texts, &[runtime, loader])?;
    add_texts(alloc, &mut texts, others)?;
    Ok(texts)
}

/// These words as texts.
fn texts_of(alloc: Global, words: &[&str]) -> Result<Vec<String>, AllocError>
    ensures { IfOk result (λ texts.
        map string_bytes texts.items ≡ map (λ word. word.now) words.now) }
{
    let mut texts = Vec::new(alloc);
    add_texts(alloc, &mut texts, words)?;
    Ok(texts)
}

/// Adds these words.
fn add_texts(alloc: Global, texts: &mut Vec<String>, words: &[&str]) -> Result<(), AllocError>
    ensures { OnOk result (map string_bytes texts.new.items
        ≡ map string_bytes texts.old.items ++ map (λ word. word.now) words.now) }
{
    for word in words {
        add_text(alloc, texts, word)?;
    }
    Ok(())
}

/// Adds a word.
fn add_text(alloc: Global, texts: &mut Vec<String>, word: &str) -> Result<(), AllocError>
    ensures { OnOk result (map string_bytes texts.new.items
        ≡ map string_bytes texts.old.items ++ word.now ∷ []) }
{
    let text = String::from_str(alloc, word)?;
    texts.push(text)?;
    Ok(())
}
