//! What a run read and wrote.

ghost use Rattle.std.specs.Prelude.{◌≡◌};
ghost use Rattle.gutsirava_views.specs.Metafile as metafile;

/// What a run read and wrote.
#[derive(Drop)]
pub struct Overview {
    /// The modules, in the order in which they were found.
    pub inputs: Vec<InputView>,
    /// The bundles, in the order of their entries.
    pub outputs: Vec<OutputView>,
}

/// What a file was read as.
#[derive(Clone, Copy)]
pub enum InputFormat {
    EcmaScript,
    CommonJs,
    Json,
}

/// A file that was read.
#[derive(Drop)]
pub struct InputView {
    /// Its path, as it is told.
    pub path: String,
    pub bytes: usize,
    pub format: InputFormat,
    /// What it asks for, in the order of its text.
    pub imports: Vec<ImportView>,
}

/// How a module asks for another one.
#[derive(Clone, Copy)]
pub enum ImportKind {
    /// By `import` or `export .. from`.
    Statement,
    /// By `import()`.
    Dynamic,
    /// By `require()`.
    Require,
}

/// What a module asks for.
#[derive(Drop)]
pub enum ImportTarget {
    /// The input of this number, from 0.
    Input(usize),
    /// What is left to whoever runs the bundle, by its specifier.
    External(String),
}

/// That a module asks for another one.
#[derive(Drop)]
pub struct ImportView {
    pub kind: ImportKind,
    pub target: ImportTarget,
    /// The specifier, as it stands in the text.
    pub original: String,
}

/// A bundle that was written.
#[derive(Drop)]
pub struct OutputView {
    /// Its path, as it is told.
    pub path: String,
    pub bytes: usize,
    /// The input with which it begins.
    pub entry: usize,
    /// The names that it exports.
    pub exports: Vec<String>,
    /// What it leaves to whoever runs it.
    pub imports: Vec<ImportView>,
    /// What was made for which input, in the order of the text.
    pub parts: Vec<OutputPart>,
}

/// Some bytes of a bundle: from `begin` on, before `end`.
#[derive(Clone, Copy)]
pub struct OutputPart {
    pub begin: usize,
    pub end: usize,
    /// The input for which they were made.
    pub input: usize,
}

impl Overview {
    /// The path of an input.
    pub fn path_of(&self, input: usize) -> &str
        ensures { result.now ≡ metafile.path_of self.now input }
    {
        match self.inputs.get(input) {
            Some(input) => input.path.as_str(),
            None => "",
        }
    }

    /// The path of what a module asks for, or the specifier of what is external.
    pub(crate) fn target_of<'o>(&'o self, target: &'o ImportTarget) -> &'o str
        ensures { result.now ≡ metafile.target_of self.now target.now }
    {
        match target {
            ImportTarget::Input(input) => self.path_of(*input),
            ImportTarget::External(specifier) => specifier.as_str(),
        }
    }
}
