//! The options that take a value.

/// An option that takes a value.
#[derive(Clone, Copy)]
pub enum Key {
    Outfile,
    Outdir,
    Format,
    GlobalName,
    Globals,
    External,
    Platform,
    Conditions,
    MainFields,
    Order,
    Root,
    Charset,
    LegalComments,
    DefineMeta,
    SourceMap,
    SourcesContent,
    Metafile,
    Analyze,
    Graph,
    Watch,
    LogLevel,
    Color,
}

impl Key {
    ghost use Rattle.std.specs.Prelude.{◌≡◌, ◌≢◌, Some, IfSome, IfNone};
    ghost use Rattle.std.specs.Option.{option_map};
    ghost use Rattle.gutsirava_words.specs.Key.{adds_up, key_named, key_text, plain_text, values_text};

    /// The option as it is written.
    pub fn name(self) -> &'static str
        ensures { result.now ≡ key_text self }
    {
        match self {
            Key::Outfile => "--outfile",
            Key::Outdir => "--outdir",
            Key::Format => "--format",
            Key::GlobalName => "--global-name",
            Key::Globals => "--globals",
            Key::External => "--external",
            Key::Platform => "--platform",
            Key::Conditions => "--conditions",
            Key::MainFields => "--main-fields",
            Key::Order => "--order",
            Key::Root => "--root",
            Key::Charset => "--charset",
            Key::LegalComments => "--legal-comments",
            Key::DefineMeta => "--define-meta",
            Key::SourceMap => "--sourcemap",
            Key::SourcesContent => "--sources-content",
            Key::Metafile => "--metafile",
            Key::Analyze => "--analyze",
            Key::Graph => "--graph",
            Key::Watch => "--watch",
            Key::LogLevel => "--log-level",
            Key::Color => "--color",
        }
    }

    /// The option that is written so, or `None` where there is none.
    pub fn from_name(name: &str) -> Option<Key>
        ensures found { IfSome result (λ it. key_text it ≡ name.now) }
        ensures none { IfNone result ((it : Key) → key_text it ≢ name.now) }
        ensures named { result ≡ key_named name.now }
    {
        Key::written(name)
    }

    // The same, by the name alone.
    fn written(name: &str) -> Option<Key>
        ensures found { IfSome result (λ it. key_text it ≡ name.now) }
        ensures none { IfNone result ((it : Key) → key_text it ≢ name.now) }
    {
        match name {
            "--outfile" => Some(Key::Outfile),
            "--outdir" => Some(Key::Outdir),
            "--format" => Some(Key::Format),
            "--global-name" => Some(Key::GlobalName),
            "--globals" => Some(Key::Globals),
            "--external" => Some(Key::External),
            "--platform" => Some(Key::Platform),
            "--conditions" => Some(Key::Conditions),
            "--main-fields" => Some(Key::MainFields),
            "--order" => Some(Key::Order),
            "--root" => Some(Key::Root),
            "--charset" => Some(Key::Charset),
            "--legal-comments" => Some(Key::LegalComments),
            "--define-meta" => Some(Key::DefineMeta),
            "--sourcemap" => Some(Key::SourceMap),
            "--sources-content" => Some(Key::SourcesContent),
            "--metafile" => Some(Key::Metafile),
            "--analyze" => Some(Key::Analyze),
            "--graph" => Some(Key::Graph),
            "--watch" => Some(Key::Watch),
            "--log-level" => Some(Key::LogLevel),
            "--color" => Some(Key::Color),
            _ => None,
        }
    }

    /// Whether each use of the option adds to what those before it gave. Of the others, the last use holds.
    pub fn adds_up(self) -> bool
        ensures { result ≡ adds_up self }
    {
        matches!(
            self,
            Key::Globals | Key::External | Key::Conditions | Key::MainFields
        )
    }

    /// The value that the option has where none is joined to it, if it needs none.
    pub fn plain_value(self) -> Option<&'static str>
        ensures { option_map (λ it. it.now) result ≡ plain_text self }
    {
        match self {
            Key::SourceMap => Some("linked"),
            Key::Analyze | Key::Watch => Some("true"),
            _ => None,
        }
    }

    /// What the option takes, in words.
    pub fn values(self) -> &'static str
        ensures { result.now ≡ values_text self }
    {
        match self {
            Key::Outfile | Key::Metafile => "a file",
            Key::Outdir | Key::Root => "a folder",
            Key::Format => "esm or iife",
            Key::GlobalName => "a variable of JavaScript, as App or App.core",
            Key::Globals => "a module and its variable, as react=React",
            Key::External => "a package, a path or a pattern with one *",
            Key::Platform => "node or browser",
            Key::Conditions => "conditions with commas between them",
            Key::MainFields => "fields with commas between them",
            Key::Order => "standard or needs",
            Key::Charset => "ascii or utf8",
            Key::LegalComments => "inline or none",
            Key::DefineMeta => "a text",
            Key::SourceMap => "none, linked, inline or external",
            Key::Graph => "a file, as graph.svg",
            Key::SourcesContent | Key::Analyze | Key::Watch => "true or false",
            Key::LogLevel => "info, warning, error or silent",
            Key::Color => "auto, always or never",
        }
    }
}
