//! The values of options that are one of a few words.

/// What a bundle is written as.
#[derive(Clone, Copy)]
pub enum FormatKind {
    /// An ECMAScript module.
    Esm,
    /// A script whose whole text is one function expression that is called at once.
    Iife,
}

/// What resolution is for.
#[derive(Clone, Copy)]
pub enum Platform {
    Node,
    Browser,
}

/// In which order the modules of a cycle run.
#[derive(Clone, Copy)]
pub enum Order {
    /// The order of ECMA-262.
    Standard,
    /// Each item behind what it needs.
    Needs,
}

/// Which characters a bundle is written in.
#[derive(Clone, Copy)]
pub enum CharsetSetting {
    /// ASCII, with escapes for the others.
    Ascii,
    Utf8,
}

/// What becomes of comments that hold a licence.
#[derive(Clone, Copy)]
pub enum LegalComments {
    /// They stay where they are.
    Inline,
    /// They go, as others do.
    None,
}

/// What source map is written of a bundle (ECMA-426).
#[derive(Clone, Copy)]
pub enum SourceMap {
    None,
    /// A file beside the bundle's, to which the bundle leads.
    Linked,
    /// The end of the bundle.
    Inline,
    /// A file beside the bundle's.
    External,
}

/// Whether a source map holds the texts of the sources.
#[derive(Clone, Copy)]
pub enum SourcesContent {
    Kept,
    Dropped,
}

/// Whether something is to be done.
#[derive(Clone, Copy, PartialEq, Eq)]
pub enum Switch {
    Off,
    On,
}

/// The least grave that is told.
#[derive(Clone, Copy)]
pub enum LogLevel {
    Info,
    Warning,
    Error,
    Silent,
}

/// When a report has colours.
#[derive(Clone, Copy)]
pub enum Color {
    /// On a terminal, unless the environment has a `NO_COLOR` that is not empty.
    Auto,
    Always,
    Never,
}

impl FormatKind {
    ghost use Rattle.std.specs.Prelude.{◌≡◌, ◌≢◌, Some, IfSome, IfNone};
    ghost use Rattle.gutsirava_words.specs.Choice.{format_text};

    /// The one with this word, or `None` where there is none.
    pub fn from_text(text: &str) -> Option<FormatKind>
        ensures found { IfSome result (λ it. format_text it ≡ text.now) }
        ensures none { IfNone result ((it : FormatKind) → format_text it ≢ text.now) }
    {
        match text {
            "esm" => Some(FormatKind::Esm),
            "iife" => Some(FormatKind::Iife),
            _ => None,
        }
    }
}

impl Platform {
    ghost use Rattle.std.specs.Prelude.{◌≡◌, ◌≢◌, Some, IfSome, IfNone};
    ghost use Rattle.gutsirava_words.specs.Choice.{platform_text};

    /// The one with this word, or `None` where there is none.
    pub fn from_text(text: &str) -> Option<Platform>
        ensures found { IfSome result (λ it. platform_text it ≡ text.now) }
        ensures none { IfNone result ((it : Platform) → platform_text it ≢ text.now) }
    {
        match text {
            "node" => Some(Platform::Node),
            "browser" => Some(Platform::Browser),
            _ => None,
        }
    }
}

impl Order {
    ghost use Rattle.std.specs.Prelude.{◌≡◌, ◌≢◌, Some, IfSome, IfNone};
    ghost use Rattle.gutsirava_words.specs.Choice.{order_text};

    /// The one with this word, or `None` where there is none.
    pub fn from_text(text: &str) -> Option<Order>
        ensures found { IfSome result (λ it. order_text it ≡ text.now) }
        ensures none { IfNone result ((it : Order) → order_text it ≢ text.now) }
    {
        match text {
            "standard" => Some(Order::Standard),
            "needs" => Some(Order::Needs),
            _ => None,
        }
    }
}

impl CharsetSetting {
    ghost use Rattle.std.specs.Prelude.{◌≡◌, ◌≢◌, Some, IfSome, IfNone};
    ghost use Rattle.gutsirava_words.specs.Choice.{charset_text};

    /// The one with this word, or `None` where there is none.
    pub fn from_text(text: &str) -> Option<CharsetSetting>
        ensures found { IfSome result (λ it. charset_text it ≡ text.now) }
        ensures none { IfNone result ((it : CharsetSetting) → charset_text it ≢ text.now) }
    {
        match text {
            "ascii" => Some(CharsetSetting::Ascii),
            "utf8" => Some(CharsetSetting::Utf8),
            _ => None,
        }
    }
}

impl LegalComments {
    ghost use Rattle.std.specs.Prelude.{◌≡◌, ◌≢◌, Some, IfSome, IfNone};
    ghost use Rattle.gutsirava_words.specs.Choice.{legal_comments_text};

    /// The one with this word, or `None` where there is none.
    pub fn from_text(text: &str) -> Option<LegalComments>
        ensures found { IfSome result (λ it. legal_comments_text it ≡ text.now) }
        ensures none { IfNone result ((it : LegalComments) → legal_comments_text it ≢ text.now) }
    {
        match text {
            "inline" => Some(LegalComments::Inline),
            "none" => Some(LegalComments::None),
            _ => None,
        }
    }
}

impl SourceMap {
    ghost use Rattle.std.specs.Prelude.{◌≡◌, ◌≢◌, Some, IfSome, IfNone};
    ghost use Rattle.gutsirava_words.specs.Choice.{source_map_text};

    /// The one with this word, or `None` where there is none.
    pub fn from_text(text: &str) -> Option<SourceMap>
        ensures found { IfSome result (λ it. source_map_text it ≡ text.now) }
        ensures none { IfNone result ((it : SourceMap) → source_map_text it ≢ text.now) }
    {
        match text {
            "none" => Some(SourceMap::None),
            "linked" => Some(SourceMap::Linked),
            "inline" => Some(SourceMap::Inline),
            "external" => Some(SourceMap::External),
            _ => None,
        }
    }
}

impl SourcesContent {
    ghost use Rattle.std.specs.Prelude.{◌≡◌, ◌≢◌, Some, IfSome, IfNone};
    ghost use Rattle.gutsirava_words.specs.Choice.{sources_content_text};

    /// The one with this word, or `None` where there is none.
    pub fn from_text(text: &str) -> Option<SourcesContent>
        ensures found { IfSome result (λ it. sources_content_text it ≡ text.now) }
        ensures none { IfNone result ((it : SourcesContent) → sources_content_text it ≢ text.now) }
    {
        match text {
            "true" => Some(SourcesContent::Kept),
            "false" => Some(SourcesContent::Dropped),
            _ => None,
        }
    }
}

impl Switch {
    ghost use Rattle.std.specs.Prelude.{◌≡◌, ◌≢◌, Some, IfSome, IfNone};
    ghost use Rattle.gutsirava_words.specs.Choice.{switch_text};

    /// The one with this word, or `None` where there is none.
    pub fn from_text(text: &str) -> Option<Switch>
        ensures found { IfSome result (λ it. switch_text it ≡ text.now) }
        ensures none { IfNone result ((it : Switch) → switch_text it ≢ text.now) }
    {
        match text {
            "false" => Some(Switch::Off),
            "true" => Some(Switch::On),
            _ => None,
        }
    }
}

impl LogLevel {
    ghost use Rattle.std.specs.Prelude.{◌≡◌, ◌≢◌, Some, IfSome, IfNone};
    ghost use Rattle.gutsirava_words.specs.Choice.{log_level_text};

    /// The one with this word, or `None` where there is none.
    pub fn from_text(text: &str) -> Option<LogLevel>
        ensures found { IfSome result (λ it. log_level_text it ≡ text.now) }
        ensures none { IfNone result ((it : LogLevel) → log_level_text it ≢ text.now) }
    {
        match text {
            "info" => Some(LogLevel::Info),
            "warning" => Some(LogLevel::Warning),
            "error" => Some(LogLevel::Error),
            "silent" => Some(LogLevel::Silent),
            _ => None,
        }
    }
}

impl Color {
    ghost use Rattle.std.specs.Prelude.{◌≡◌, ◌≢◌, ◌==◌, ◌&&◌, Some, None, false, length, IfSome, IfNone, IsTrue};
    ghost use Rattle.gutsirava_words.specs.Choice.{color_text};

    /// The one with this word, or `None` where there is none.
    pub fn from_text(text: &str) -> Option<Color>
        ensures found { IfSome result (λ it. color_text it ≡ text.now) }
        ensures none { IfNone result ((it : Color) → color_text it ≢ text.now) }
    {
        match text {
            "auto" => Some(Color::Auto),
            "always" => Some(Color::Always),
            "never" => Some(Color::Never),
            _ => None,
        }
    }

    /// Whether a report has colours, where the environment has this `NO_COLOR`, or none, and it goes to a terminal or
    /// not.
    pub fn is_on(self, no_color: Option<&str>, is_terminal: bool) -> bool
        ensures always { self ≡ Color.Always → IsTrue result }
        ensures never { self ≡ Color.Never → result ≡ false }
        ensures terminal { self ≡ Color.Auto → IsTrue result → IsTrue is_terminal }
        ensures bare { self ≡ Color.Auto → no_color.entry ≡ None → result ≡ is_terminal }
        ensures asked { self ≡ Color.Auto → IfSome no_color.entry
            (λ value. result ≡ (is_terminal && (length value.now == 0))) }
    {
        match self {
            Color::Always => true,
            Color::Never => false,
            Color::Auto => is_terminal && no_color.is_none_or(|value| value.is_empty()),
        }
    }
}
