//! The colours of a report.

/// How a piece of a report is painted where colours are on, by a sequence of ECMA-48 (8.3.117) before it and one that
/// ends it behind it.
#[derive(Clone, Copy)]
pub enum Style {
    /// As the terminal writes text.
    Plain,
    /// The words of a message.
    Strong,
    /// An error and its mark.
    Error,
    /// A warning and its mark.
    Warning,
    /// A note and its mark.
    Note,
    /// What stands beside a line: its number and the bar.
    Margin,
}

impl Style {
    ghost use Rattle.std.specs.Prelude.{◌≡◌};
    ghost use Rattle.gutsirava_report.specs.Style.{opening_of, closing_of};

    /// The sequence before a piece of this style.
    pub fn opening(self) -> &'static str
        ensures { result.now ≡ opening_of self }
    {
        match self {
            Style::Plain => "",
            Style::Strong => "\u{1b}[1m",
            Style::Error => "\u{1b}[1;31m",
            Style::Warning => "\u{1b}[1;33m",
            Style::Note => "\u{1b}[1;36m",
            Style::Margin => "\u{1b}[1;34m",
        }
    }

    /// The sequence behind a piece of this style.
    pub fn closing(self) -> &'static str
        ensures { result.now ≡ closing_of self }
    {
        match self {
            Style::Plain => "",
            _ => "\u{1b}[0m",
        }
    }
}
