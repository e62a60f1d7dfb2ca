//! Why words are refused.

use crate::Key;
use crate::nearest::nearest;
use std::alloc::{AllocError, AllocFailed, Global};
use std::fmt;

/// Why there are no options. Its text holds words as they were given, control characters among them.
pub enum WordsError {
    /// There is no such option, and the nearest is that one, if one is near.
    Unknown {
        word: String,
        nearest: Option<&'static str>,
    },
    /// The option has no value, or an empty one.
    NoValue {
        key: Key,
    },
    /// The option takes no value.
    NeedlessValue {
        name: &'static str,
    },
    /// The option takes other values.
    BadValue {
        key: Key,
        value: String,
    },
    /// A word is empty.
    EmptyWord,
    /// There is no file to bundle.
    NoEntry,
    /// The standard input is to be read twice.
    DoubledStdin,
    /// A file and a folder are to be written.
    TwoOutputs,
    /// There are several bundles, and no folder for them.
    NoFolder,
    /// A source map goes into a file, and the bundle does not.
    NoMapFile,
    /// The file of an option goes beside bundles, and these go into no file.
    NoViewFile {
        key: Key,
    },
    /// The option tells what the parts of bundles are made for, which is not known in another order.
    NoParts {
        key: Key,
    },
    /// The standard input is to be watched.
    WatchedStdin,
    /// An option of scripts, and no script is to be written.
    OfScripts {
        key: Key,
    },
    /// Memory was refused.
    OutOfMemory,
}

/// Lets go of it, by hand as for a `Command`.
impl Drop for WordsError {
    fn drop(self) {
        match self {
            WordsError::Unknown {
                word: _word,
                nearest: _nearest,
            } => {}
            WordsError::BadValue {
                key: _key,
                value: _value,
            } => {}
            WordsError::NoValue { key: _key } => {}
            WordsError::NeedlessValue { name: _name } => {}
            WordsError::OfScripts { key: _key } => {}
            WordsError::NoViewFile { key: _key } => {}
            WordsError::NoParts { key: _key } => {}
            WordsError::EmptyWord
            | WordsError::NoEntry
            | WordsError::DoubledStdin
            | WordsError::TwoOutputs
            | WordsError::NoFolder
            | WordsError::NoMapFile
            | WordsError::WatchedStdin
            | WordsError::OutOfMemory => {}
        }
    }
}

impl WordsError {
    ghost use Rattle.std.specs.Prelude.{◌≡◌, ◌≢◌};
    ghost use Rattle.gutsirava_words.specs.Refusal.{IsUnknown};

    /// That there is no option of this name, with the nearest.
    pub fn unknown(alloc: Global, name: &str) -> WordsError
        ensures { IsUnknown name.now result }
    {
        match (String::from_str(alloc, name), nearest(alloc, name)) {
            (Ok(word), Ok(nearest)) => WordsError::Unknown { word, nearest },
            _ => WordsError::OutOfMemory,
        }
    }

    // What is wrong, where that tells nothing of the words.
    fn plain_sentence(&self) -> &'static str {
        match self {
            WordsError::EmptyWord => "an empty word names no file",
            WordsError::NoEntry => "there is no file to bundle",
            WordsError::DoubledStdin => "the standard input can be read only once",
            WordsError::TwoOutputs => "--outfile and --outdir exclude each other",
            WordsError::NoFolder => "several files need --outdir",
            WordsError::NoMapFile => "the file of a source map needs --outfile or --outdir",
            WordsError::WatchedStdin => "--watch needs files, not the standard input",
            _ => "out of memory",
        }
    }

    /// The status that the command ends with: 2 for words that are refused, and 1 for memory.
    pub fn status(&self) -> u8
        ensures memory { self.now ≡ WordsError.OutOfMemory → result ≡ 1 }
        ensures words { self.now ≢ WordsError.OutOfMemory → result ≡ 2 }
    {
        match self {
            WordsError::OutOfMemory => 1,
            _ => 2,
        }
    }
}

/// Writes what is wrong with the words, in a sentence without a full stop.
impl fmt::Display for WordsError {
    fn fmt<W: fmt::Write>(&self, f: &mut fmt::Formatter<W>) -> fmt::Result {
        match self {
            WordsError::Unknown {
                word,
                nearest: None,
            } => put(
                f,
                "there is no option ",
                word.as_str(),
                ": gutsirava --help tells all",
            ),
            WordsError::Unknown {
                word,
                nearest: Some(nearest),
            } => {
                put(f, "there is no option ", word.as_str(), ": did you mean ")?;
                put(f, nearest, "?", "")
            }
            WordsError::NoValue { key } => put(f, key.name(), " needs a value: ", key.values()),
            WordsError::NeedlessValue { name } => put(f, name, " takes no value", ""),
            WordsError::BadValue { key, value } => {
                put(f, key.name(), "=", value.as_str())?;
                put(f, ": the value is ", key.values(), "")
            }
            WordsError::OfScripts { key } => put(f, key.name(), " needs --format=iife", ""),
            WordsError::NoViewFile { key } => {
                put(f, key.name(), " needs --outfile or --outdir", "")
            }
            WordsError::NoParts { key } => put(f, key.name(), " needs --order=standard", ""),
            other => f.write_str(other.plain_sentence()),
        }
    }
}

// Writes texts, one behind the other.
fn put<W: fmt::Write>(
    f: &mut fmt::Formatter<W>,
    first: &str,
    second: &str,
    third: &str,
) -> fmt::Result {
    f.write_str(first)?;
    f.write_str(second)?;
    f.write_str(third)
}

impl From<AllocError> for WordsError {
    ghost use Rattle.std.specs.Prelude.{◌≡◌};
    ghost use Rattle.gutsirava_words.specs.declared.error.WordsError.TheVariants.{OutOfMemory};

    ghost from_gives = { λ _ refusal. refusal ≡ OutOfMemory };

    fn from(_refused: AllocError) -> WordsError {
        WordsError::OutOfMemory
    }
}

impl<T: Drop> From<AllocFailed<T>> for WordsError {
    ghost use Rattle.std.specs.Prelude.{◌≡◌};
    ghost use Rattle.gutsirava_words.specs.declared.error.WordsError.TheVariants.{OutOfMemory};

    ghost from_gives = { λ _ refusal. refusal ≡ OutOfMemory };

    fn from(refused: AllocFailed<T>) -> WordsError {
        WordsError::from(AllocError::from(refused))
    }
}
