//! What is asked of the command.

ghost use Rattle.std.specs.Prelude.{◌≡◌, [], Ok};

use crate::draft::Draft;
use crate::word::Word;
use crate::{Key, Options, WordsError};
use std::alloc::Global;

/// What is to be done.
pub enum Command {
    /// To bundle.
    Bundle(Options),
    /// To print `HELP`.
    Help,
    /// To print `VERSION`.
    Version,
}

/// Lets go of it. Written by hand, so that who lets one go from another crate calls this function, where a derived one
/// would be proved anew in that crate.
impl Drop for Command {
    fn drop(self) {
        match self {
            Command::Bundle(_options) => {}
            Command::Help | Command::Version => {}
        }
    }
}

// What words ask for.
#[derive(Clone, Copy)]
enum CommandKind {
    Bundle,
    Help,
    Version,
}

// The words so far.
#[derive(Drop)]
struct CommandReader {
    draft: Draft,
    // The option whose value the next word is.
    key: Option<Key>,
    // Whether all words are files from here on.
    has_ended: bool,
}

impl Command {
    /// What the words ask for, those behind the command's own name. No word at all asks for help. Of `--help` and
    /// `--version` the first that is met holds, whatever stands behind it. Else each option has the value of its last
    /// use, or of all its uses where they add up, and what none speaks of is as `HELP` says.
    pub fn from_words(alloc: Global, words: &[String]) -> Result<Command, WordsError>
        ensures { words.now ≡ [] → result ≡ Ok Command.Help }
    {
        if words.is_empty() {
            return Ok(Command::Help);
        }
        let mut reader = CommandReader {
            draft: Draft::new(alloc),
            key: None,
            has_ended: false,
        };
        let kind = reader.read_all(words);
        match kind {
            Ok(CommandKind::Bundle) => reader.finish(),
            other => {
                drop(reader);
                other.map(CommandKind::plain)
            }
        }
    }
}

impl CommandKind {
    // What asks for nothing of the other words.
    fn plain(self) -> Command {
        match self {
            CommandKind::Help => Command::Help,
            _ => Command::Version,
        }
    }
}

impl CommandReader {
    // To bundle, as the words say.
    fn finish(self) -> Result<Command, WordsError> {
        Ok(Command::Bundle(self.draft.finish()?))
    }

    // Reads words up to one that asks for help or the version.
    fn read_all(&mut self, words: &[String]) -> Result<CommandKind, WordsError> {
        for word in words {
            match self.read(word.as_str())? {
                CommandKind::Bundle => {}
                kind => return Ok(kind),
            }
        }
        match self.key {
            Some(key) => Err(WordsError::NoValue { key }),
            None => Ok(CommandKind::Bundle),
        }
    }

    // Reads a word, and gives what it asks for if the others do not matter; else to bundle.
    fn read(&mut self, text: &str) -> Result<CommandKind, WordsError> {
        if let Some(key) = self.key.take() {
            if text.len() > 1 && text.starts_with('-') {
                return Err(WordsError::NoValue { key });
            }
            self.draft.set(key, text)?;
        } else if self.has_ended {
            self.draft.add_entry(text)?;
        } else {
            return self.read_word(Word::of(text));
        }
        Ok(CommandKind::Bundle)
    }

    // The same for a word that is no value and stands before `--`.
    fn read_word(&mut self, word: Word<'_>) -> Result<CommandKind, WordsError> {
        match word {
            Word::Help => return Ok(CommandKind::Help),
            Word::Version => return Ok(CommandKind::Version),
            Word::End => self.has_ended = true,
            Word::Entry(path) => self.draft.add_entry(path)?,
            Word::Value(key, Some(value)) => self.draft.set(key, value)?,
            Word::Value(key, None) => self.key = Some(key),
            Word::NeedlessValue(name) => return Err(WordsError::NeedlessValue { name }),
            Word::Unknown(name) => return Err(WordsError::unknown(self.draft.alloc, name)),
        }
        Ok(CommandKind::Bundle)
    }
}
