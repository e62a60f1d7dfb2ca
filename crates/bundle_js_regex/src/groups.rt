//! Groups, their names, and references to them (ECMA-262, 22.2.1).

use crate::fault::RegexError;
use crate::pattern::{BackReference, Pattern, RegexGroup};
use bundle_js_scan::name::{is_part, is_start};

impl Pattern<'_> {
    /// Begins the group whose parenthesis stands here.
    pub fn open_group(&mut self) -> Result<(), RegexError> {
        self.skip(1);
        if self.ahead(0) != b'?' {
            return self.push_group(RegexGroup::Plain, 0);
        }
        match self.ahead(1) {
            b':' => self.push_group(RegexGroup::Plain, 2),
            b'=' | b'!' => self.push_group(RegexGroup::Ahead, 2),
            b'<' => match self.ahead(2) {
                b'=' | b'!' => self.push_group(RegexGroup::Behind, 3),
                _ => {
                    self.push_group(RegexGroup::Plain, 1)?;
                    self.declare()
                }
            },
            _ => Err(RegexError::Group),
        }
    }

    // Begins a group of this kind behind so many bytes.
    fn push_group(&mut self, group: RegexGroup, sign: usize) -> Result<(), RegexError> {
        self.skip(sign);
        self.open.push(group)?;
        Ok(())
    }

    /// Ends the innermost group at its parenthesis, and says what it was.
    pub fn close_group(&mut self) -> Result<RegexGroup, RegexError> {
        match self.open.pop() {
            Some(group) => {
                self.skip(1);
                Ok(group)
            }
            None => Err(RegexError::Parenthesis),
        }
    }

    // Reads the name of a group behind `(?`, and adds it.
    fn declare(&mut self) -> Result<(), RegexError> {
        let at = self.at;
        let name = self.name()?;
        match self.names.insert(name, at)? {
            Some(_) => Err(RegexError::GroupTwice),
            None => Ok(()),
        }
    }

    /// Reads the reference whose name in angle brackets stands here, and adds it.
    pub fn refer(&mut self) -> Result<(), RegexError> {
        let at = self.at;
        if self.ahead(0) != b'<' {
            return Err(RegexError::Reference);
        }
        let name = self.name()?;
        self.references.push(BackReference { name, at })?;
        Ok(())
    }

    /// Refused where a reference has the name of no group.
    pub fn resolve(&mut self) -> Result<(), RegexError> {
        for reference in self.references.as_slice() {
            if !self.names.contains_key(&reference.name) {
                self.at = reference.at;
                return Err(RegexError::MissingName);
            }
        }
        Ok(())
    }

    // The name in angle brackets that stands here (`GroupName`).
    fn name(&mut self) -> Result<String, RegexError> {
        let mut name = String::new(self.alloc);
        self.skip(1);
        for _ in self.at..self.source.len() {
            if self.ahead(0) == b'>' {
                if name.len() == 0 {
                    return Err(RegexError::GroupName);
                }
                self.skip(1);
                return Ok(name);
            }
            let c = self.name_char()?;
            let fits = if name.len() == 0 {
                is_start(c)
            } else {
                is_part(c)
            };
            if !fits {
                return Err(RegexError::GroupName);
            }
            name.push(c)?;
        }
        Err(RegexError::GroupName)
    }

    // The character of a name that begins here, be it escaped.
    fn name_char(&mut self) -> Result<char, RegexError> {
        let number = if self.ahead(0) != b'\\' {
            self.code_point()
        } else if self.ahead(1) != b'u' {
            return Err(RegexError::GroupName);
        } else {
            self.skip(2);
            self.unicode_escape(true).ok_or(RegexError::Unicode)?
        };
        char::from_u32(number).ok_or(RegexError::GroupName)
    }
}
