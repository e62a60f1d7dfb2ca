//! Classes of characters (ECMA-262, 22.2.1 and B.1.2).

use crate::atoms::ClassAtom;
use crate::fault::RegexError;
use crate::pattern::Pattern;

impl Pattern<'_> {
    /// Reads the class whose text begins here, behind its bracket.
    pub fn class(&mut self) -> Result<(), RegexError> {
        let _negated = self.eat(b'^');
        for _ in self.at..self.source.len() {
            if self.eat(b']') {
                return Ok(());
            }
            let first = self.class_atom()?;
            if self.eat(b'-') {
                self.range(first)?;
            }
        }
        Err(RegexError::OpenClass)
    }

    // Reads the end of the range behind its hyphen, which is a character by itself before a bracket.
    fn range(&mut self, first: ClassAtom) -> Result<(), RegexError> {
        if self.ahead(0) == b']' {
            return Ok(());
        }
        match (first, self.class_atom()?) {
            (ClassAtom::One(first), ClassAtom::One(last)) => if first > last {
                Err(RegexError::Range)
            } else {
                Ok(())
            },
            _ => if self.unicode {
                Err(RegexError::RangeEnd)
            } else {
                Ok(())
            },
        }
    }

    // Reads a character of a class, or an escape.
    fn class_atom(&mut self) -> Result<ClassAtom, RegexError> {
        if self.is_end() {
            return Err(RegexError::OpenClass);
        }
        if self.ahead(0) != b'\\' {
            return Ok(ClassAtom::One(self.unit()));
        }
        if self.ahead(1) == b'b' {
            self.skip(2);
            return Ok(ClassAtom::One(8));
        }
        self.atom_escape(true)
    }
}
