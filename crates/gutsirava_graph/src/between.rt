//! The texts of the modules between others.

use crate::facade::{Facade, name_of, put_import};
use crate::tables::{GivenNames, are_plain, asked_modules, names_of};
use crate::unit::path_in;
use crate::unit_table::UnitTable;
use gutsirava_sources::SourceKind;
use std::alloc::AllocError;

impl UnitTable {
    /// The text of the module that does this for another one, where all files are read.
    pub(crate) fn facade_text(&self, facade: Facade, target: usize) -> Result<String, AllocError> {
        let alloc = self.alloc;
        let name = match path_in(self.units.as_slice(), target) {
            Some(path) => name_of(alloc, path)?,
            None => String::from_str(alloc, "external")?,
        };
        let mut text = String::new(alloc);
        if facade.runs_target() && self.asks_modules {
            for module in &asked_modules(alloc, self.units.as_slice(), target)? {
                text.push_str(put_import(alloc, *module)?.as_str())?;
            }
        }
        let names = self.facade_names(facade, target)?;
        let own = facade.text(alloc, target, name.as_str(), names.as_ref())?;
        text.push_str(own.as_str())?;
        Ok(text)
    }

    // The names that a module between others speaks of, where they are known.
    fn facade_names(
        &self,
        facade: Facade,
        target: usize,
    ) -> Result<Option<GivenNames>, AllocError> {
        let alloc = self.alloc;
        let units = self.units.as_slice();
        match facade {
            Facade::Names | Facade::Got => Ok(Some(names_of(alloc, units, target)?)),
            Facade::Namespace => {
                let names = names_of(alloc, units, target)?;
                let is_plain = self.kind_of(target) == SourceKind::EcmaScript
                    && are_plain(alloc, units, target, &names)?;
                Ok(if is_plain { Some(names) } else { None })
            }
            _ => Ok(None),
        }
    }
}
