//! Paths as texts with `/`, and what the specifier of a module asks for.
#![tactic(auto)]

mod escapes;
mod normal;
mod places;
mod specifier;

pub use escapes::{Address, AddressError, decode, read_escape};
pub use normal::{join, normalize, relative};
pub use places::{extension, file_name, folder_of, is_folder_form, parent};
pub use specifier::{Loader, Specifier, is_builtin, split_package};
