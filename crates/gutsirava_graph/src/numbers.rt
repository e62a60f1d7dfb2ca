//! How modules are called in trees and by the linker: by their numbers.

ghost use Rattle.std.specs.Prelude.{◌≡◌, string_bytes, IfOk, IfSome};
ghost use Rattle.bundle_tree_names.specs.FileName.{name_of};
ghost use Rattle.gutsirava_graph.specs.Numbers.{key_text, unit_name, IsKeyOf, IsNameOf};

use bundle_tree_names::file_name::FileName;
use std::alloc::{AllocError, Global};

/// The name under which the linker knows a module.
pub fn file_of(alloc: Global, unit: usize) -> Result<FileName, AllocError>
    ensures { IfOk result (λ file. name_of file ≡ unit_name unit) }
{
    Ok(FileName::Custom(format!(in alloc; "{unit}")?))
}

/// The module that the linker knows under a name.
pub fn unit_in(file: &FileName) -> Option<usize>
    ensures { IfSome result (IsNameOf (name_of file.now)) }
{
    match file {
        FileName::Custom(text) => text.as_str().parse::<usize>().ok(),
        FileName::Real(_) => None,
    }
}

/// The specifier by which a module is asked for in the trees that the linker is handed. No file has one with a NUL.
pub(crate) fn key_of(alloc: Global, unit: usize) -> Result<String, AllocError>
    ensures { IfOk result (λ key. string_bytes key ≡ key_text unit) }
{
    format!(in alloc; "\0{unit}")
}

/// The module that a key names.
pub fn unit_of(key: &str) -> Option<usize>
    ensures { IfSome result (IsKeyOf key.now) }
{
    key.strip_prefix('\0')?.parse::<usize>().ok()
}
