//! Where a path lies, and the name of its file.
ghost use Rattle.std.specs.Prelude.{◌≡◌, ◌<◌, length, IfSome};
ghost use Rattle.gutsirava_path.specs.Places as place;

/// The folder of a normal path: what stands before its last `/`. `/` of what lies in it, the empty text of a path of
/// one part.
pub fn folder_of(path: &str) -> &str
    ensures { result.now ≡ place.folder_of path.now }
{
    match path.rsplit_once('/') {
        None => "",
        Some((folder, _)) => if folder.is_empty() { "/" } else { folder },
    }
}

/// The folder that holds a folder; nothing holds `/`, and nothing that is known a path of one part.
pub fn parent(folder: &str) -> Option<&str>
    ensures { IfSome result (λ above. length above.now < length folder.now) }
{
    let (above, name) = folder.rsplit_once('/')?;
    if !above.is_empty() {
        Some(above)
    } else if !name.is_empty() {
        Some("/")
    } else {
        None
    }
}

/// What stands behind the last `/`.
pub fn file_name(path: &str) -> &str
    ensures { result.now ≡ place.file_name path.now }
{
    match path.rsplit_once('/') {
        None => path,
        Some((_, name)) => name,
    }
}

/// The ending of a file's name from its last `.` on, with it; empty where the name has none, or none but in front.
pub fn extension(path: &str) -> &str
    ensures { result.now ≡ place.ending_of (place.file_name path.now) }
{
    ending_of(file_name(path))
}

/// The ending of a name.
fn ending_of(name: &str) -> &str
    ensures { result.now ≡ place.ending_of name.now }
{
    match name.rfind('.') {
        Some(at) => if at > 0 && name != ".." {
            name.split_at(at).1
        } else {
            ""
        },
        None => "",
    }
}

/// Whether a path means a folder by its form: it ends with `/`, or its last part is `.` or `..`.
pub fn is_folder_form(path: &str) -> bool
    ensures { result ≡ place.is_folder_name (place.file_name path.now) }
{
    let name = file_name(path);
    name.is_empty() || name == "." || name == ".."
}
