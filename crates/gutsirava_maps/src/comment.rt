//! How a text tells where its map is.

ghost use Rattle.std.specs.Prelude.{◌≡◌, IfOk, string_bytes};
ghost use Rattle.gutsirava_maps.specs.Comment.{data_url_of, link_text};

use base64::engine::general_purpose::STANDARD;
use std::alloc::{AllocError, Global};

/// The line with which a script tells where its map is (ECMA-426, 11.1.2.1).
pub fn linked_comment(alloc: Global, url: &str) -> Result<String, AllocError>
    ensures { IfOk result (λ text. string_bytes text ≡ link_text url.now) }
{
    format!(in alloc; "//# sourceMappingURL={url}\n")
}

/// The URL that holds a map itself (RFC 2397).
pub fn data_url(alloc: Global, map: &str) -> Result<String, AllocError>
    ensures { IfOk result (λ url. string_bytes url ≡ data_url_of map.now) }
{
    let mut url = String::from_str(alloc, "data:application/json;base64,")?;
    STANDARD.encode_string(map.as_bytes(), &mut url)?;
    Ok(url)
}
