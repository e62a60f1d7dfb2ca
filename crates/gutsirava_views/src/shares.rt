//! How many bytes of a bundle were made for which input.

ghost use Rattle.std.specs.Prelude.{◌≡◌, ℕ, ◌+◌, ◌<◌, ◌≤◌, ◌==◌, IfOk, length, slice_index, sum, vec_len, if◌then◌else◌};
ghost use Rattle.gutsirava_views.specs.Shares.{done_behind, part_bytes, share_of};

use crate::OutputPart;
use std::alloc::{AllocError, Global};

/// How many bytes of a text of so many were made for each of so many inputs. No byte counts twice, and none behind the text.
pub fn shares_of(
    alloc: Global,
    parts: &[OutputPart],
    inputs: usize,
    bytes: usize,
) -> Result<Vec<usize>, AllocError>
    ensures each { IfOk result (λ shares. vec_len shares ≡ inputs) }
    ensures within { IfOk result (λ shares. sum shares.items ≤ bytes) }
    ensures exact { IfOk result (λ shares. (input : ℕ) → input < inputs
        → slice_index shares.items input ≡ share_of parts.now bytes input) }
{
    let mut shares = vec![in alloc; 0; inputs]?;
    let mut done = 0;
    for part in parts {
        done = count(shares.as_mut_slice(), *part, done, bytes);
    }
    Ok(shares)
}

// Counts what a part has of the bytes from `done` on; up to where bytes are counted behind it.
fn count(shares: &mut [usize], part: OutputPart, done: usize, bytes: usize) -> usize
    requires within { sum shares.old ≤ done }
    requires below { done ≤ bytes }
    ensures behind { result ≡ done_behind done bytes part }
    ensures within { (sum shares.new ≤ result) × (result ≤ bytes) }
    ensures exact { (input : ℕ) → input < length shares.old
        → slice_index shares.new input ≡ slice_index shares.old input
        + (if part.input == input then part_bytes done bytes part else 0) }
{
    let end = part.end.min(bytes);
    let begin = part.begin.max(done);
    if end <= begin {
        return done;
    }
    if part.input < shares.len() {
        shares[part.input] = shares[part.input].saturating_add(end - begin);
    }
    end
}
