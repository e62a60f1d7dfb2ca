//! Work that is done again.

ghost use Rattle.std.specs.Prelude.{◌≡◌, MatchOption, IsTrue, false};
ghost use Rattle.std.specs.List.{All};
ghost use Rattle.gutsirava_watch.specs.States.{MayBeAs, HasChanged, IsInAnother};

use crate::stamp::{PathStamp, PathStamps};
use std::collections::BTreeMap;

/// Work that is done again when a path changes at which it looked.
pub trait WatchedWork: PathStamps {
    /// Why it is not done at all.
    type Error;

    /// Does the work, and gives the paths at which it looked, each in the state in which it was before that.
    fn work(&mut self) -> Result<BTreeMap<String, PathStamp>, Self::Error>;

    /// Takes note that it is waited for a change of these paths.
    fn begins_to_wait(&mut self, paths: &BTreeMap<String, PathStamp>);

    /// Takes note that a path has changed.
    fn has_changed(&mut self, path: &str);

    /// Rests for a moment. Tells whether it goes on.
    fn rest(&mut self) -> bool;
}

/// Does work, and again each time that a path has changed at which it looked, until it is to end.
pub fn watch<W: WatchedWork>(work: &mut W) -> Result<(), W::Error> {
    for _ in 0..u64::MAX {
        let paths = work.work()?;
        work.begins_to_wait(&paths);
        if !await_change(work, &paths) {
            break;
        }
    }
    Ok(())
}

// Waits until a path has changed. Tells whether it goes on.
fn await_change<W: WatchedWork>(work: &mut W, paths: &BTreeMap<String, PathStamp>) -> bool {
    for _ in 0..u64::MAX {
        if !work.rest() {
            return false;
        }
        if let Some(path) = changed_path(&*work, paths) {
            work.has_changed(path);
            return true;
        }
    }
    false
}

// The first path that is in another state.
fn changed_path<'p, S: PathStamps>(
    stamps: &S,
    paths: &'p BTreeMap<String, PathStamp>,
) -> Option<&'p str>
    ensures { MatchOption result
        (All (MayBeAs (S.may_be stamps.now)) paths.now.entries)
        (λ path. HasChanged (S.may_be stamps.now) path.now paths.now.entries) }
{
    for (path, stamp) in paths {
        if !is_in(stamps, path.as_str(), *stamp) {
            return Some(path.as_str());
        }
    }
    None
}

// Whether a path is in this state.
fn is_in<S: PathStamps>(stamps: &S, path: &str, noted: PathStamp) -> bool
    ensures same { IsTrue result → S.may_be stamps.now path.now noted }
    ensures other { result ≡ false → IsInAnother (S.may_be stamps.now) path.now noted }
{
    stamps.stamp(path) == noted
}
