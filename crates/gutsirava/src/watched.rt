//! Bundling again and again, on the machine.

use crate::run_over;
use anyhow::Error;
use gutsirava_path::relative;
use gutsirava_report::quiet_text;
use gutsirava_watch::{MachineView, NotedFiles, PathStamp, PathStamps, WatchedWork};
use gutsirava_words::{Command, LogLevel, WordsError};
use std::collections::BTreeMap;
use std::time::Duration;
use std::{env, thread};

/// So many milliseconds lie between two looks at files.
const PAUSE: u64 = 100;

/// Bundling what words ask for.
#[derive(Drop)]
pub(crate) struct MachineWork<'r> {
    rt: &'r HostRuntime,
    asked: &'r Result<Command, WordsError>,
    is_told: bool,
}

impl<'r> MachineWork<'r> {
    pub(crate) fn new(
        rt: &'r HostRuntime,
        asked: &'r Result<Command, WordsError>,
        level: LogLevel,
    ) -> MachineWork<'r> {
        MachineWork {
            rt,
            asked,
            is_told: matches!(level, LogLevel::Info),
        }
    }
}

impl PathStamps for MachineWork<'_> {
    ghost may_be = { λ _ _ _. Unit {0} };

    fn stamp(&self, path: &str) -> PathStamp {
        MachineView::new(self.rt).stamp(path)
    }
}

impl WatchedWork for MachineWork<'_> {
    type Error = Error;

    fn work(&mut self) -> Result<BTreeMap<String, PathStamp>, Error> {
        let noted = NotedFiles::new(self.rt.alloc(), MachineView::new(self.rt));
        let (ended, noted) = run_over(self.rt, self.asked, noted);
        ended?;
        Ok(noted.into_noted())
    }

    fn begins_to_wait(&mut self, paths: &BTreeMap<String, PathStamp>) {
        if self.is_told {
            let files = paths
                .values()
                .filter(|stamp| matches!(**stamp, PathStamp::File { .. }))
                .count();
            let word = if files == 1 { "file" } else { "files" };
            let _ = eprintln!(self.rt; "watching {files} {word}");
        }
    }

    fn has_changed(&mut self, path: &str) {
        if self.is_told {
            let _ = tell_change(self.rt, path);
        }
    }

    fn rest(&mut self) -> bool {
        thread::sleep(self.rt, Duration::from_millis(PAUSE));
        true
    }
}

// Tells which path has changed, from the folder on in which the command runs.
fn tell_change(rt: &HostRuntime, path: &str) -> anyhow::Result<()> {
    let folder = env::current_dir(rt)?.into_string();
    let near = relative(rt.alloc(), folder.as_str(), path)?;
    let near = near.as_str().strip_prefix("./").unwrap_or(near.as_str());
    let shown = quiet_text(rt.alloc(), near)?;
    eprintln!(rt; "changed: {shown}")?;
    Ok(())
}
