//! The line on a terminal that tells how far the command is.

use gutsirava_bundle::ProgressListener;
use std::io;
use std::io::Write;
use std::rt::Clock;
use std::time::Instant;

/// The line is there after so many milliseconds, and is written anew after so many more.
const FIRST: u64 = 1000;

const NEXT: u64 = 100;

/// How long a command has run.
#[derive(Drop)]
pub(crate) struct Stopwatch<'c, C> {
    clock: &'c C,
    begun: Instant,
}

impl<'c, C: Clock> Stopwatch<'c, C> {
    /// It runs from now on.
    pub(crate) fn start(clock: &'c C) -> io::Result<Stopwatch<'c, C>> {
        let begun = Instant::now(clock)?;
        Ok(Stopwatch { clock, begun })
    }

    pub(crate) fn milliseconds(&self) -> io::Result<u64> {
        let elapsed = self.begun.elapsed(self.clock)?;
        let thousands = elapsed.as_secs().saturating_mul(1000);
        Ok(thousands.saturating_add(u64::from(elapsed.subsec_millis())))
    }
}

/// The line on a terminal that tells how far the command is. A terminal that does not take it is let be.
#[derive(Drop)]
pub(crate) struct ProgressLine<'h, E, C> {
    errors: &'h mut E,
    stopwatch: &'h Stopwatch<'h, C>,
    is_on: bool,
    is_shown: bool,
    /// After so many milliseconds it is written.
    next: u64,
}

impl<'h, E: Write, C: Clock> ProgressLine<'h, E, C> {
    pub(crate) fn new(
        errors: &'h mut E,
        stopwatch: &'h Stopwatch<'h, C>,
        is_on: bool,
    ) -> ProgressLine<'h, E, C> {
        ProgressLine {
            errors,
            stopwatch,
            is_on,
            is_shown: false,
            next: FIRST,
        }
    }

    /// Takes the line away.
    pub(crate) fn clear(&mut self) {
        if self.is_shown {
            self.is_shown = false;
            let _ = self.errors.write_all(b"\r\x1b[K");
        }
    }

    /// Writes the line, where it is time.
    fn show(&mut self, modules: usize) {
        let Ok(milliseconds) = self.stopwatch.milliseconds() else {
            return;
        };
        if milliseconds < self.next {
            return;
        }
        self.next = milliseconds.saturating_add(NEXT);
        self.is_shown = true;
        let _ = write!(self.errors, "\r\x1b[K{modules} modules");
    }
}

impl<E: Write, C: Clock> ProgressListener for ProgressLine<'_, E, C> {
    fn has_found(&mut self, modules: usize) {
        if self.is_on {
            self.show(modules);
        }
    }

    fn begins_to_link(&mut self) {
        if self.is_shown {
            let _ = self.errors.write_all(b", linking");
        }
    }
}
