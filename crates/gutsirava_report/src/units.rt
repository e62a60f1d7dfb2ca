//! Amounts as people read them.

ghost use Rattle.std.specs.Prelude.{◌≡◌, ◌+◌, ◌*◌, ◌/◌, ◌<◌, ◌≤◌, IfOk, string_bytes};
ghost use Rattle.gutsirava_report.specs.Amounts.{size_text, time_text};
ghost use Rattle.gutsirava_report.specs.Units.{tenth_of};

use std::alloc::{AllocError, Global};

/// A unit of bytes.
#[derive(Clone, Copy)]
pub enum Unit {
    Byte,
    Kilobyte,
    Megabyte,
    Gigabyte,
}

/// A number of bytes in a unit, in tenths of it.
#[derive(Clone, Copy)]
pub struct Size {
    pub unit: Unit,
    /// How many units.
    pub whole: u64,
    /// How many tenths of a unit more.
    pub tenths: u64,
}

impl Size {
    /// So many bytes in the largest unit that they fill, with what is below a tenth left out.
    pub fn of(bytes: u64) -> Size
        ensures bytes { bytes < 1000 → (result.unit ≡ Unit.Byte) × (result.whole ≡ bytes) }
        ensures tenths { 1000 ≤ bytes → 10 * result.whole + result.tenths
            ≡ bytes / tenth_of result.unit }
        ensures small { bytes < 1000000000000 → result.whole < 1000 }
        ensures digit { result.tenths < 10 }
    {
        if bytes < 1_000 {
            Size {
                unit: Unit::Byte,
                whole: bytes,
                tenths: 0,
            }
        } else if bytes < 1_000_000 {
            Size::in_tenths(Unit::Kilobyte, bytes / 100)
        } else if bytes < 1_000_000_000 {
            Size::in_tenths(Unit::Megabyte, bytes / 100_000)
        } else {
            Size::in_tenths(Unit::Gigabyte, bytes / 100_000_000)
        }
    }

    // So many tenths of a unit.
    fn in_tenths(unit: Unit, tenths: u64) -> Size
        ensures unit { result.unit ≡ unit }
        ensures tenths { 10 * result.whole + result.tenths ≡ tenths }
        ensures digit { result.tenths < 10 }
    {
        Size {
            unit,
            whole: tenths / 10,
            tenths: tenths % 10,
        }
    }

    /// As `36 B` and `1.5 kB`.
    pub fn text(self, alloc: Global) -> Result<String, AllocError>
        ensures { IfOk result (λ text. string_bytes text ≡ size_text self) }
    {
        let whole = self.whole;
        let tenths = self.tenths;
        match self.unit {
            Unit::Byte => format!(in alloc; "{whole} B"),
            Unit::Kilobyte => format!(in alloc; "{whole}.{tenths} kB"),
            Unit::Megabyte => format!(in alloc; "{whole}.{tenths} MB"),
            Unit::Gigabyte => format!(in alloc; "{whole}.{tenths} GB"),
        }
    }
}

/// So many milliseconds, as `35 ms` and from a second on as `1.2 s`.
pub fn time_text(alloc: Global, milliseconds: u64) -> Result<String, AllocError>
    ensures { IfOk result (λ text. string_bytes text ≡ time_text milliseconds) }
{
    let seconds = milliseconds / 1_000;
    let tenths = milliseconds % 1_000 / 100;
    if seconds == 0 {
        format!(in alloc; "{milliseconds} ms")
    } else {
        format!(in alloc; "{seconds}.{tenths} s")
    }
}
