//! The flags of a regular expression (ECMA-262, 22.2.3.3).

use crate::fault::RegexError;

/// Whether the flags, each of `dgimsuy` at most once, hold `u`.
pub fn unicode_of(flags: &str) -> Result<bool, RegexError> {
    let mut seen: u8 = 0;
    for byte in flags.as_bytes() {
        let flag = match byte {
            b'd' => 1,
            b'g' => 2,
            b'i' => 4,
            b'm' => 8,
            b's' => 16,
            b'u' => 32,
            b'y' => 64,
            b'v' => return Err(RegexError::SetsFlag),
            _ => return Err(RegexError::Flag),
        };
        if seen & flag != 0 {
            return Err(RegexError::FlagTwice);
        }
        seen |= flag;
    }
    Ok(seen & 32 != 0)
}
