//! Numbers in base64 digits of five bits each, the lowest first (ECMA-426, Base64 VLQ).

ghost use Rattle.std.specs.Prelude.{◌≡◌, ◌<◌, ◌∷◌, [], OnOk, string_bytes};
ghost use Rattle.gutsirava_maps.specs.Vlq.{difference, digit_code, Writes};

use std::alloc::AllocError;

// The character of a digit.
fn digit_of(value: u64) -> u8
    requires { value < 64 }
    ensures { result ≡ digit_code value }
{
    let value = value as u8;
    if value < 26 {
        value + 65
    } else if value < 52 {
        value + 71
    } else if value < 62 {
        value - 4
    } else if value == 62 {
        b'+'
    } else {
        b'/'
    }
}

/// Puts down a number: a digit of 32 or more has one behind it.
#[tactic(auto, using(std::proofs::lemmas::Grind::common_steps, crate::proofs::VlqLemmas::writes_last, crate::proofs::VlqLemmas::writes_more))]
pub(crate) fn push_number(text: &mut String, value: u64) -> Result<(), AllocError>
    ensures { OnOk result (Writes (string_bytes text.old) (string_bytes text.new) (value ∷ [])) }
{
    if value < 32 {
        return text.push(digit_of(value) as char);
    }
    text.push(digit_of(value % 32 + 32) as char)?;
    push_number(text, value / 32)
}

// A difference as one number: its lowest bit tells whether it is below zero.
pub(crate) fn difference_of(from: u32, to: u32) -> u64
    ensures { result ≡ difference from to }
{
    if from <= to {
        (to - from) as u64 * 2
    } else {
        (from - to) as u64 * 2 + 1
    }
}
