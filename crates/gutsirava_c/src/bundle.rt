//! A document to bundles.

ghost use Rattle.std.specs.Prelude.{ℕ, List};
ghost use Rattle.gutsirava_c.specs.Answer.{IsAnswer, IsHandedOver};

use crate::reply::reply_to;
use crate::room::{NO_MEMORY, hand_over};
use std::alloc::Global;

/// Bundles what the document in `input` asks for. The answer has the status 0 and is the text of the bundles; or 1 and is
/// the line of the refusal, with a line that has its file and name behind it; or 2 for an input that is no document.
#[unsafe(no_mangle)]
pub extern "C" fn gutsirava_bundle(
    alloc: Global,
    input: &[u8],
    output: &mut [u8],
    written: &mut usize,
) -> u32
    ensures { (status : ℕ) × (answer : List ℕ)
        × IsAnswer input.now status answer
        × IsHandedOver status answer result written.new output.old output.new }
{
    match reply_to(alloc, input) {
        Ok(reply) => hand_over(reply.status, reply.text.as_str(), output, written),
        Err(_) => hand_over(1, NO_MEMORY, output, written),
    }
}
