//! Room for an answer.

ghost use Rattle.gutsirava_c.specs.Answer.{IsHandedOver};

/// The status of an answer that has no room.
const NO_ROOM: u32 = 3;

/// What is told of want of memory.
pub(crate) const NO_MEMORY: &str = "error 22: OutOfMemory\n{\"file\":null,\"name\":null}\n";

/// Writes an answer to the front of the room, where that is wide enough, and how long the answer is. It gives the answer's
/// status, and 3 where the room is too small.
pub(crate) fn hand_over(status: u8, answer: &str, room: &mut [u8], written: &mut usize) -> u32
    ensures { IsHandedOver status answer.now result written.new room.old room.new }
{
    let answer = answer.as_bytes();
    *written = answer.len();
    if room.len() < answer.len() {
        return NO_ROOM;
    }
    room[..answer.len()].copy_from_slice(answer);
    u32::from(status)
}
