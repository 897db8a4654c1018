// The frames behind a header: where each one's IV, content and tag stand.
#![tactic(auto)]

mod filling;
mod frame;

ghost use Rattle.std.specs.Prelude.{◌≡◌, ◌<◌, length};
ghost use Rattle.wire.specs.Buffer.{from};
ghost use Rattle.format.specs.Read.{operation};
ghost use Rattle.format.specs.Frames.{read_frames, read_frames_into};
ghost use Rattle.format.specs.Lent.{frame_numbers};
ghost use Rattle.entries.specs.Codes.{Reads, counted};
ghost use Rattle.frames.specs.Codes.{frames_tabled};

use wire::SuccessfulRead;
use wire::buffer::ReadableBuffer;
use wire::refusals::{Reason, Refusal};

// Behind a regular frame stands another one, and behind the final one none.
#[derive(Clone, Copy)]
enum Kind {
    Regular,
    Final,
}

// The frames up to the final one. Only the place and how many stand before it are kept.
fn frames_at(buffer: ReadableBuffer, frame: u32) -> Result<SuccessfulRead<u64>, Refusal>
    ensures { result ≡ counted (from (read_frames frame) buffer.entry) }
{
    let mut s = buffer.start;
    for number in 1..u64::MAX {
        let f = frame::read_frame(buffer.at(s), number, frame)?;
        match f.value {
            Kind::Regular => s = f.tail,
            Kind::Final => {
                return Ok(SuccessfulRead {
                    value: number,
                    tail: f.tail,
                });
            }
        }
    }
    // No message has so many frames.
    unreachable!()
}

// The frames from a place on, and their table, which is filled last: a refusal leaves it.
fn frames_tabled(
    buffer: ReadableBuffer,
    frame: u32,
    table: &mut [u32],
) -> Result<SuccessfulRead<u64>, Refusal>
    ensures { Reads counted frame_numbers (from (frames_tabled frame (length table.old)) buffer.entry) table.old table.new result }
{
    let frames = frames_at(buffer, frame)?;
    if ((table.len() / 6) as u64) < frames.value {
        return Err(Reason::KeyTableTooShort.into());
    }
    filling::fill_frames(buffer.bytes, buffer.start, frame, frames.value, table);
    Ok(frames)
}

// Refusal 20, and then the frames.
fn frames_into(
    buffer: ReadableBuffer,
    frame: u32,
    table: &mut [u32],
) -> Result<SuccessfulRead<u64>, Refusal>
    ensures { Reads counted frame_numbers (from (read_frames_into frame (length table.old)) buffer.entry) table.old table.new result }
{
    if frame == 0 {
        return Err(Reason::FrameLength.into());
    }
    frames_tabled(buffer, frame, table)
}

// How many frames of a frame length there are, the final one included: the places of each one's IV, content and tag go into the table, six
// numbers a frame.
pub fn read_frames(
    m: &[u8],
    start: u64,
    frameLength: u32,
    table: &mut [u32],
) -> Result<SuccessfulRead<u64>, Refusal>
    ensures { Reads counted frame_numbers (operation (read_frames_into frameLength (length table.old)) m.now start) table.old table.new result }
{
    frames_into(ReadableBuffer::new(m, start)?, frameLength, table)
}
