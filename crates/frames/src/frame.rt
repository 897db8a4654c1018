// One frame at a place of a message.
ghost use Rattle.std.specs.Prelude.{◌≡◌, ◌≤◌, ◌<◌, false, length, IfOk};
ghost use Rattle.wire.specs.Buffer.{from};
ghost use Rattle.format.specs.Frames.{read_frame_of, read_frame};
ghost use Rattle.entries.specs.Codes.{next_of};
ghost use Rattle.frames.specs.Codes.{frame_read_of, read_iv, PassesSealed, ReadsFinal};

use super::Kind;
use wire::buffer::ReadableBuffer;
use wire::refusals::{Reason, Refusal};
use wire::{SuccessfulRead, reading};

// FF FF FF FF, which stands before the number of the final frame.
const FINAL_MARK: u64 = 4294967295;

// The place behind n bytes of content and the tag.
fn pass_sealed(buffer: ReadableBuffer, n: u64) -> Result<u64, Refusal>
    requires inside { buffer.start ≤ length buffer.bytes.now }
    requires short { n < 4294967296 }
    ensures { PassesSealed n buffer.entry.bytes.now buffer.entry.start result }
{
    let content = reading::bytes_at(buffer.bytes, buffer.start, n)?;
    let tag = buffer.at(content.tail).read_some_bytes(16)?;
    Ok(tag.tail)
}

// The place behind the IV, of a frame with this sequence number where that one is due.
fn pass_iv(buffer: ReadableBuffer, number: u64, due: u64) -> Result<u64, Refusal>
    ensures answer { result ≡ next_of (from (read_iv number due) buffer.entry) }
    ensures within { IfOk result (λ t. t ≤ length buffer.entry.bytes.now) }
{
    if number != due {
        return Err(Reason::SequenceNumber.into());
    }
    let iv = buffer.read_some_bytes(12)?;
    Ok(iv.tail)
}

// A regular frame behind its number.
fn regular_frame(
    buffer: ReadableBuffer,
    number: u64,
    due: u64,
    frame: u32,
) -> Result<SuccessfulRead<Kind>, Refusal>
    ensures { result ≡ frame_read_of (from (read_frame_of frame due false number) buffer.entry) }
{
    let content = pass_iv(buffer, number, due)?;
    let next = pass_sealed(buffer.at(content), frame as u64)?;
    Ok(SuccessfulRead {
        value: Kind::Regular,
        tail: next,
    })
}

// The final frame behind the mark.
fn final_frame(
    buffer: ReadableBuffer,
    due: u64,
    frame: u32,
) -> Result<SuccessfulRead<Kind>, Refusal>
    ensures { ReadsFinal frame due buffer.entry.bytes.now buffer.entry.start result }
{
    let number = buffer.read_uint::<u32>()?;
    let size = pass_iv(buffer.at(number.tail), number.value, due)?;
    let n = buffer.at(size).read_uint::<u32>()?;
    if (frame as u64) < n.value {
        return Err(Reason::FinalContentTooLong.into());
    }
    let end = pass_sealed(buffer.at(n.tail), n.value)?;
    Ok(SuccessfulRead {
        value: Kind::Final,
        tail: end,
    })
}

// A frame, where this sequence number is due.
pub fn read_frame(
    buffer: ReadableBuffer,
    due: u64,
    frame: u32,
) -> Result<SuccessfulRead<Kind>, Refusal>
    ensures { result ≡ frame_read_of (from (read_frame frame due) buffer.entry) }
{
    let number = buffer.read_uint::<u32>()?;
    let rest = buffer.at(number.tail);
    if number.value == FINAL_MARK {
        return final_frame(rest, due, frame);
    }
    regular_frame(rest, number.value, due, frame)
}
