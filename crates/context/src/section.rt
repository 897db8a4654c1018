// A context section at a place of a message, without refusal 1 and without its table.
ghost use Rattle.std.specs.Prelude.{◌≡◌, ◌+◌, ◌≤◌, ◌<◌, length};
ghost use Rattle.format.specs.Read.{enclosed};
ghost use Rattle.format.specs.Context.{read_aad, read_aad_section};
ghost use Rattle.wire.specs.Buffer.{from};
ghost use Rattle.request.specs.Codes.{mode_of};
ghost use Rattle.entries.specs.Codes.{counted};
ghost use Rattle.context.specs.Codes.{old_of};
ghost use Rattle.context.specs.Stepping.{Indexes, Lendable};

use super::pairs::Pairs;
use request::Mode;
use wire::SuccessfulRead;
use wire::buffer::ReadableBuffer;
use wire::reading::Uint;
use wire::refusals::{Reason, Refusal};

// An empty context in its old form.
fn old_empty(mode: Mode, tail: u64) -> Result<SuccessfulRead<u64>, Refusal>
    ensures { result ≡ old_of mode tail }
{
    match mode {
        Mode::Tolerant => Ok(SuccessfulRead { value: 0, tail }),
        Mode::Strict => Err(Reason::OldEmptyContext.into()),
    }
}

// What follows the section's length n, which the message has: a count and the pairs. The index is the caller's array, of any length that is
// `Lendable`: a type round a lent slice would be made in each caller anew.
fn read_counted(
    buffer: ReadableBuffer,
    n: u64,
    mode: Mode,
    keys: &mut [u16],
) -> Result<SuccessfulRead<u64>, Refusal>
    requires { (buffer.start + n ≤ length buffer.bytes.now) × (n < 65536) × Lendable (length keys.old) }
    ensures { (result ≡ counted (from (enclosed n 14 (read_aad (mode_of mode) n)) buffer.entry)) × Indexes buffer.entry.bytes.now (buffer.entry.start + 2) (length keys.old) keys.new result }
{
    if n < 2 {
        return Err(Reason::PastSection.into());
    }
    let count = u16::known(buffer.bytes, buffer.start);
    let first = buffer.start + 2;
    let end = buffer.start + n;
    if n == 2 {
        if count == 0 {
            return old_empty(mode, first);
        }
        return Err(Reason::CountInEmptyContext.into());
    }
    if count == 0 {
        return Err(Reason::NoCountInContext.into());
    }
    let pairs = Pairs {
        buffer: buffer.at(first),
        end,
        count: count as usize,
    };
    let tail = pairs.read(keys)?;
    if tail == end {
        return Ok(SuccessfulRead { value: count, tail });
    }
    Err(Reason::ContextLength.into())
}

// ReadAADSection at a place. An index with room for the section's pairs has them afterwards.
pub fn indexed_context_at(
    buffer: ReadableBuffer,
    mode: Mode,
    keys: &mut [u16],
) -> Result<SuccessfulRead<u64>, Refusal>
    requires { Lendable (length keys.old) }
    ensures { (result ≡ counted (from (read_aad_section (mode_of mode)) buffer.entry)) × Indexes buffer.entry.bytes.now (buffer.entry.start + 4) (length keys.old) keys.new result }
{
    let n = buffer.read_uint::<u16>()?;
    if n.value == 0 {
        return Ok(SuccessfulRead {
            value: 0,
            tail: n.tail,
        });
    }
    let end = n.tail + n.value;
    if (buffer.bytes.len() as u64) < end {
        return Err(Refusal::shortage(end));
    }
    read_counted(buffer.at(n.tail), n.value, mode, keys)
}

// The same with an index of its own.
pub fn context_at(buffer: ReadableBuffer, mode: Mode) -> Result<SuccessfulRead<u64>, Refusal>
    ensures { result ≡ counted (from (read_aad_section (mode_of mode)) buffer.entry) }
{
    let mut keys = [0u16; 32];
    indexed_context_at(buffer, mode, &mut keys[..])
}
