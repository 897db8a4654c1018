// The readers of the leaves as operations of their own: refusal 1 comes first, and any start will do.
ghost use Rattle.std.specs.Prelude.{◌≡◌};
ghost use Rattle.format.specs.Read.{operation};
ghost use Rattle.format.specs.Serialize.{read_operation, read_short_length_seq};
ghost use Rattle.wire.specs.Codes.{number_of, span_of, end_of};

use super::buffer::ReadableBuffer;
use super::reading::Uint;
use super::refusals::Refusal;
use super::{Span, SuccessfulRead, reading};

pub fn read_uint<N: Uint>(m: &[u8], start: u64) -> Result<SuccessfulRead<u64>, Refusal>
    ensures { result ≡ number_of (operation N.reader m.now start) }
{
    ReadableBuffer::new(m, start)?.read_uint::<N>()
}

// n is at most 4,294,967,295, so that the place behind the bytes does not wrap.
pub fn read_bytes(m: &[u8], start: u64, n: u32) -> Result<Span, Refusal>
    ensures { result ≡ span_of (read_operation n m.now start) }
{
    let b = ReadableBuffer::new(m, start)?;
    reading::bytes_at(b.bytes, b.start, n as u64)
}

pub fn read_entry(m: &[u8], start: u64, end: Option<u64>) -> Result<Span, Refusal>
    ensures { result ≡ span_of (operation (read_short_length_seq (end_of end)) m.now start) }
{
    ReadableBuffer::new(m, start)?.read_entry(end)
}
