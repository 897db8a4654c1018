// The source's ReadableBuffer: a message and the place from which it is read. Refusal 1 answers for a longer message and a later start, so that
// no place wraps.
ghost use Rattle.std.specs.Prelude.{◌≡◌, ◌≤◌, ◌<◌, length, IfOk};
ghost use Rattle.format.specs.Read.{at};
ghost use Rattle.format.specs.Serialize.{read, read_short_length_seq};
ghost use Rattle.format.specs.Context.{read_text};
ghost use Rattle.wire.specs.Reasons.{number_of as reason_number};
ghost use Rattle.wire.specs.Codes.{number_of, span_of, end_of, Below};

use super::reading::{self, Uint};
use super::refusals::{Reason, Refusal};
use super::{Span, SuccessfulRead};

#[derive(Clone, Copy)]
pub struct ReadableBuffer<'a> {
    pub bytes: &'a [u8],
    pub start: u64,
    ghost small: { length bytes.now < 4294967296 },
    ghost near: { start < 4294967296 },
}

impl<'a> ReadableBuffer<'a> {
    ghost use Rattle.wire.specs.Buffer.{from, IsAt, Opens};

    // Refusal 1.
    pub fn new(bytes: &'a [u8], start: u64) -> Result<ReadableBuffer<'a>, Refusal>
        ensures { Opens bytes.entry start result }
    {
        if reading::is_addressable(bytes, start) {
            return Ok(ReadableBuffer { bytes, start });
        }
        Err(Reason::NotAddressable.into())
    }

    // The same message from another place on.
    pub fn at(self, start: u64) -> ReadableBuffer<'a>
        requires { start < 4294967296 }
        ensures { IsAt self.entry start result }
    {
        ReadableBuffer {
            bytes: self.bytes,
            start,
        }
    }

    // ReadUInt16 and ReadUInt32, and a byte likewise.
    pub fn read_uint<N: Uint>(self) -> Result<SuccessfulRead<u64>, Refusal>
        ensures answer { result ≡ number_of (from N.reader self.entry) }
        ensures below { Below N.limit result }
        ensures within { IfOk result (λ r. r.tail ≤ length self.entry.bytes.now) }
    {
        reading::read_uint::<N>(self.bytes, self.start)
    }

    // n bytes, one at least.
    pub fn read_some_bytes(self, n: u64) -> Result<Span, Refusal>
        requires some { 0 < n }
        requires short { n < 65536 }
        ensures answer { result ≡ span_of (from (read n) self.entry) }
        ensures within { IfOk result (λ r. r.tail ≤ length self.entry.bytes.now) }
    {
        reading::read_some_bytes(self.bytes, self.start, n)
    }

    // ReadShortLengthSeq, held to an end.
    pub fn read_entry(self, end: Option<u64>) -> Result<Span, Refusal>
        ensures answer { result ≡ span_of (from (read_short_length_seq (end_of end)) self.entry) }
        ensures within { IfOk result (λ r. r.tail ≤ length self.entry.bytes.now) }
    {
        reading::read_entry(self.bytes, self.start, end)
    }

    // An entry of UTF-8, held to an end, else refused for the reason.
    pub fn read_text(self, end: Option<u64>, reason: Reason) -> Result<Span, Refusal>
        ensures answer { result ≡ span_of (from (read_text (end_of end) (reason_number reason)) self.entry) }
        ensures within { IfOk result (λ r. r.tail ≤ length self.entry.bytes.now) }
    {
        reading::read_text(self.bytes, self.start, end, reason.number())
    }
}
