// The pairs of a context, one behind the other.
ghost use Rattle.std.specs.Prelude.{◌≡◌, ◌≤◌, ◌<◌, length};
ghost use Rattle.format.specs.Read.{end_at};
ghost use Rattle.format.specs.Context.{read_aad_pair};
ghost use Rattle.wire.specs.Buffer.{from};
ghost use Rattle.entries.specs.Codes.{next_of};
ghost use Rattle.context.specs.Stepping.{Space, Lendable, HasRoom};

use wire::buffer::ReadableBuffer;
use wire::refusals::{Reason, Refusal};

// ReadAADPair: a key and a value, both UTF-8, that stay within the section's end.
fn read_pair(buffer: ReadableBuffer, end: u64) -> Result<u64, Refusal>
    ensures { result ≡ next_of (from (read_aad_pair (end_at end)) buffer.entry) }
{
    let key = buffer.read_text(Some(end), Reason::KeyNotUtf8)?;
    let value = buffer
        .at(key.tail)
        .read_text(Some(end), Reason::ValueNotUtf8)?;
    Ok(value.tail)
}

// Whether an index of so many places has room for n pairs: one of 16,384 has it for as many as any section holds.
fn has_room(room: usize, n: usize) -> bool
    ensures { HasRoom room n result }
{
    16384 <= room || n <= room
}

// The pairs of a section: they stand from the buffer's start on, and have to stay within the section's end.
#[derive(Clone, Copy)]
pub(crate) struct Pairs<'a> {
    pub(crate) buffer: ReadableBuffer<'a>,
    pub(crate) end: u64,
    pub(crate) count: usize,
    ghost space: { Space buffer.bytes.now buffer.start end },
    ghost behind: { buffer.start ≤ end },
}

impl Pairs<'_> {
    ghost use Rattle.context.specs.Reading.{OnwardIn, SteppedIn, ReachedIn, ReadUpToIn, ReadAllIn, all_of};

    // A step of ReadAADPairs: the pair behind the first `done` pairs. Its key goes into the index of theirs.
    fn next(self, done: usize, s: u64, keys: &mut [u16]) -> Result<u64, Refusal>
        requires { OnwardIn self done s keys.old }
        ensures { SteppedIn self.entry done s keys.new result }
    {
        let tail = read_pair(self.buffer.at(s), self.end)?;
        if pair_index::seen_or_add(self.buffer.bytes, self.buffer.start, done, s, keys) {
            return Err(Reason::KeySeenBefore.into());
        }
        Ok(tail)
    }

    // Goes on from the first `from` pairs, which end at `start`, to the first `to`.
    fn up_to(self, from: usize, to: usize, start: u64, keys: &mut [u16]) -> Result<u64, Refusal>
        requires { ReachedIn self from start keys.old × (from ≤ to) × (to ≤ self.count) × (length keys.old < 16384 → to ≤ length keys.old) }
        ensures { ReadUpToIn self.entry to keys.new result }
    {
        let mut s = start;
        for i in from..to {
            s = self.next(i, s, keys)?;
        }
        Ok(s)
    }

    // Goes on to the last pair, with as large an index as any pairs need: 65,533 bytes hold at most 16,383 of them.
    fn with_largest(self, from: usize, start: u64, keys: &[u16]) -> Result<u64, Refusal>
        requires { ReachedIn self from start keys.now × (length keys.now ≤ 16384) }
        ensures { result ≡ all_of self.entry }
    {
        let mut largest = [0u16; 16384];
        index::copy(keys, &mut largest[..]);
        self.up_to(from, self.count, start, &mut largest[..])
    }

    // Goes on to the last pair. There is no heap: where the index is full, a larger array takes its place, written whole only then. An array
    // takes its room on the stack as soon as its function is called: so the largest has a function of its own, which waits for the pairs
    // that fill the one before it. That this function calls itself is what keeps the compiler from joining it, and the largest array, with
    // its caller's frame.
    fn onward(self, from: usize, start: u64, keys: &mut [u16]) -> Result<u64, Refusal>
        requires { ReachedIn self from start keys.old × (length keys.old ≤ 512) }
        ensures { result ≡ all_of self.entry }
    {
        let to = self.count.min(keys.len());
        let s = self.up_to(from, to, start, keys)?;
        if to == self.count {
            return Ok(s);
        }
        if keys.len() < 512 {
            let mut larger = [0u16; 512];
            index::copy(keys, &mut larger[..]);
            return self.onward(to, s, &mut larger[..]);
        }
        self.with_largest(to, s, keys)
    }

    // ReadAADPairs: where they end. An index with room for them has them afterwards.
    pub(crate) fn read(self, keys: &mut [u16]) -> Result<u64, Refusal>
        requires { Lendable (length keys.old) }
        ensures { ReadAllIn self.entry (length keys.old) keys.new result }
    {
        let first = self.buffer.start;
        if has_room(keys.len(), self.count) {
            return self.up_to(0, self.count, first, keys);
        }
        self.onward(0, first, keys)
    }
}
