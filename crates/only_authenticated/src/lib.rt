// The bytes of the pairs that are only authenticated: those of a context section whose keys are required, in the order of their keys.
// The index that finds a key seen before has that order: each required key is looked up there, and its place is marked.
#![tactic(auto)]

mod marking;
mod putting;

ghost use Rattle.std.specs.Prelude.{◌≡◌, ◌≤◌, length};
ghost use Rattle.format.specs.Read.{operation};
ghost use Rattle.format.specs.Context.{write_empty_ec_or_write_aad};
ghost use Rattle.format.specs.Lent.{parts_in};
ghost use Rattle.format.specs.OnlyAuthenticated.{context_to_only_authenticate, write_only_authenticated as only_authenticated};
ghost use Rattle.wire.specs.Buffer.{from};
ghost use Rattle.entries.specs.Codes.{Reads};
ghost use Rattle.checks.specs.Answers.{written_as, whole};
ghost use Rattle.index.specs.Index.{Sorts};
ghost use Rattle.pair_index.specs.Index.{first_pairs, pair_from};
ghost use Rattle.context.specs.Stepping.{Lendable};
ghost use Rattle.only_authenticated.specs.Codes.{Puts, Claims, Enough};
ghost use Rattle.only_authenticated.specs.Marks.{Unmarked};

use checks::tables::{Parts, all_in_text};
use context::section::indexed_context_at;
use marking::mark_required;
use pair_index::PairIndex;
use putting::Marked;
use request::Mode;
use wire::buffer::ReadableBuffer;
use wire::reading::Uint;
use wire::refusals::{Reason, Refusal};

// The required ones of the pairs that the index has.
fn select(
    index: PairIndex,
    required: Parts,
    marks: &mut [bool],
    out: &mut [u8],
) -> Result<usize, Refusal>
    requires { (length index.keys.now ≤ 16384) × (length index.keys.now ≡ length marks.old) × Unmarked marks.old × Sorts (pair_from index.m.now index.first) (first_pairs index.m.now index.first index.n) index.n index.keys.now }
    ensures { Puts (write_empty_ec_or_write_aad (context_to_only_authenticate (parts_in required.entry.text.now required.entry.table.now) (first_pairs index.entry.m.now index.entry.first index.entry.n))) out.old out.new result }
{
    mark_required(index, required, marks);
    Marked { index, marks }.write(out)
}

// The operation at a place, with an index that has room for the section's pairs, and a mark for each of its places.
fn with_index(
    buffer: ReadableBuffer,
    text: &[u8],
    required: &[u32],
    keys: &mut [u16],
    marks: &mut [bool],
    out: &mut [u8],
) -> Result<usize, Refusal>
    requires { Lendable (length keys.old) × Enough buffer.bytes.now buffer.start (length keys.old) × (length keys.old ≤ 16384) × (length keys.old ≡ length marks.old) × Unmarked marks.old }
    ensures { Reads written_as whole (from (only_authenticated text.now required.now (length out.old)) buffer.entry) out.old out.new result }
{
    let pairs = indexed_context_at(buffer, Mode::Tolerant, keys)?;
    if required.len() % 2 != 0 {
        return Err(Reason::RequiredTableOrPlace.into());
    }
    if !all_in_text(text, required) {
        return Err(Reason::RequiredTableOrPlace.into());
    }
    let index = PairIndex {
        m: buffer.bytes,
        first: buffer.start + 4,
        n: pairs.value as usize,
        keys,
    };
    let required = Parts {
        text,
        table: required,
    };
    select(index, required, marks, out)
}

// How many pairs the section claims to have; 0 where it does not reach so far.
fn claimed(buffer: ReadableBuffer) -> u64
    ensures { Claims buffer.entry.bytes.now buffer.entry.start result }
{
    if buffer.start + 4 <= buffer.bytes.len() as u64 {
        return u16::known(buffer.bytes, buffer.start + 2);
    }
    0
}

// With an index for up to N pairs, or, at 16,384, for as many as any section has: arrays, since there is no heap.
fn with_room<const N: usize>(
    buffer: ReadableBuffer,
    text: &[u8],
    required: &[u32],
    out: &mut [u8],
) -> Result<usize, Refusal>
    requires { Lendable N × Enough buffer.bytes.now buffer.start N × (N ≤ 16384) }
    ensures { Reads written_as whole (from (only_authenticated text.now required.now (length out.old)) buffer.entry) out.old out.new result }
{
    let mut keys = [0u16; N];
    let mut marks = [false; N];
    with_index(buffer, text, required, &mut keys[..], &mut marks[..], out)
}

// WriteEmptyEcOrWriteAAD of the pairs whose keys are required, from the context section at a start, read tolerantly. A required key is
// a part of the text, two numbers each.
pub fn write_only_authenticated(
    m: &[u8],
    start: u64,
    text: &[u8],
    required: &[u32],
    out: &mut [u8],
) -> Result<usize, Refusal>
    ensures { Reads written_as whole (operation (only_authenticated text.now required.now (length out.old)) m.now start) out.old out.new result }
{
    let buffer = ReadableBuffer::new(m, start)?;
    if claimed(buffer) <= 32 {
        return with_room::<32>(buffer, text, required, out);
    }
    with_room::<16384>(buffer, text, required, out)
}
