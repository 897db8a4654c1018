// The context section: reading it, and finding a value in it.
#![tactic(auto)]

mod finding;
mod pairs;
pub mod section;

ghost use Rattle.std.specs.Prelude.{◌≡◌, ◌+◌, ◌≤◌, ◌<◌, length};
ghost use Rattle.format.specs.Read.{operation};
ghost use Rattle.format.specs.Context.{read_aad_section_into, find_value as value_of};
ghost use Rattle.format.specs.Lent.{pair_numbers, found_part};
ghost use Rattle.format.specs.Places.{part_of};
ghost use Rattle.wire.specs.Buffer.{from};
ghost use Rattle.request.specs.Codes.{mode_of};
ghost use Rattle.entries.specs.Codes.{Reads, counted};
ghost use Rattle.context.specs.Codes.{found_of, PartOf};

use request::{Mode, Request};
use wire::SuccessfulRead;
use wire::buffer::ReadableBuffer;
use wire::refusals::{Reason, Refusal};

// Where a value that was found stands.
#[derive(Clone, Copy)]
pub struct Place {
    pub start: u64,
    pub len: u64,
}

// A section at a place, and its pair table, which is filled last: a refusal leaves it.
// Not one function with that of `keys`: it would be handed the reader, its definition, the entries of an item and the refusal, to share a test and a call.
fn section_into(
    buffer: ReadableBuffer,
    mode: Mode,
    table: &mut [u32],
) -> Result<SuccessfulRead<u64>, Refusal>
    ensures { Reads counted pair_numbers (from (read_aad_section_into (mode_of mode) (length table.old)) buffer.entry) table.old table.new result }
{
    let pairs = section::context_at(buffer, mode)?;
    if ((table.len() / 4) as u64) < pairs.value {
        return Err(Reason::PairTableTooShort.into());
    }
    entries::fill_places(buffer.bytes, buffer.start + 4, 2 * pairs.value, table);
    Ok(pairs)
}

// ReadAADSection, the source's function, which is like that of keys in its outer form alone: how many pairs there are. The places of the pairs go into the table, four numbers a pair.
pub fn read_aad_section(
    m: &[u8],
    start: u64,
    request: Request,
    table: &mut [u32],
) -> Result<SuccessfulRead<u64>, Refusal>
    ensures { Reads counted pair_numbers (operation (read_aad_section_into (mode_of request.mode) (length table.old)) m.now start) table.old table.new result }
{
    section_into(ReadableBuffer::new(m, start)?, request.mode, table)
}

// Where the value of a key stands, in the section at a start, read tolerantly. Inlined, so that what is found doesn't go through memory.
#[inline(always)]
pub fn find_value(m: &[u8], start: u64, key: &[u8]) -> Result<Place, Refusal>
    ensures { result ≡ found_of (operation (value_of key.now) m.now start) }
{
    finding::value_at(ReadableBuffer::new(m, start)?, key)
}

fn part<'a>(m: &'a [u8], from: usize, len: usize) -> &'a [u8]
    requires { from + len ≤ length m.now }
    ensures { PartOf m.entry result (part_of m.now from len) }
{
    let to = from + len;
    &m[from..to]
}

// The same value as a part of the message, in the message's own memory; on a refusal the empty first part.
pub fn find_part<'a>(m: &'a [u8], start: u64, key: &[u8]) -> &'a [u8]
    ensures { PartOf m.entry result (found_part (operation (value_of key.now) m.now start)) }
{
    let Ok(value) = find_value(m, start, key) else {
        return part(m, 0, 0);
    };
    part(m, value.start as usize, value.len as usize)
}
