// The encrypted data keys section.
#![tactic(auto)]

pub mod section;

ghost use Rattle.std.specs.Prelude.{◌≡◌, ◌<◌, length};
ghost use Rattle.format.specs.Read.{operation};
ghost use Rattle.format.specs.Keys.{read_encrypted_data_keys_section_into};
ghost use Rattle.format.specs.Lent.{key_numbers};
ghost use Rattle.wire.specs.Buffer.{from};
ghost use Rattle.request.specs.Codes.{max_of};
ghost use Rattle.entries.specs.Codes.{Reads, counted};

use request::Request;
use wire::SuccessfulRead;
use wire::buffer::ReadableBuffer;
use wire::refusals::{Reason, Refusal};

// A section at a place, and its key table, which is filled last: a refusal leaves it.
// Why it is not one function with `context`'s is said there.
fn section_into(
    buffer: ReadableBuffer,
    max: Option<u64>,
    table: &mut [u32],
) -> Result<SuccessfulRead<u64>, Refusal>
    ensures { Reads counted key_numbers (from (read_encrypted_data_keys_section_into (max_of max) (length table.old)) buffer.entry) table.old table.new result }
{
    let keys = section::keys_at(buffer, max)?;
    if ((table.len() / 6) as u64) < keys.value {
        return Err(Reason::KeyTableTooShort.into());
    }
    entries::fill_places(buffer.bytes, buffer.start + 2, 3 * keys.value, table);
    Ok(keys)
}

// ReadEncryptedDataKeysSection, likewise: how many keys there are. The places of the keys go into the table, six numbers a key.
pub fn read_encrypted_data_keys_section(
    m: &[u8],
    start: u64,
    request: Request,
    table: &mut [u32],
) -> Result<SuccessfulRead<u64>, Refusal>
    ensures { Reads counted key_numbers (operation (read_encrypted_data_keys_section_into (max_of request.max) (length table.old)) m.now start) table.old table.new result }
{
    section_into(ReadableBuffer::new(m, start)?, request.max, table)
}
