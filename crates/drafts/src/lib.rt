// A draft, mended in the buffer in which it stands: keys taken out of it, or one added. It is read in either version, tolerantly, without
// tables or maximum; its keys are walked, and no copy of it is made.
#![tactic(auto)]

mod adding;
mod dropping;

ghost use Rattle.std.specs.Prelude.{◌≡◌, length};
ghost use Rattle.format.specs.Read.{operation};
ghost use Rattle.format.specs.Mending.{drop_encrypted_data_keys, add_encrypted_data_key};
ghost use Rattle.checks.specs.Answers.{written_as};
ghost use Rattle.drafts.specs.Codes.{Mends, Found};

use adding::EncryptedDataKey;
use body_measure::{Measurement, measure};
use request::Request;
use wire::buffer::ReadableBuffer;
use wire::refusals::Refusal;

fn read_draft(m: &[u8]) -> Result<Measurement, Refusal>
    ensures { Found m.now result }
{
    measure(ReadableBuffer::new(m, 0)?, Request::default())
}

// Takes all keys with the provider ID out of the draft at the front of the buffer. The answer is the new tail.
pub fn drop_encrypted_data_keys(draft: &mut [u8], id: &[u8]) -> Result<usize, Refusal>
    ensures { Mends written_as (operation (drop_encrypted_data_keys id.now) draft.old 0) draft.old draft.new result }
{
    let body = read_draft(draft)?;
    dropping::take_out(draft, body, id)
}

// Adds a key behind those of the draft at the front of the buffer. The answer is the new tail.
pub fn add_encrypted_data_key(
    draft: &mut [u8],
    id: &[u8],
    info: &[u8],
    cipher: &[u8],
) -> Result<usize, Refusal>
    ensures { Mends written_as (operation (add_encrypted_data_key (record { keyProviderId = id.now; keyProviderInfo = info.now; ciphertext = cipher.now }) (length draft.old)) draft.old 0) draft.old draft.new result }
{
    let body = read_draft(draft)?;
    let key = EncryptedDataKey {
        keyProviderId: id,
        keyProviderInfo: info,
        ciphertext: cipher,
    };
    key.add(draft, body)
}
