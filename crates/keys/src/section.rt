// A key section at a place of a message, without refusal 1 and without its table.
ghost use Rattle.std.specs.Prelude.{◌≡◌, [], ◌≤◌, ◌<◌, length};
ghost use Rattle.format.specs.Read.{repeat};
ghost use Rattle.format.specs.Keys.{within as is_within, read_encrypted_data_key, read_encrypted_data_keys_section};
ghost use Rattle.wire.specs.Buffer.{from};
ghost use Rattle.request.specs.Codes.{max_of};
ghost use Rattle.entries.specs.Codes.{next_of, counted};
ghost use Rattle.keys.specs.Codes.{any_key};

use wire::SuccessfulRead;
use wire::buffer::ReadableBuffer;
use wire::refusals::{Reason, Refusal};

// The maximum is not passed by that many keys.
fn within(max: Option<u64>, count: u64) -> bool
    ensures { result ≡ is_within count (max_of max) }
{
    max.is_none_or(|n| count <= n)
}

// ReadEncryptedDataKey: provider ID, provider info, ciphertext. A key section stores no length that could end them.
fn read_key(buffer: ReadableBuffer) -> Result<u64, Refusal>
    ensures { result ≡ next_of (from read_encrypted_data_key buffer.entry) }
{
    let id = buffer.read_text(None, Reason::ProviderIdNotUtf8)?;
    let info = buffer.at(id.tail).read_entry(None)?;
    let ciphertext = buffer.at(info.tail).read_entry(None)?;
    Ok(ciphertext.tail)
}

// ReadEncryptedDataKeys: where the `count` keys from `first` on end.
fn read_keys(buffer: ReadableBuffer, count: u64) -> Result<u64, Refusal>
    requires { buffer.start ≤ length buffer.bytes.now }
    ensures { result ≡ next_of (from (repeat count any_key []) buffer.entry) }
{
    let mut s = buffer.start;
    for _ in 0..count {
        s = read_key(buffer.at(s))?;
    }
    Ok(s)
}

// ReadEncryptedDataKeysSection at a place: the count is tested before any key is read.
pub fn keys_at(buffer: ReadableBuffer, max: Option<u64>) -> Result<SuccessfulRead<u64>, Refusal>
    ensures { result ≡ counted (from (read_encrypted_data_keys_section (max_of max)) buffer.entry) }
{
    let count = buffer.read_uint::<u16>()?;
    if count.value == 0 {
        return Err(Reason::NoEncryptedDataKey.into());
    }
    if !within(max, count.value) {
        return Err(Reason::TooManyKeys.into());
    }
    let tail = read_keys(buffer.at(count.tail), count.value)?;
    Ok(SuccessfulRead {
        value: count.value,
        tail,
    })
}
