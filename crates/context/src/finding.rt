// Finding a value in the context section at a place of a message, without refusal 1.
ghost use Rattle.std.specs.Prelude.{◌≡◌, ◌≤◌, ◌<◌, length};
ghost use Rattle.format.specs.Context.{find_value};
ghost use Rattle.format.specs.Places.{pairs_here, pairs_end};
ghost use Rattle.wire.specs.Buffer.{from};
ghost use Rattle.context.specs.Codes.{found_of, found_in};

use super::{Place, section};
use request::Mode;
use wire::buffer::ReadableBuffer;
use wire::refusals::{Reason, Refusal};

// The value of the first of the `count` pairs from `first` on that has the key.
fn look_up(m: &[u8], first: u64, count: u64, key: &[u8]) -> Result<Place, Refusal>
    requires { 0 < count → pairs_end m.now count first ≤ length m.now }
    ensures { result ≡ found_in key.now (pairs_here m.now count first) }
{
    let mut s = first;
    for _ in 0..count {
        let k = entries::known_entry(m, s);
        let v = entries::known_entry(m, k.tail);
        if comparing::same(key, entries::known_bytes(m, s)) {
            return Ok(Place {
                start: v.start,
                len: v.len,
            });
        }
        s = v.tail;
    }
    Err(Reason::NotFound.into())
}

// GetEncryptionContext, as a find, of the section at a place.
pub(crate) fn value_at(buffer: ReadableBuffer, key: &[u8]) -> Result<Place, Refusal>
    ensures { result ≡ found_of (from (find_value key.now) buffer.entry) }
{
    let pairs = section::context_at(buffer, Mode::Tolerant)?;
    look_up(buffer.bytes, buffer.start + 4, pairs.value, key)
}
