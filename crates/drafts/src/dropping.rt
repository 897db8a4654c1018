// Taking keys out: those that remain close up one after the other, then what stands behind them.
ghost use Rattle.std.specs.Prelude.{◌≡◌, ◌++◌, ◌+◌, ◌-◌, ◌≤◌, ◌<◌, length};
ghost use Rattle.format.specs.Read.{operation};
ghost use Rattle.format.specs.Serialize.{Bytes, write_uint16};
ghost use Rattle.format.specs.Auth.{zeros};
ghost use Rattle.format.specs.Lent.{bytes_at};
ghost use Rattle.format.specs.Places.{key_end, keys_end};
ghost use Rattle.format.specs.Mending.{drop_encrypted_data_keys};
ghost use Rattle.wire.specs.Stored.{stored};
ghost use Rattle.checks.specs.Answers.{written_as};
ghost use Rattle.drafts.specs.Codes.{Mends, Stands};
ghost use Rattle.drafts.specs.Dropping.{is_provided_by, Passed, ClosedUp};

use body_measure::Measurement;
use comparing::same;
use entries::{known_bytes, known_entry};
use moving::{clear, move_bytes};
use wire::refusals::{Reason, Refusal};
use wire::writing::write_uint16;

// How many keys are kept, and the place behind them.
#[derive(Clone, Copy)]
struct Kept {
    count: u64,
    end: u64,
}

// Whether the key that is known to stand at a place has the provider ID, which is compared whole.
fn has_provider(m: &[u8], s: u64, id: &[u8]) -> bool
    requires { key_end m.now s ≤ length m.now }
    ensures { result ≡ is_provided_by id.now m.now s }
{
    same(id, known_bytes(m, s))
}

// The place behind that key.
fn key_tail(m: &[u8], s: u64) -> u64
    requires { key_end m.now s ≤ length m.now }
    ensures { result ≡ key_end m.now s }
{
    let provider = known_entry(m, s);
    let info = known_entry(m, provider.tail);
    let ciphertext = known_entry(m, info.tail);
    ciphertext.tail
}

// Keeps the bytes from one place up to another, and gives the place behind them. Where nothing was taken out in front of them they stay.
fn keep(m: &mut [u8], from: u64, tail: u64, to: u64) -> u64
    requires { (to ≤ from) × (from ≤ tail) × (tail ≤ length m.old) }
    ensures { (result ≡ to + (tail - from)) × (m.new ≡ stored m.old to (bytes_at m.old from (tail - from))) }
{
    let len = tail - from;
    if to < from {
        move_bytes(m, from as usize, to as usize, len as usize);
    }
    to + len
}

// Passes the key that stands from s to `tail`, which goes or is kept behind those that were.
fn pass(m: &mut [u8], s: u64, tail: u64, id: &[u8], kept: Kept) -> Kept
    requires { (kept.end ≤ s) × (tail ≡ key_end m.old s) × (tail ≤ length m.old) × (kept.count < 4294967296) }
    ensures { Passed id.now s kept m.old m.new result }
{
    if has_provider(m, s, id) {
        return kept;
    }
    let end = keep(m, s, tail, kept.end);
    Kept {
        count: kept.count + 1,
        end,
    }
}

// Closes up the keys that remain of the `count` from `first` on.
fn close_up(m: &mut [u8], first: u64, count: u64, id: &[u8]) -> Kept
    requires { (keys_end m.old count first ≤ length m.old) × Bytes m.old × (count < 65536) }
    ensures { ClosedUp id.now m.old first count m.new result }
{
    let mut s = first;
    let mut kept = Kept {
        count: 0,
        end: first,
    };
    for _ in 0..count {
        let tail = key_tail(m, s);
        kept = pass(m, s, tail, id, kept);
        s = tail;
    }
    kept
}

// The count, what stands behind the keys, and 00 up to the old tail; gives the new one.
fn close(m: &mut [u8], draft: Measurement, kept: Kept) -> u64
    requires { (draft.keysStart + 2 ≤ kept.end) × (kept.end ≤ draft.keysEnd) × (draft.keysEnd ≤ draft.tail) × (draft.tail ≤ length m.old) × (kept.count < 65536) }
    ensures { (result ≡ kept.end + (draft.tail - draft.keysEnd)) × (m.new ≡ stored (stored m.old draft.keysStart (write_uint16 kept.count)) kept.end (bytes_at m.old draft.keysEnd (draft.tail - draft.keysEnd) ++ zeros (draft.keysEnd - kept.end))) }
{
    write_uint16(m, draft.keysStart as usize, kept.count as u16);
    let tail = keep(m, draft.keysEnd, draft.tail, kept.end);
    clear(m, tail as usize, draft.tail as usize);
    tail
}

// Of a draft that stands at the front. While no key is kept none has moved: 40 finds the buffer as it was.
pub(crate) fn take_out(m: &mut [u8], draft: Measurement, id: &[u8]) -> Result<usize, Refusal>
    requires { Stands m.old draft }
    ensures { Mends written_as (operation (drop_encrypted_data_keys id.now) m.old 0) m.old m.new result }
{
    let kept = close_up(m, draft.keysStart + 2, draft.keyCount, id);
    if kept.count == 0 {
        return Err(Reason::NoKeyRemains.into());
    }
    let tail = close(m, draft, kept);
    Ok(tail as usize)
}
