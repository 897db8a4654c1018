// Reading at a place of a message, for the readers that are put together of these. They require a start below 2^32, which
// refusal 1 answers for, so that no place wraps; `operations` has the same without a `requires`.
ghost use Rattle.std.specs.Prelude.{ℕ, List, ◌≡◌, ◌+◌, ◌≤◌, ◌<◌, ◌^◌, length};
ghost use Rattle.format.specs.Read.{Reader, accepted, refused, at, addressable};
ghost use Rattle.format.specs.Serialize.{read, read_at, read_uint8, read_uint16, read_uint32, read_short_length_seq};
ghost use Rattle.format.specs.Context.{read_text};
ghost use Rattle.std.proofs.Common.{lit<};
ghost use Rattle.steps.proofs.Numbers.{uint8_got, uint8_no, uint16_got, uint16_no, uint32_got, uint32_no};
ghost use Rattle.format.specs.Places.{number8, number16, number32};
ghost use Rattle.wire.specs.Codes.{number_of, span_of, end_of, limit_of, beyond_of, Below};

use super::refusals::{Reason, Refusal, refuse};
use super::{Span, SuccessfulRead};

// Refusal 1: both have to be at most 4,294,967,295.
pub fn is_addressable(m: &[u8], start: u64) -> bool
    ensures { result ≡ addressable m.now start }
{
    m.len() <= 4294967295 && start <= 4294967295
}

// A number of 8, 16 or 32 bits, which stands with its high byte first.
pub trait Uint {
    const SIZE: u64;

    ghost SIZE: { ℕ };

    // The least number that needs more bytes.
    ghost limit: { ℕ };

    // The number that stands at a place, and the source's reader of it.
    ghost here: { List ℕ → ℕ → ℕ };

    ghost reader: { Reader ℕ };

    ghost some: { (0 < SIZE) × (SIZE < 5) };

    ghost got: { (m : List ℕ) (s : ℕ) → s + SIZE ≤ length m → at reader m s ≡ accepted (here m s) (s + SIZE) };

    ghost no: { (m : List ℕ) (s : ℕ) → length m < s + SIZE → at reader m s ≡ refused 2 (s + SIZE) };

    // The number at a place where one is known to stand.
    fn known(m: &[u8], s: u64) -> u64
        requires { s + SIZE ≤ length m.now }
        ensures { (result ≡ here m.now s) × (result < limit) };
}

impl Uint for u8 {
    const SIZE: u64 = 1;

    ghost SIZE = { 1 };

    ghost limit = { 256 };

    ghost here = { number8 };

    ghost reader = { read_uint8 };

    ghost some = { (lit< tt, lit< tt) };

    ghost got = { λ m s. uint8_got m s };

    ghost no = { λ m s. uint8_no m s };

    fn known(m: &[u8], s: u64) -> u64 {
        u64::from(m[s as usize])
    }
}

impl Uint for u16 {
    const SIZE: u64 = 2;

    ghost SIZE = { 2 };

    ghost limit = { 65536 };

    ghost here = { number16 };

    ghost reader = { read_uint16 };

    ghost some = { (lit< tt, lit< tt) };

    ghost got = { λ m s. uint16_got m s };

    ghost no = { λ m s. uint16_no m s };

    fn known(m: &[u8], s: u64) -> u64 {
        let at = s as usize;
        u64::from(u16::from_be_bytes([m[at], m[at + 1]]))
    }
}

impl Uint for u32 {
    const SIZE: u64 = 4;

    ghost SIZE = { 4 };

    ghost limit = { 4294967296 };

    ghost here = { number32 };

    ghost reader = { read_uint32 };

    ghost some = { (lit< tt, lit< tt) };

    ghost got = { λ m s. uint32_got m s };

    ghost no = { λ m s. uint32_no m s };

    fn known(m: &[u8], s: u64) -> u64 {
        let at = s as usize;
        u64::from(u32::from_be_bytes([m[at], m[at + 1], m[at + 2], m[at + 3]]))
    }
}

// ReadUInt16 and ReadUInt32, and a byte likewise.
pub fn read_uint<N: Uint>(m: &[u8], s: u64) -> Result<SuccessfulRead<u64>, Refusal>
    requires { s < 4294967296 }
    ensures { (result ≡ number_of (at N.reader m.now s)) × Below N.limit result }
{
    let tail = s + N::SIZE;
    if tail <= m.len() as u64 {
        let value = N::known(m, s);
        return Ok(SuccessfulRead { value, tail });
    }
    Err(Refusal::shortage(tail))
}

// n bytes, by document 01's words: they are there when s + n is at most the message's length, n = 0 included.
pub fn bytes_at(m: &[u8], s: u64, n: u64) -> Result<Span, Refusal>
    requires { s + n < 2 ^ 64 }
    ensures { result ≡ span_of (read_at n m.now s) }
{
    let tail = s + n;
    if (m.len() as u64) < tail {
        return Err(Refusal::shortage(tail));
    }
    Ok(Span {
        start: s,
        len: n,
        tail,
    })
}

// n bytes, one at least, at any start.
pub fn read_some_bytes(m: &[u8], s: u64, n: u64) -> Result<Span, Refusal>
    requires { (0 < n) × (n < 65536) × (s < 4294967296) }
    ensures { result ≡ span_of (at (read n) m.now s) }
{
    bytes_at(m, s, n)
}

// Up to where bytes may be read: the end, where the message reaches it, or else the message's.
fn limit(m: &[u8], end: Option<u64>) -> u64
    ensures { result ≡ limit_of (end_of end) (length m.now) }
{
    let all = m.len() as u64;
    end.map_or(all, |place| place.min(all))
}

// Why bytes that would end at `tail`, beyond the limit, can't be read: that they run past the end comes before a shortage.
fn beyond(end: Option<u64>, tail: u64) -> Refusal
    ensures { result ≡ beyond_of (end_of end) tail }
{
    let Some(place) = end else {
        return Refusal::shortage(tail);
    };
    if place < tail {
        return Reason::PastSection.into();
    }
    Refusal::shortage(tail)
}

// ReadShortLengthSeq, held to an end.
pub fn read_entry(m: &[u8], s: u64, end: Option<u64>) -> Result<Span, Refusal>
    requires { s < 4294967296 }
    ensures { result ≡ span_of (at (read_short_length_seq (end_of end)) m.now s) }
{
    let start = s + 2;
    let to = limit(m, end);
    if to < start {
        return Err(beyond(end, start));
    }
    let len = u16::known(m, s);
    let tail = start + len;
    if to < tail {
        return Err(beyond(end, tail));
    }
    Ok(Span { start, len, tail })
}

// An entry of UTF-8, held to an end, else the refusal with the number.
pub fn read_text(m: &[u8], s: u64, end: Option<u64>, number: u8) -> Result<Span, Refusal>
    requires { s < 4294967296 }
    ensures { result ≡ span_of (at (read_text (end_of end) number) m.now s) }
{
    let entry = read_entry(m, s, end)?;
    if utf8::part_is_utf8(m, entry.start, entry.len) {
        return Ok(entry);
    }
    Err(refuse(number))
}
