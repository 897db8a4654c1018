// The leaves for a host program in C or Rust: numbers and structs of numbers cross the boundary by value. C has no generic function: an
// export for each width.
#![tactic(auto)]

ghost use Rattle.std.specs.Prelude.{◌≡◌, ◌+◌, leb};
ghost use Rattle.format.specs.Read.{operation};
ghost use Rattle.format.specs.Serialize.{read_operation, read_uint8, read_uint16, read_uint32, read_short_length_seq};
ghost use Rattle.format.specs.Shared.{suite_version};
ghost use Rattle.wire.specs.Codes.{end_of};
ghost use Rattle.leaves_c.specs.Exports.{end_asked, number_record, part_record, number_fields, part_fields, truth, order_number, utf8_number, same_number, compare_number, can_put, put_number, put_output};

use std::cmp::Ordering;
use suites::Suite;
use wire::refusals::Refusal;
use wire::{Span, SuccessfulRead, operations};

// A number that was read: refusal 0 where it was accepted.
#[repr(C)]
#[derive(Clone, Copy)]
pub struct LeafNumber {
    pub refusal: u64,
    pub position: u64,
    pub value: u64,
    pub tail: u64,
}

// A part that was read.
#[repr(C)]
#[derive(Clone, Copy)]
pub struct LeafPart {
    pub refusal: u64,
    pub position: u64,
    pub start: u64,
    pub len: u64,
    pub tail: u64,
}

impl From<Result<SuccessfulRead<u64>, Refusal>> for LeafNumber {
    ghost from_gives = { λ x r. r ≡ number_fields x };

    fn from(number: Result<SuccessfulRead<u64>, Refusal>) -> LeafNumber {
        match number {
            Ok(SuccessfulRead { value, tail }) => LeafNumber {
                refusal: 0,
                position: 0,
                value,
                tail,
            },
            Err(q) => LeafNumber {
                refusal: u64::from(q.number),
                position: q.position,
                value: 0,
                tail: 0,
            },
        }
    }
}

impl From<Result<Span, Refusal>> for LeafPart {
    ghost from_gives = { λ x r. r ≡ part_fields x };

    fn from(part: Result<Span, Refusal>) -> LeafPart {
        match part {
            Ok(Span { start, len, tail }) => LeafPart {
                refusal: 0,
                position: 0,
                start,
                len,
                tail,
            },
            Err(q) => LeafPart {
                refusal: u64::from(q.number),
                position: q.position,
                start: 0,
                len: 0,
                tail: 0,
            },
        }
    }
}

// 0 where the number is in no row of the table.
#[unsafe(no_mangle)]
pub extern "C" fn leaf_suite_version(number: u32) -> u8
    ensures { result ≡ suite_version number }
{
    Suite::from_number(number).map_or(0, |suite| suite.version)
}

#[unsafe(no_mangle)]
pub extern "C" fn leaf_read_u8(m: &[u8], start: u64) -> LeafNumber
    ensures { result ≡ number_record (operation read_uint8 m.now start) }
{
    operations::read_uint::<u8>(m, start).into()
}

#[unsafe(no_mangle)]
pub extern "C" fn leaf_read_u16(m: &[u8], start: u64) -> LeafNumber
    ensures { result ≡ number_record (operation read_uint16 m.now start) }
{
    operations::read_uint::<u16>(m, start).into()
}

#[unsafe(no_mangle)]
pub extern "C" fn leaf_read_u32(m: &[u8], start: u64) -> LeafNumber
    ensures { result ≡ number_record (operation read_uint32 m.now start) }
{
    operations::read_uint::<u32>(m, start).into()
}

#[unsafe(no_mangle)]
pub extern "C" fn leaf_read_bytes(m: &[u8], start: u64, n: u32) -> LeafPart
    ensures { result ≡ part_record (read_operation n m.now start) }
{
    operations::read_bytes(m, start, n).into()
}

// 0: no end; any other: the place `end`. C has no `Option`.
fn end_asked(hasEnd: u32, end: u64) -> Option<u64>
    ensures { result ≡ end_asked hasEnd end }
{
    (hasEnd != 0).then_some(end)
}

#[unsafe(no_mangle)]
pub extern "C" fn leaf_read_entry(m: &[u8], start: u64, hasEnd: u32, end: u64) -> LeafPart
    ensures { result ≡ part_record (operation (read_short_length_seq (end_of (end_asked hasEnd end))) m.now start) }
{
    operations::read_entry(m, start, end_asked(hasEnd, end)).into()
}

// Whether a part lies within so many bytes.
fn lies_within(start: u64, len: u64, total: u64) -> bool
    ensures { result ≡ leb (start + len) total }
{
    start <= total && len <= total - start
}

// 1 where the part is UTF-8, 0 where it is not, 3 where it does not lie within m.
#[unsafe(no_mangle)]
pub extern "C" fn leaf_is_utf8(m: &[u8], start: u64, len: u64) -> u8
    ensures { result ≡ utf8_number m.now start len }
{
    if lies_within(start, len, m.len() as u64) {
        return u8::from(utf8::part_is_utf8(m, start, len));
    }
    3
}

// 1 where the parts are equal, 0 where they are not, 3 where one does not lie within m.
#[unsafe(no_mangle)]
pub extern "C" fn leaf_same_parts(m: &[u8], a: u64, alen: u64, b: u64, blen: u64) -> u8
    ensures { result ≡ same_number m.now a alen b blen }
{
    if lies_within(a, alen, m.len() as u64) && lies_within(b, blen, m.len() as u64) {
        return u8::from(comparing::same_parts(m, a, alen, b, blen));
    }
    3
}

// The numbers that C has for them.
fn order_number(o: Ordering) -> u8
    ensures { result ≡ order_number o }
{
    match o {
        Ordering::Less => 0,
        Ordering::Equal => 1,
        Ordering::Greater => 2,
    }
}

// 0 where the first part is less, 1 where they are equal, 2 where it is greater, 3 where one does not lie within m.
#[unsafe(no_mangle)]
pub extern "C" fn leaf_compare_parts(m: &[u8], a: u64, alen: u64, b: u64, blen: u64) -> u8
    ensures { result ≡ compare_number m.now a alen b blen }
{
    if lies_within(a, alen, m.len() as u64) && lies_within(b, blen, m.len() as u64) {
        return order_number(comparing::compare_parts(m, a, alen, b, blen));
    }
    3
}

// Whether an entry of the part can be written at the place.
fn can_put(text: u64, start: u64, len: u64, out: u64, at: u64) -> bool
    ensures { result ≡ can_put text start len out at }
{
    lies_within(start, len, text) && len <= 65535 && lies_within(at, len + 2, out)
}

// 1 where the entry was written; 0 where the part does not lie within the text, is above 65,535 bytes, or does not fit the output,
// which is then as it was.
#[unsafe(no_mangle)]
pub extern "C" fn leaf_put_entry(text: &[u8], start: u64, len: u64, out: &mut [u8], at: u64) -> u8
    ensures { (result ≡ put_number text.now start len out.old at) × (out.new ≡ put_output text.now start len out.old at) }
{
    if can_put(text.len() as u64, start, len, out.len() as u64, at) {
        wire::writing::write_short_length_seq(text, start as usize, len as usize, out, at as usize);
        return 1;
    }
    0
}
