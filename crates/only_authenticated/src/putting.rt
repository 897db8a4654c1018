// Writes the pairs of the marked places of an index, in its order.
ghost use Rattle.std.specs.Prelude.{◌≡◌, ◌+◌, ◌≤◌, ◌<◌, length};
ghost use Rattle.format.specs.Fields.{pair_of};
ghost use Rattle.format.specs.Context.{pair_length, linear_length, write_aad_pair, write_aad_pairs, write_empty_ec_or_write_aad};
ghost use Rattle.format.specs.Places.{pair_here, pair_end};
ghost use Rattle.wire.specs.Stored.{stored};
ghost use Rattle.only_authenticated.specs.Codes.{Puts};
ghost use Rattle.only_authenticated.specs.Marks.{StandsAt, marked_at, marked};
ghost use Rattle.only_authenticated.specs.Totals.{Adds};

use entries::known_entry;
use pair_index::PairIndex;
use wire::refusals::{Reason, Refusal};
use wire::writing::{write_short_length_seq, write_uint16};

// How many pairs are marked, and how many bytes they take.
#[derive(Clone, Copy)]
struct Total {
    count: usize,
    size: usize,
}

// How many bytes the pair at a place takes.
fn pair_size(m: &[u8], s: u64) -> usize
    requires { pair_end m.now s ≤ length m.now }
    ensures { (result ≡ pair_length (pair_of (pair_here m.now s))) × (result < 131076) }
{
    let k = known_entry(m, s);
    let v = known_entry(m, k.tail);
    4 + (k.len as usize) + (v.len as usize)
}

// WriteAADPair, of the pair at a place. Gives the place behind it in the output, as in `wire::writing`.
fn put_pair(m: &[u8], s: u64, out: &mut [u8], at: usize) -> usize
    requires { (pair_end m.now s ≤ length m.now) × (at + pair_length (pair_of (pair_here m.now s)) ≤ length out.old) }
    ensures { (result ≡ at + pair_length (pair_of (pair_here m.now s))) × (out.new ≡ stored out.old at (write_aad_pair (pair_of (pair_here m.now s)))) }
{
    let k = known_entry(m, s);
    let v = known_entry(m, k.tail);
    write_short_length_seq(m, k.start as usize, k.len as usize, out, at);
    let second = at + 2 + k.len as usize;
    write_short_length_seq(m, v.start as usize, v.len as usize, out, second);
    second + 2 + v.len as usize
}

// An index, and for each of its places whether the pair that stands there is to be written.
#[derive(Clone, Copy)]
pub(crate) struct Marked<'a> {
    pub(crate) index: PairIndex<'a>,
    pub(crate) marks: &'a [bool],
    ghost each: { length index.keys.now ≡ length marks.now },
    // No section has more pairs, and so no sum of them is too large.
    ghost few: { length index.keys.now ≤ 16384 },
}

impl Marked<'_> {
    // Where the pair at place i of the index stands.
    fn place(&self, i: usize) -> u64
        requires { i < self.now.index.n }
        ensures { StandsAt self.now.index i result }
    {
        self.index.first + u64::from(self.index.keys[i])
    }

    // Counts the pair at place i, if the place is marked.
    fn add(&self, i: usize, t: Total) -> Total
        requires { (i < self.now.index.n) × (t.count < 65536) × (t.size < 9007199254740992) }
        ensures { Adds (marked_at self.now.index self.now.marks.now i) t result × (result.count ≤ t.count + 1) × (result.size ≤ t.size + 131076) }
    {
        if !self.marks[i] {
            return t;
        }
        Total {
            count: t.count + 1,
            size: t.size + pair_size(self.index.m, self.place(i)),
        }
    }

    // All of them.
    fn total(&self) -> Total
        ensures { Adds (marked self.now.index self.now.marks.now self.now.index.n 0) (record { count = 0; size = 0 }) result × (result.count < 65536) × (result.size < 9007199254740992) }
    {
        let mut t = Total { count: 0, size: 0 };
        for i in 0..self.index.n {
            t = self.add(i, t);
        }
        t
    }

    // WriteAADPair of the pair at place i, if the place is marked.
    fn put_one(&self, i: usize, out: &mut [u8], at: usize) -> usize
        requires { (i < self.now.index.n) × (at + linear_length (marked_at self.now.index self.now.marks.now i) ≤ length out.old) }
        ensures { (result ≡ at + linear_length (marked_at self.now.index self.now.marks.now i)) × (out.new ≡ stored out.old at (write_aad_pairs (marked_at self.now.index self.now.marks.now i))) }
    {
        if !self.marks[i] {
            return at;
        }
        put_pair(self.index.m, self.place(i), out, at)
    }

    // WriteAADPairs, of the marked pairs.
    fn put(&self, out: &mut [u8], from: usize)
        requires { from + linear_length (marked self.now.index self.now.marks.now self.now.index.n 0) ≤ length out.old }
        ensures { out.new ≡ stored out.old from (write_aad_pairs (marked self.now.index self.now.marks.now self.now.index.n 0)) }
    {
        let mut at = from;
        for i in 0..self.index.n {
            at = self.put_one(i, out, at);
        }
    }

    // WriteEmptyEcOrWriteAAD, of the marked pairs, where the output holds it.
    pub(crate) fn write(&self, out: &mut [u8]) -> Result<usize, Refusal>
        ensures { Puts (write_empty_ec_or_write_aad (marked self.now.index self.now.marks.now self.now.index.n 0)) out.old out.new result }
    {
        let t = self.total();
        if t.count == 0 {
            return Ok(0);
        }
        let size = 2 + t.size;
        if out.len() < size {
            return Err(Reason::OutputTooShort.into());
        }
        write_uint16(out, 0, t.count as u16);
        self.put(out, 2);
        Ok(size)
    }
}
