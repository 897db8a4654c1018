// An ordered index of the keys of pairs, so that a key that was seen before is found by halving. The index holds, in the
// order of the keys, how far behind the first pair each pair stands.
#![tactic(auto)]

ghost use Rattle.std.specs.Prelude.{◌≡◌, ◌≤◌, ◌<◌, length};
ghost use Rattle.index.specs.Index.{Sought};
ghost use Rattle.pair_index.specs.Index.{key_of, Index, Ready, Added};

use comparing::compare;
use entries::known_bytes;
use index::{insert, search};

// The keys of the first n pairs of a section, in their order: the pairs stand from `first` on.
#[derive(Clone, Copy)]
pub struct PairIndex<'a> {
    pub m: &'a [u8],
    pub first: u64,
    pub n: usize,
    pub keys: &'a [u16],
    // The bound of a start and of the four bytes in front of a section's pairs: where there is no pair it may lie behind the message's end.
    ghost near: { first < 4294967300 },
    ghost room: { n ≤ length keys.now },
    ghost indexed: { Index m.now first n keys.now },
}

impl PairIndex<'_> {
    pub fn find(&self, key: &[u8]) -> Result<usize, usize>
        ensures { Sought (key_of self.now.m.now self.now.first) self.now.n self.now.keys.now key.now result }
    {
        search(
            &self.keys[..self.n],
            |x| compare(known_bytes(self.m, self.first + u64::from(x)), key),
        )
    }
}

// Whether one of the n pairs of the index has the key of the pair behind them, which stands at `at`. If none has, that key
// goes into the index.
pub fn seen_or_add(m: &[u8], first: u64, n: usize, at: u64, keys: &mut [u16]) -> bool
    requires { Ready m.now first n at keys.old × (length m.now < 4294967296) }
    ensures { Added m.now first n at keys.new result }
{
    let index = PairIndex { m, first, n, keys };
    let Err(p) = index.find(known_bytes(m, at)) else {
        return true;
    };
    insert(keys, p, n, (at - first) as u16);
    false
}
