// Refusal 12, by an ordered index of the keys of the pairs before: numbers of pairs, in the order of their keys.
ghost use Rattle.std.specs.Prelude.{◌≡◌, ◌*◌, ◌≤◌, ◌<◌, length};
ghost use Rattle.index.specs.Index.{Sought};
ghost use Rattle.checks.specs.Table.{Within};
ghost use Rattle.checks.specs.Seen.{key_of, Indexed, New};

use super::tables::Parts;
use comparing::compare;
use index::{insert, search};

impl Parts<'_> {
    // Looks a key up among those of the first n pairs.
    fn find(self, n: usize, keys: &[u16], key: &[u8]) -> Result<usize, usize>
        requires { (Indexed self.text.now self.table.now n keys.now) × (n ≤ length keys.now) }
        ensures { Sought (key_of self.entry.text.now self.entry.table.now) n keys.now key.now result }
    {
        search(&keys[..n], |x| compare(self.part(4 * usize::from(x)), key))
    }

    // Whether the i-th pair has a key that no pair before it has. If so, it goes into the index.
    pub fn is_new(self, i: usize, keys: &mut [u16]) -> bool
        requires { (Indexed self.text.now self.table.now i keys.old) × (Within self.text.now self.table.now (4 * i)) × (i < length keys.old) × (i < 65536) }
        ensures { New self.entry.text.now self.entry.table.now i keys.new result }
    {
        let Err(p) = self.find(i, keys, self.part(4 * i)) else {
            return false;
        };
        insert(keys, p, i, i as u16);
        true
    }
}
