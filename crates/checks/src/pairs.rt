// The checks of a context section's pairs.
ghost use Rattle.std.specs.Prelude.{◌≡◌, [], ◌/◌, ◌≤◌, ◌<◌, length};
ghost use Rattle.format.specs.Checks.{first, each, pair_checks};
ghost use Rattle.format.specs.Lent.{pairs_in, writing_aad_section};
ghost use Rattle.checks.specs.Answers.{checked};
ghost use Rattle.checks.specs.Seen.{Indexed, PairChecked, Reached, CheckedUpTo};

use super::tables::{Parts, check_table, entries_size};
use wire::refusals::{Reason, Refusal};

impl Parts<'_> {
    // 10, 11 and 12 of the i-th pair. The index has the keys of the pairs before it, and then its own.
    fn check_pair(self, i: usize, keys: &mut [u16]) -> Result<(), Refusal>
        requires { (i < length self.table.now / 4) × (Indexed self.text.now self.table.now i keys.old) × (i < length keys.old) × (i < 65536) }
        ensures { PairChecked self.entry.text.now self.entry.table.now i keys.new result }
    {
        if !self.is_text(4 * i) {
            return Err(Reason::KeyNotUtf8.into());
        }
        if !self.is_text(4 * i + 2) {
            return Err(Reason::ValueNotUtf8.into());
        }
        if !self.is_new(i, keys) {
            return Err(Reason::KeySeenBefore.into());
        }
        Ok(())
    }

    // The same of the pairs from the `from`-th to the `to`-th, whose keys the index has room for.
    // That 27 leaves 65,535 pairs at most stands in the four functions with an index, and not in `Parts`, which keys and required keys have too.
    fn check_up_to(self, from: usize, to: usize, keys: &mut [u16]) -> Result<(), Refusal>
        requires { (length self.table.now / 4 ≤ 65535) × Reached self.text.now self.table.now from keys.old × (from ≤ to) × (to ≤ length self.table.now / 4) × (to ≤ length keys.old) }
        ensures { CheckedUpTo self.entry.text.now self.entry.table.now to keys.new result }
    {
        for i in from..to {
            self.check_pair(i, keys)?;
        }
        Ok(())
    }

    // The pairs from the `from`-th on, with an index for as many as 27 leaves.
    fn check_with_largest(self, from: usize, keys: &[u16]) -> Result<(), Refusal>
        requires { (length self.table.now / 4 ≤ 65535) × Reached self.text.now self.table.now from keys.now × (length keys.now ≤ 65535) }
        ensures { result ≡ checked (first (each pair_checks [] (pairs_in self.entry.text.now self.entry.table.now))) }
    {
        let mut largest = [0u16; 65535];
        index::copy(keys, &mut largest[..]);
        self.check_up_to(from, self.table.len() / 4, &mut largest[..])
    }

    // The pairs from the `from`-th on. Where the index is full, a larger one takes its place, the largest in a frame of its own (see
    // `context::pairs`).
    fn check_from(self, from: usize, keys: &mut [u16]) -> Result<(), Refusal>
        requires { (length self.table.now / 4 ≤ 65535) × Reached self.text.now self.table.now from keys.old × (length keys.old ≤ 1024) }
        ensures { result ≡ checked (first (each pair_checks [] (pairs_in self.entry.text.now self.entry.table.now))) }
    {
        let n = self.table.len() / 4;
        let to = n.min(keys.len());
        self.check_up_to(from, to, keys)?;
        if to == n {
            return Ok(());
        }
        if keys.len() < 1024 {
            let mut larger = [0u16; 1024];
            index::copy(keys, &mut larger[..]);
            return self.check_from(to, &mut larger[..]);
        }
        self.check_with_largest(to, keys)
    }

    // 10, 11 and 12 of each pair.
    fn check_each_pair(self) -> Result<(), Refusal>
        requires { length self.table.now / 4 ≤ 65535 }
        ensures { result ≡ checked (first (each pair_checks [] (pairs_in self.entry.text.now self.entry.table.now))) }
    {
        let n = self.table.len() / 4;
        let mut keys = [0u16; 32];
        if n <= 32 {
            return self.check_up_to(0, n, &mut keys[..]);
        }
        self.check_from(0, &mut keys[..])
    }
}

// Write a context section, all but 28: 26; 27; per pair 10, 11, 12; 13.
pub fn check_pairs(text: &[u8], table: &[u32]) -> Result<(), Refusal>
    ensures { result ≡ checked (first (writing_aad_section text.now table.now).checks) }
{
    check_table(text, table, 4)?;
    let parts = Parts { text, table };
    parts.check_each_pair()?;
    if entries_size(table) < 65534 {
        return Ok(());
    }
    Err(Reason::PairsTooLong.into())
}
