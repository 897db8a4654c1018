// Tables of places: two numbers a place, a start and a length in the lent text. Pairs have four numbers each, keys and frames six; what
// is tested and summed here is the same for all.
ghost use Rattle.std.specs.Prelude.{◌≡◌, true, ◌<◌, length};
ghost use Rattle.format.specs.Serialize.{every};
ghost use Rattle.format.specs.Utf8.{valid_utf8_seq};
ghost use Rattle.format.specs.Checks.{first};
ghost use Rattle.format.specs.Lent.{part_in, places, in_text};
ghost use Rattle.checks.specs.Answers.{checked};
ghost use Rattle.checks.specs.Table.{short, numbers_checks, Within, entries_size};

use wire::refusals::{Reason, Refusal};

// Whether each place lies inside the text.
pub fn all_in_text(text: &[u8], table: &[u32]) -> bool
    ensures { result ≡ every (in_text text.now table.now) (places table.now) }
{
    (0..table.len() / 2).all(|i| table[2 * i] as usize + table[2 * i + 1] as usize <= text.len())
}

// Whether no part is above 65,535 bytes.
fn all_short(table: &[u32]) -> bool
    ensures { result ≡ every (short table.now) (places table.now) }
{
    (0..table.len() / 2).all(|i| table[2 * i + 1] <= 65535)
}

// 26 and 27, for items of k numbers.
pub(crate) fn check_table(text: &[u8], table: &[u32], k: usize) -> Result<(), Refusal>
    requires { 0 < k }
    ensures { result ≡ checked (first (numbers_checks k text.now table.now)) }
{
    if table.len() % k != 0 {
        return Err(Reason::TableOrPlace.into());
    }
    if !all_in_text(text, table) {
        return Err(Reason::TableOrPlace.into());
    }
    if 65535 < table.len() / k {
        return Err(Reason::CountOrPartTooLong.into());
    }
    if !all_short(table) {
        return Err(Reason::CountOrPartTooLong.into());
    }
    Ok(())
}

// How many bytes the entries of the table's parts take. 27 keeps the table short enough for the sum.
pub fn entries_size(table: &[u32]) -> usize
    requires { length table.now < 4194304 }
    ensures { (result ≡ entries_size table.now) × (result < 9007199254740992) }
{
    (0..table.len() / 2)
        .map(|i| 2 + table[2 * i + 1] as usize)
        .sum()
}

// A text and a table whose places lie inside it.
#[derive(Clone, Copy)]
pub struct Parts<'a> {
    pub text: &'a [u8],
    pub table: &'a [u32],
    pub ghost inside: { every (in_text text.now table.now) (places table.now) ≡ true },
}

impl<'a> Parts<'a> {
    // The part whose place stands at `at`.
    pub fn part(self, at: usize) -> &'a [u8]
        requires { Within self.text.now self.table.now at }
        ensures same { result.now ≡ part_in self.entry.text.now self.entry.table.now at }
        ensures short { length result.now < 4294967296 }
    {
        let start = self.table[at] as usize;
        &self.text[start..start + self.table[at + 1] as usize]
    }

    // Whether it is UTF-8.
    pub fn is_text(self, at: usize) -> bool
        requires { Within self.text.now self.table.now at }
        ensures { result ≡ valid_utf8_seq (part_in self.entry.text.now self.entry.table.now at) }
    {
        let part = self.part(at);
        utf8::part_is_utf8(part, 0, part.len() as u64)
    }
}
