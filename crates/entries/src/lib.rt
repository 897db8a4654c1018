// What the pairs of a context and the encrypted data keys share: both are entries, one behind the other.
#![tactic(auto)]

ghost use Rattle.std.specs.Prelude.{◌≡◌, [], ◌∷◌, ◌+◌, ◌*◌, ◌≤◌, ◌<◌, length};
ghost use Rattle.std.proofs.lemmas.List.Edits.{sets};
ghost use Rattle.format.specs.Serialize.{images};
ghost use Rattle.format.specs.Lent.{bytes_at, place, filled};
ghost use Rattle.format.specs.Places.{number16, entry_end, entries_here, entries_end};
ghost use Rattle.entries.specs.Codes.{EntryIs};

use wire::Span;
use wire::reading::Uint;

// The entry that is known to stand at a place.
pub fn known_entry(m: &[u8], s: u64) -> Span
    requires { entry_end m.now s ≤ length m.now }
    ensures { EntryIs m.now s result }
{
    let start = s + 2;
    let len = u16::known(m, s);
    Span {
        start,
        len,
        tail: start + len,
    }
}

// Its bytes.
pub fn known_bytes(m: &[u8], s: u64) -> &[u8]
    requires { entry_end m.now s ≤ length m.now }
    ensures { result.now ≡ bytes_at m.now (s + 2) (number16 m.now s) }
{
    let e = known_entry(m, s);
    &m[e.start as usize..e.tail as usize]
}

// Stores the two numbers of a place; a table and a place in it, as in `wire::writing`.
pub fn put_place(table: &mut [u32], j: usize, start: u64, len: u64)
    requires { (j + 2 ≤ length table.old) × (start + len < 4294967296) }
    ensures { table.new ≡ sets table.old j (start ∷ len ∷ []) }
{
    table[j] = start as u32;
    table[j + 1] = len as u32;
}

// Stores the places of the `count` entries from `first` on, which are known to stand there.
pub fn fill_places(m: &[u8], first: u64, count: u64, table: &mut [u32])
    requires { (0 < count → entries_end m.now count first ≤ length m.now) × (length m.now < 4294967296) × (2 * count ≤ length table.old) }
    ensures { table.new ≡ filled (images place (entries_here m.now count first)) table.old }
{
    let mut at = first;
    for i in 0..count {
        let e = known_entry(m, at);
        put_place(table, 2 * i as usize, e.start, e.len);
        at = e.tail;
    }
}
