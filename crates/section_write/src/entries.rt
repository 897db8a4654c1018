// The entries of a table's parts: what both sections hold behind their counts. They go to places of the output, as in `wire::writing`.
ghost use Rattle.std.specs.Prelude.{◌≡◌, true, ◌+◌, ◌≤◌, ◌<◌, length};
ghost use Rattle.format.specs.Serialize.{write_short_length_seq, images, every};
ghost use Rattle.format.specs.Lent.{parts_in, places, in_text};
ghost use Rattle.wire.specs.Stored.{stored};
ghost use Rattle.checks.specs.Table.{short, entries_size};

use checks::tables::Parts;
use wire::writing::put_entry;

// Writes the entries of the table's parts from `from` on.
pub(crate) fn put_entries(text: &[u8], table: &[u32], out: &mut [u8], from: usize)
    requires { (every (in_text text.now table.now) (places table.now) ≡ true) × (every (short table.now) (places table.now) ≡ true) × (from + entries_size table.now ≤ length out.old) }
    ensures { out.new ≡ stored out.old from (images write_short_length_seq (parts_in text.now table.now)) }
{
    let parts = Parts { text, table };
    let mut at = from;
    for i in 0..table.len() / 2 {
        at = put_entry(parts.part(2 * i), out, at);
    }
}
