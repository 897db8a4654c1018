// Marks the places of an index that required keys stand at.
ghost use Rattle.std.specs.Prelude.{◌≡◌, length};
ghost use Rattle.format.specs.Lent.{parts_in};
ghost use Rattle.only_authenticated.specs.Marks.{Unmarked, MarksOne, MarksAll};

use checks::tables::Parts;
use pair_index::PairIndex;

// A key that the index does not have marks nothing, and one that was marked before stays marked. There are as many marks as places: both are
// local arrays of one length, fixed memory, and the marks change while the index is read.
fn mark(index: PairIndex, key: &[u8], marks: &mut [bool])
    requires { length index.keys.now ≡ length marks.old }
    ensures { MarksOne index.entry key.now marks.old marks.new }
{
    let Ok(p) = index.find(key) else {
        return;
    };
    marks[p] = true;
}

// Every required key in its turn.
pub(crate) fn mark_required(index: PairIndex, required: Parts, marks: &mut [bool])
    requires { (length index.keys.now ≡ length marks.old) × Unmarked marks.old }
    ensures { MarksAll index.entry (parts_in required.entry.text.now required.entry.table.now) marks.new }
{
    for i in 0..required.table.len() / 2 {
        mark(index, required.part(2 * i), marks);
    }
}
