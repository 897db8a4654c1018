// The second pass: stores the places of frames that are known to stand there.
ghost use Rattle.std.specs.Prelude.{◌≡◌, [], ◌∷◌, ◌+◌, ◌*◌, ◌≤◌, ◌<◌, length};
ghost use Rattle.std.proofs.lemmas.List.Edits.{sets};
ghost use Rattle.format.specs.Serialize.{images};
ghost use Rattle.format.specs.Lent.{filled};
ghost use Rattle.format.specs.Places.{final_here, frame_end, items_here, items_end};
ghost use Rattle.frames.specs.Codes.{parts_here, part_numbers, Kinds};

use entries::put_place;
use wire::reading::Uint;

// Where a frame's IV and content stand, and how long the content is. The tag follows.
#[derive(Clone, Copy)]
struct FramePlaces {
    iv: u64,
    content: u64,
    len: u64,
    ghost order: { iv + 12 ≤ content },
    ghost small: { content + len + 16 < 4294967296 },
}

impl FramePlaces {
    ghost use Rattle.frames.specs.Places.{FrameIs, numbers_of};

    // The frame that is known to stand at a place, and to be the final one or not: a regular frame is not looked at again.
    fn known(m: &[u8], s: u64, frame: u32, last: bool) -> FramePlaces
        requires { (s < 4294967296) × (frame_end frame m.now s ≤ length m.now) × (length m.now < 4294967296) × (last ≡ final_here m.now s) }
        ensures { FrameIs frame m.now s result }
    {
        if last {
            return FramePlaces {
                iv: s + 8,
                content: s + 24,
                len: u32::known(m, s + 20),
            };
        }
        FramePlaces {
            iv: s + 4,
            content: s + 16,
            len: frame as u64,
        }
    }

    fn tag(self) -> u64
        ensures { result ≡ self.content + self.len }
    {
        self.content + self.len
    }

    // Stores its six numbers, at a place as in `wire::writing`.
    fn put(self, table: &mut [u32], j: usize)
        requires { j + 6 ≤ length table.old }
        ensures { table.new ≡ sets table.old j (numbers_of self) }
    {
        put_place(table, j, self.iv, 12);
        put_place(table, j + 2, self.content, self.len);
        put_place(table, j + 4, self.tag(), 16);
    }
}

// Stores the places of the `count` frames from `first` on, which are known to stand there.
pub fn fill_frames(m: &[u8], first: u64, frame: u32, count: u64, table: &mut [u32])
    requires { (0 < count → items_end (frame_end frame) m.now count first ≤ length m.now) × Kinds frame m.now count first × (length m.now < 4294967296) × (6 * count ≤ length table.old) }
    ensures { table.new ≡ filled (images part_numbers (items_here (parts_here frame) (frame_end frame) m.now count first)) table.old }
{
    let mut at = first;
    for i in 0..count {
        let places = FramePlaces::known(m, at, frame, i + 1 == count);
        places.put(table, 6 * i as usize);
        at = places.tag() + 16;
    }
}
