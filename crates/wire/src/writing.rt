// Writing at a place of a lent output. Bytes come straight from the lent text, and nothing else of the output changes.
// An output and a place, here and in the crates above, and not a slice of its rest: `stored` goes on from place to place, and says of the
// whole output what stays.
ghost use Rattle.std.specs.Prelude.{◌≡◌, [], ◌∷◌, ◌+◌, ◌≤◌, ◌<◌, length};
ghost use Rattle.format.specs.Serialize.{write_uint16, write_uint32, write_short_length_seq};
ghost use Rattle.format.specs.Lent.{bytes_at};
ghost use Rattle.wire.specs.EntryWritten.{RoomForEntry, EntryWritten};
ghost use Rattle.wire.specs.Stored.{stored};

pub fn write_uint8(out: &mut [u8], at: usize, x: u8)
    requires { at < length out.old }
    ensures { out.new ≡ stored out.old at (x ∷ []) }
{
    out[at] = x;
}

// WriteUint16.
pub fn write_uint16(out: &mut [u8], at: usize, x: u16)
    requires { at + 2 ≤ length out.old }
    ensures { out.new ≡ stored out.old at (write_uint16 x) }
{
    write_uint8(out, at, (x / 256) as u8);
    write_uint8(out, at + 1, (x % 256) as u8);
}

// WriteUint32.
pub fn write_uint32(out: &mut [u8], at: usize, x: u32)
    requires { at + 4 ≤ length out.old }
    ensures { out.new ≡ stored out.old at (write_uint32 x) }
{
    write_uint16(out, at, (x / 65536) as u16);
    write_uint16(out, at + 2, (x % 65536) as u16);
}

// Byte by byte, and not `copy_from_slice`: the compiler makes `memmove` of that, a function that the archives don't ask a host for.
fn copy(src: &[u8], dst: &mut [u8])
    requires { length dst.old ≡ length src.now }
    ensures { dst.new ≡ src.now }
{
    for i in 0..src.len() {
        dst[i] = src[i];
    }
}

// Write: the bytes as they are, from the lent text; by start and length, as `EntryWritten` speaks of them.
pub fn write(text: &[u8], start: usize, len: usize, out: &mut [u8], at: usize)
    requires { (start + len ≤ length text.now) × (at + len ≤ length out.old) }
    ensures { out.new ≡ stored out.old at (bytes_at text.now start len) }
{
    let end = start + len;
    let to = at + len;
    copy(&text[start..end], &mut out[at..to]);
}

// WriteShortLengthSeq: the length, then the bytes. What that leaves, byte by byte, is specs/EntryWritten; docs/ENTRY-WRITER.md sets the
// source's steps beside these.
pub fn write_short_length_seq(text: &[u8], start: usize, len: usize, out: &mut [u8], at: usize)
    requires { RoomForEntry text.now start len out.old at }
    ensures { (out.new ≡ stored out.old at (write_short_length_seq (bytes_at text.now start len))) × EntryWritten text.now start len out.old at out.new }
{
    write_uint16(out, at, len as u16);
    write(text, start, len, out, at + 2);
}

// WriteShortLengthSeq of a whole part; gives the place behind it.
pub fn put_entry(part: &[u8], out: &mut [u8], at: usize) -> usize
    requires { (length part.now < 65536) × (at + (2 + length part.now) ≤ length out.old) }
    ensures { (result ≡ at + (2 + length part.now)) × (out.new ≡ stored out.old at (write_short_length_seq part.now)) }
{
    write_short_length_seq(part, 0, part.len(), out, at);
    at + 2 + part.len()
}
