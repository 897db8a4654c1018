// Stores frames, straight from the text into the output, at places as in `wire::writing`.
ghost use Rattle.std.specs.Prelude.{◌≡◌, ◌+◌, ◌≤◌, ◌<◌, length};
ghost use Rattle.format.specs.Frames.{write_regular_frame, write_final_frame, write_frames};
ghost use Rattle.format.specs.Lent.{frame_in, frames_in};
ghost use Rattle.wire.specs.Stored.{stored};
ghost use Rattle.frames_write.specs.Table.{FrameThere, FramesReady};
ghost use Rattle.frames_write.specs.Puts.{sealed, sized, Puts};

use checks::tables::Parts;
use wire::writing::{write, write_uint32};

// FF FF FF FF, which stands before the number of the final frame.
const FINAL_MARK: u32 = 4294967295;

// Writes bytes, and gives the place behind them.
fn put(bytes: &[u8], out: &mut [u8], at: usize) -> usize
    requires { at + length bytes.now ≤ length out.old }
    ensures { Puts out.old at bytes.now out.new result }
{
    write(bytes, 0, bytes.len(), out, at);
    at + bytes.len()
}

// The parts of a frame. The content's length is a number of the table.
#[derive(Clone, Copy)]
struct Frame<'a> {
    iv: &'a [u8],
    content: &'a [u8],
    tag: &'a [u8],
    ghost short: { length content.now < 4294967296 },
}

impl<'a> Frame<'a> {
    ghost use Rattle.frames_write.specs.Frames.{frame_of};

    // The frame whose places stand at j.
    fn at(parts: Parts<'a>, j: usize) -> Frame<'a>
        requires { FrameThere parts.text.now parts.table.now j }
        ensures { frame_of result ≡ frame_in parts.entry.text.now parts.entry.table.now j }
    {
        Frame {
            iv: parts.part(j),
            content: parts.part(j + 2),
            tag: parts.part(j + 2 + 2),
        }
    }

    // Writes content and tag.
    fn put_sealed(self, out: &mut [u8], at: usize) -> usize
        requires { at + length (sealed (frame_of self)) ≤ length out.old }
        ensures { Puts out.old at (sealed (frame_of self.entry)) out.new result }
    {
        let tag = put(self.content, out, at);
        put(self.tag, out, tag)
    }

    fn put_regular(self, number: u32, out: &mut [u8], at: usize) -> usize
        requires { at + length (write_regular_frame number (frame_of self)) ≤ length out.old }
        ensures { Puts out.old at (write_regular_frame number (frame_of self.entry)) out.new result }
    {
        write_uint32(out, at, number);
        let content = put(self.iv, out, at + 4);
        self.put_sealed(out, content)
    }

    // Writes the content's length, and then content and tag.
    fn put_sized(self, out: &mut [u8], at: usize) -> usize
        requires { at + length (sized (frame_of self)) ≤ length out.old }
        ensures { Puts out.old at (sized (frame_of self.entry)) out.new result }
    {
        write_uint32(out, at, self.content.len() as u32);
        self.put_sealed(out, at + 4)
    }

    fn put_final(self, number: u32, out: &mut [u8], at: usize)
        requires { at + length (write_final_frame number (frame_of self)) ≤ length out.old }
        ensures { out.new ≡ stored out.old at (write_final_frame number (frame_of self.entry)) }
    {
        write_uint32(out, at, FINAL_MARK);
        write_uint32(out, at + 4, number);
        let size = put(self.iv, out, at + 8);
        self.put_sized(out, size);
    }
}

// The last entry becomes the final frame. Numbers run from 1 by one.
pub(crate) fn put_frames(text: &[u8], table: &[u32], out: &mut [u8])
    requires { FramesReady text.now table.now (length out.old) }
    ensures { out.new ≡ stored out.old 0 (write_frames (frames_in text.now table.now)) }
{
    let parts = Parts { text, table };
    let last = table.len() / 6 - 1;
    let mut at = 0;
    for i in 0..last {
        let frame = Frame::at(parts, 6 * i);
        at = frame.put_regular((i + 1) as u32, out, at);
    }
    let frame = Frame::at(parts, 6 * last);
    frame.put_final((last + 1) as u32, out, at);
}
