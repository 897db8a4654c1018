// What a reissued body takes, and how it is stored.
ghost use Rattle.std.specs.Prelude.{◌≡◌, ◌+◌, ◌≤◌, ◌<◌, length};
ghost use Rattle.wire.specs.Stored.{stored};

use super::Reissue;
use ends_write::closing::Closing;
use wire::writing::write;

// A version 1 draft: what of it is taken over.
#[derive(Clone, Copy)]
pub(crate) struct Draft<'a> {
    pub(crate) context: &'a [u8],
    pub(crate) keys: &'a [u8],
    pub(crate) contentType: u32,
    pub(crate) frameLength: u32,
    ghost few: { length context.now < 4294967296 },
    ghost small: { length keys.now < 4294967296 },
}

impl Draft<'_> {
    ghost use Rattle.reissuing.specs.Codes.{sections, body_size};

    // Between the ends of version 2.
    pub(crate) fn body_size(self) -> usize
        ensures { result ≡ body_size self.entry }
    {
        35 + (self.context.len() + (self.keys.len() + 37))
    }

    // Both sections from a place on, as in `wire::writing`; gives the place behind them.
    fn put_sections(self, out: &mut [u8], at: usize) -> usize
        requires { at + (length self.context.now + length self.keys.now) ≤ length out.old }
        ensures { (result ≡ at + (length self.entry.context.now + length self.entry.keys.now)) × (out.new ≡ stored out.old at (sections self.entry)) }
    {
        write(self.context, 0, self.context.len(), out, at);
        let second = at + self.context.len();
        write(self.keys, 0, self.keys.len(), out, second);
        second + self.keys.len()
    }
}

impl Reissue<'_> {
    ghost use Rattle.reissuing.specs.Codes.{added, body_kept, CanStore};

    pub(crate) fn put_body(self, draft: Draft, out: &mut [u8])
        requires { CanStore (added self) draft (length out.old) }
        ensures { out.new ≡ stored out.old 0 (body_kept (added self.entry) draft.entry) }
    {
        self.opening().put(out);
        let end = draft.put_sections(out, 35);
        let closing = Closing {
            version: 2,
            contentType: draft.contentType,
            headerIvLength: 0,
            frameLength: draft.frameLength,
            suiteData: self.suiteData,
        };
        closing.put(&mut out[end..]);
    }
}
