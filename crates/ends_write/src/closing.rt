// What stands behind the key section.
ghost use Rattle.std.specs.Prelude.{◌≡◌, true, false, [], ◌+◌, ◌≤◌, ◌<◌, eqb, length};
ghost use Rattle.format.specs.Shared.{by};
ghost use Rattle.format.specs.Checks.{first, closing_checks};
ghost use Rattle.wire.specs.Stored.{stored};
ghost use Rattle.checks.specs.Answers.{checked};
ghost use Rattle.ends_write.specs.Ends.{write_closing};

use super::versions::by;
use fields::{frame_fits, is_one_or_two};
use suites::Suite;
use wire::refusals::{Reason, Refusal};
use wire::writing::{write, write_uint8, write_uint32};

// As it is handed over, likewise; the version decides what of it is stored.
#[derive(Clone, Copy)]
pub struct Closing<'a> {
    pub version: u32,
    pub contentType: u32,
    pub headerIvLength: u32,
    pub frameLength: u32,
    pub suiteData: &'a [u8],
}

impl Closing<'_> {
    // 17; 19; 25, by the suite data's length; 20.
    pub fn check(self) -> Result<(), Refusal>
        ensures { result ≡ checked (first (closing_checks self.entry.version self.entry.contentType self.entry.headerIvLength (length self.entry.suiteData.now) self.entry.frameLength)) }
    {
        if !is_one_or_two(self.contentType) {
            return Err(Reason::ContentType.into());
        }
        if self.headerIvLength as usize != by(self.version, Suite::IV_LEN, 0) {
            return Err(Reason::IvLength.into());
        }
        if self.suiteData.len() != by(self.version, 0, Suite::COMMIT_LEN) {
            return Err(Reason::SuiteDataLength.into());
        }
        if !frame_fits(self.contentType, self.frameLength) {
            return Err(Reason::FrameLength.into());
        }
        Ok(())
    }

    // How many bytes it takes.
    pub fn size(self) -> usize
        ensures { (result ≡ by self.entry.version 10 37) × (result < 64) }
    {
        by(self.version, 10, 37)
    }

    // The bounds are what `check` leaves, as in `Opening`.
    fn put_v1(self, out: &mut [u8])
        requires { (self.contentType < 256) × (self.headerIvLength < 256) × (10 ≤ length out.old) }
        ensures { out.new ≡ stored out.old 0 (write_closing true self.entry.contentType self.entry.headerIvLength self.entry.frameLength []) }
    {
        write_uint8(out, 0, self.contentType as u8);
        write_uint32(out, 1, 0);
        write_uint8(out, 5, self.headerIvLength as u8);
        write_uint32(out, 6, self.frameLength);
    }

    fn put_v2(self, out: &mut [u8])
        requires { (self.contentType < 256) × (5 + length self.suiteData.now ≤ length out.old) }
        ensures { out.new ≡ stored out.old 0 (write_closing false self.entry.contentType 0 self.entry.frameLength self.entry.suiteData.now) }
    {
        write_uint8(out, 0, self.contentType as u8);
        write_uint32(out, 1, self.frameLength);
        write(self.suiteData, 0, self.suiteData.len(), out, 5);
    }

    // From the first byte of what is lent.
    pub fn put(self, out: &mut [u8])
        requires { (self.contentType < 256) × (self.headerIvLength < 256) × (10 ≤ length out.old) × (5 + length self.suiteData.now ≤ length out.old) }
        ensures { out.new ≡ stored out.old 0 (write_closing (eqb self.entry.version 1) self.entry.contentType self.entry.headerIvLength self.entry.frameLength self.entry.suiteData.now) }
    {
        if self.version == 1 {
            self.put_v1(out);
            return;
        }
        self.put_v2(out);
    }
}
