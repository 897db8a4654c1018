// What stands before the context section.
ghost use Rattle.std.specs.Prelude.{◌≡◌, true, false, ◌+◌, ◌≤◌, ◌<◌, eqb, length};
ghost use Rattle.format.specs.Shared.{by};
ghost use Rattle.format.specs.Checks.{first, lead_checks, opening_checks};
ghost use Rattle.wire.specs.Stored.{stored};
ghost use Rattle.checks.specs.Answers.{checked};
ghost use Rattle.request.specs.Codes.{policy_of};
ghost use Rattle.ends_write.specs.Ends.{write_opening};

use super::versions::by;
use fields::is_one_or_two;
use request::Policy;
use suites::Suite;
use wire::refusals::{Reason, Refusal};
use wire::writing::{write, write_uint8, write_uint16};

// As it is handed over: each number is tested before it is cut to the bytes that it is stored in.
#[derive(Clone, Copy)]
pub struct Opening<'a> {
    pub version: u32,
    pub messageType: u32,
    pub suite: u32,
    pub messageId: &'a [u8],
}

impl Opening<'_> {
    // 3; 5; 6; 7.
    fn check_lead(self) -> Result<(), Refusal>
        ensures { result ≡ checked (first (lead_checks self.entry.version self.entry.messageType self.entry.suite)) }
    {
        if !is_one_or_two(self.version) {
            return Err(Reason::UnknownVersion.into());
        }
        if self.messageType as usize != by(self.version, 0x80, 0) {
            return Err(Reason::MessageType.into());
        }
        let suite = Suite::from_number(self.suite).ok_or(Reason::UnknownSuite)?;
        if u32::from(suite.version) != self.version {
            return Err(Reason::SuiteOfOtherVersion.into());
        }
        Ok(())
    }

    // These; 39, where the policy forbids the version; 24, by the ID's length.
    pub fn check(self, policy: Policy) -> Result<(), Refusal>
        ensures { result ≡ checked (first (opening_checks (policy_of policy) self.entry.version self.entry.messageType self.entry.suite (length self.entry.messageId.now))) }
    {
        self.check_lead()?;
        if !policy.lets_write(self.version) {
            return Err(Reason::ForbiddenByPolicy.into());
        }
        if self.messageId.len() != by(self.version, 16, 32) {
            return Err(Reason::IdLength.into());
        }
        Ok(())
    }

    // How many bytes it takes: the place of the context section.
    pub fn size(self) -> usize
        ensures { (result ≡ by self.entry.version 20 35) × (result < 64) }
    {
        by(self.version, 20, 35)
    }

    // The bounds are what `check` leaves. A type that held them would be made in one place, and say no more plainly that `check` came first.
    fn put_v1(self, out: &mut [u8])
        requires { (self.version < 256) × (self.messageType < 256) × (self.suite < 65536) × (4 + length self.messageId.now ≤ length out.old) }
        ensures { out.new ≡ stored out.old 0 (write_opening true self.entry.version self.entry.messageType self.entry.suite self.entry.messageId.now) }
    {
        write_uint8(out, 0, self.version as u8);
        write_uint8(out, 1, self.messageType as u8);
        write_uint16(out, 2, self.suite as u16);
        write(self.messageId, 0, self.messageId.len(), out, 4);
    }

    fn put_v2(self, out: &mut [u8])
        requires { (self.version < 256) × (self.suite < 65536) × (3 + length self.messageId.now ≤ length out.old) }
        ensures { out.new ≡ stored out.old 0 (write_opening false self.entry.version 0 self.entry.suite self.entry.messageId.now) }
    {
        write_uint8(out, 0, self.version as u8);
        write_uint16(out, 1, self.suite as u16);
        write(self.messageId, 0, self.messageId.len(), out, 3);
    }

    // From the first byte of the output on. `Closing` has the same test, and nothing else in common.
    pub fn put(self, out: &mut [u8])
        requires { (self.version < 256) × (self.messageType < 256) × (self.suite < 65536) × (4 + length self.messageId.now ≤ length out.old) }
        ensures { out.new ≡ stored out.old 0 (write_opening (eqb self.entry.version 1) self.entry.version self.entry.messageType self.entry.suite self.entry.messageId.now) }
    {
        if self.version == 1 {
            self.put_v1(out);
            return;
        }
        self.put_v2(out);
    }
}
