// The authentication record of a suite.
#![tactic(auto)]

mod reading;

ghost use Rattle.std.specs.Prelude.{◌≡◌};
ghost use Rattle.format.specs.Read.{operation};
ghost use Rattle.format.specs.Auth.{read_header_auth_tag as record_of};
ghost use Rattle.wire.specs.Buffer.{from};
ghost use Rattle.auth.specs.Codes.{auth_of};

use suites::Suite;
use wire::SuccessfulRead;
use wire::buffer::ReadableBuffer;
use wire::refusals::{Reason, Refusal};

// The source's AESMac. Version 2 has no IV, and the one that is read is all 00.
#[derive(Clone, Copy)]
pub struct HeaderAuth {
    pub iv: [u8; Suite::IV_LEN],
    pub tag: [u8; Suite::TAG_LEN],
}

// A record, behind refusal 1.
fn record_at(buffer: ReadableBuffer, suite: u32) -> Result<SuccessfulRead<HeaderAuth>, Refusal>
    ensures { result ≡ auth_of (from (record_of suite) buffer.entry) }
{
    let suite = Suite::from_number(suite).ok_or(Reason::UnknownSuite)?;
    if suite.version == 1 {
        return reading::read_header_auth_tag_v1(buffer);
    }
    reading::read_header_auth_tag_v2(buffer)
}

// ReadHeaderAuthTag.
pub fn read_header_auth_tag(
    m: &[u8],
    start: u64,
    suite: u32,
) -> Result<SuccessfulRead<HeaderAuth>, Refusal>
    ensures { result ≡ auth_of (operation (record_of suite) m.now start) }
{
    record_at(ReadableBuffer::new(m, start)?, suite)
}
