// SharedHeaderFunctions.dfy: the version, the suite and the content type at a place of a message.
ghost use Rattle.std.specs.Prelude.{◌≡◌};
ghost use Rattle.wire.specs.Buffer.{from};
ghost use Rattle.format.specs.Shared.{read_message_format_version, read_esdk_suite_id, read_content_type};
ghost use Rattle.wire.specs.Codes.{number_of, Below};
ghost use Rattle.wire.specs.Reasons.{number_of as reason_number};
ghost use Rattle.ends.specs.Codes.{read_one_or_two};

use fields::is_one_or_two;
use suites::Suite;
use wire::SuccessfulRead;
use wire::buffer::ReadableBuffer;
use wire::refusals::{Reason, Refusal};

// A byte that is 01 or 02, else refused for the reason.
fn read_one_or_two(b: ReadableBuffer, reason: Reason) -> Result<SuccessfulRead<u64>, Refusal>
    ensures { (result ≡ number_of (from (read_one_or_two (reason_number reason)) b.entry)) × Below 256 result }
{
    let byte = b.read_uint::<u8>()?;
    if is_one_or_two(byte.value as u32) {
        return Ok(byte);
    }
    Err(reason.into())
}

pub fn read_message_format_version(b: ReadableBuffer) -> Result<SuccessfulRead<u64>, Refusal>
    ensures { result ≡ number_of (from read_message_format_version b.entry) }
{
    read_one_or_two(b, Reason::UnknownVersion)
}

pub fn read_content_type(b: ReadableBuffer) -> Result<SuccessfulRead<u64>, Refusal>
    ensures { (result ≡ number_of (from read_content_type b.entry)) × Below 256 result }
{
    read_one_or_two(b, Reason::ContentType)
}

// A suite of the table and of the version.
pub fn read_esdk_suite_id(b: ReadableBuffer, version: u32) -> Result<SuccessfulRead<u64>, Refusal>
    ensures { (result ≡ number_of (from (read_esdk_suite_id version) b.entry)) × Below 65536 result }
{
    let bytes = b.read_some_bytes(2)?;
    let i = bytes.start as usize;
    let suite = Suite::from_bytes(b.bytes[i], b.bytes[i + 1]).ok_or(Reason::UnknownSuite)?;
    if u32::from(suite.version) != version {
        return Err(Reason::SuiteOfOtherVersion.into());
    }
    Ok(SuccessfulRead {
        value: u64::from(suite.number),
        tail: bytes.tail,
    })
}
