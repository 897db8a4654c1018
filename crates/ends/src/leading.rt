// The leading fields: version, type and suite.
ghost use Rattle.std.specs.Prelude.{◌≡◌, true, false};
ghost use Rattle.wire.specs.Buffer.{from};
ghost use Rattle.format.specs.Body.{asked, read_lead_of, read_lead};
ghost use Rattle.request.specs.Codes.{which_of};
ghost use Rattle.ends.specs.Codes.{read_suite, lead_of};

use crate::{Lead, shared};
use request::Which;
use wire::SuccessfulRead;
use wire::buffer::ReadableBuffer;
use wire::refusals::{Reason, Refusal};

// Whether the version is asked for.
fn is_asked(which: Which, version: u64) -> bool
    ensures { result ≡ asked (which_of which) version }
{
    match which {
        Which::Either => true,
        Which::V1Only => version == 1,
        Which::V2Only => version == 2,
    }
}

// The suite, behind a version and a type.
fn read_suite(
    b: ReadableBuffer,
    version: u32,
    messageType: u32,
) -> Result<SuccessfulRead<Lead>, Refusal>
    ensures { result ≡ lead_of (from (read_suite version messageType) b.entry) }
{
    let suite = shared::read_esdk_suite_id(b, version)?;
    let value = Lead {
        version,
        messageType,
        suite: suite.value as u32,
    };
    Ok(SuccessfulRead {
        value,
        tail: suite.tail,
    })
}

// Version 1, after the version byte.
fn read_lead_v1(b: ReadableBuffer) -> Result<SuccessfulRead<Lead>, Refusal>
    ensures { result ≡ lead_of (from (read_lead_of true) b.entry) }
{
    let messageType = b.read_uint::<u8>()?;
    if messageType.value != 0x80 {
        return Err(Reason::MessageType.into());
    }
    read_suite(b.at(messageType.tail), 1, 0x80)
}

// Version 2, after the version byte.
fn read_lead_v2(b: ReadableBuffer) -> Result<SuccessfulRead<Lead>, Refusal>
    ensures { result ≡ lead_of (from (read_lead_of false) b.entry) }
{
    read_suite(b, 2, 0)
}

// Up to 7.
pub fn read_lead(b: ReadableBuffer, which: Which) -> Result<SuccessfulRead<Lead>, Refusal>
    ensures { result ≡ lead_of (from (read_lead (which_of which)) b.entry) }
{
    let version = shared::read_message_format_version(b)?;
    if !is_asked(which, version.value) {
        return Err(Reason::OtherVersion.into());
    }
    if version.value == 1 {
        return read_lead_v1(b.at(version.tail));
    }
    read_lead_v2(b.at(version.tail))
}
