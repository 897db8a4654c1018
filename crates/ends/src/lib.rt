// The two ends of a header body: the opening, which stands before the context section, and the closing, which stands behind
// the key section.
#![tactic(auto)]

mod leading;
mod shared;

ghost use Rattle.std.specs.Prelude.{◌≡◌, true, false, ◌<◌, eqb};
ghost use Rattle.wire.specs.Buffer.{from};
ghost use Rattle.format.specs.Shared.{id_length};
ghost use Rattle.format.specs.Body.{read_opening, read_closing_of, read_closing};
ghost use Rattle.request.specs.Codes.{which_of, policy_of};
ghost use Rattle.ends.specs.Codes.{opening_of, closing_of};

use request::{Policy, Which};
use suites::Suite;
use wire::SuccessfulRead;
use wire::buffer::ReadableBuffer;
use wire::refusals::{Reason, Refusal};

// The leading fields, which stand before the message ID.
#[derive(Clone, Copy)]
struct Lead {
    version: u32,
    messageType: u32,
    suite: u32,
}

// The ID by its place in the message.
#[derive(Clone, Copy)]
pub struct Opening {
    pub version: u32,
    pub messageType: u32,
    pub suite: u32,
    pub messageIdStart: u64,
    pub messageIdLen: u64,
}

// The suite data by their place in the message.
#[derive(Clone, Copy)]
pub struct Closing {
    pub contentType: u32,
    pub headerIvLength: u32,
    pub frameLength: u32,
    pub suiteDataStart: u64,
    pub suiteDataLen: u64,
}

// How many bytes the message ID has.
fn id_len(version: u32) -> u64
    ensures { (result ≡ id_length version) × (0 < result) × (result < 65536) }
{
    if version == 1 {
        return 16;
    }
    32
}

// 39 right after the leading fields, before the ID is read.
pub fn read_opening(
    b: ReadableBuffer,
    which: Which,
    policy: Policy,
) -> Result<SuccessfulRead<Opening>, Refusal>
    ensures { result ≡ opening_of (from (read_opening (which_of which) (policy_of policy)) b.entry) }
{
    let lead = leading::read_lead(b, which)?;
    let Lead {
        version,
        messageType,
        suite,
    } = lead.value;
    if !policy.lets_read(version) {
        return Err(Reason::ForbiddenByPolicy.into());
    }
    let id = b.at(lead.tail).read_some_bytes(id_len(version))?;
    let value = Opening {
        version,
        messageType,
        suite,
        messageIdStart: id.start,
        messageIdLen: id.len,
    };
    Ok(SuccessfulRead {
        value,
        tail: id.tail,
    })
}

// Version 1, after the content type: reserved bytes, the length of the IV, and no suite data.
fn read_closing_v1(b: ReadableBuffer, contentType: u32) -> Result<SuccessfulRead<Closing>, Refusal>
    ensures { result ≡ closing_of (from (read_closing_of true contentType) b.entry) }
{
    let reserved = b.read_uint::<u32>()?;
    if reserved.value != 0 {
        return Err(Reason::ReservedBytes.into());
    }
    let headerIvLength = b.at(reserved.tail).read_uint::<u8>()?;
    if headerIvLength.value != Suite::IV_LEN as u64 {
        return Err(Reason::IvLength.into());
    }
    let frameLength = b.at(headerIvLength.tail).read_uint::<u32>()?;
    let value = Closing {
        contentType,
        headerIvLength: headerIvLength.value as u32,
        frameLength: frameLength.value as u32,
        suiteDataStart: 0,
        suiteDataLen: 0,
    };
    Ok(SuccessfulRead {
        value,
        tail: frameLength.tail,
    })
}

// Version 2, after the content type: the suite data are the commit key.
fn read_closing_v2(b: ReadableBuffer, contentType: u32) -> Result<SuccessfulRead<Closing>, Refusal>
    ensures { result ≡ closing_of (from (read_closing_of false contentType) b.entry) }
{
    let frameLength = b.read_uint::<u32>()?;
    let suiteData = b
        .at(frameLength.tail)
        .read_some_bytes(Suite::COMMIT_LEN as u64)?;
    let value = Closing {
        contentType,
        headerIvLength: 0,
        frameLength: frameLength.value as u32,
        suiteDataStart: suiteData.start,
        suiteDataLen: suiteData.len,
    };
    Ok(SuccessfulRead {
        value,
        tail: suiteData.tail,
    })
}

pub fn read_closing(b: ReadableBuffer, version: u32) -> Result<SuccessfulRead<Closing>, Refusal>
    ensures { result ≡ closing_of (from (read_closing (eqb version 1)) b.entry) }
{
    let content = shared::read_content_type(b)?;
    let contentType = content.value as u32;
    if version == 1 {
        return read_closing_v1(b.at(content.tail), contentType);
    }
    read_closing_v2(b.at(content.tail), contentType)
}
