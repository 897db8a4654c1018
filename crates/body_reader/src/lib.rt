// ReadHeaderBody, ReadV1HeaderBody and ReadV2HeaderBody: one operation, of the version and in the mode that the request asks for.
#![tactic(auto)]

ghost use Rattle.std.specs.Prelude.{◌≡◌, ◌+◌, ◌<◌, ◌^◌, length};
ghost use Rattle.format.specs.Read.{operation};
ghost use Rattle.format.specs.Fields.{form_number};
ghost use Rattle.format.specs.Context.{form_ending};
ghost use Rattle.format.specs.Body.{read_header_body_under};
ghost use Rattle.wire.specs.Buffer.{from};
ghost use Rattle.request.specs.Codes.{which_of, policy_of, mode_of, max_of};
ghost use Rattle.body_reader.specs.Codes.{ReadsBody, body_with};

use body_measure::{Measurement, measure};
use fields::{BodyNumbers, OLD, TODAY};
use request::Request;
use wire::SuccessfulRead;
use wire::buffer::ReadableBuffer;
use wire::refusals::{Reason, Refusal};

// The ID and the suite data by their places in the message, and how many pairs and keys stand in the tables. Type, IV length
// and suite data are 0 where the version lacks them.
#[derive(Clone, Copy)]
pub struct HeaderBody {
    pub numbers: BodyNumbers,
    pub messageIdStart: u64,
    pub messageIdLen: u64,
    pub pairCount: u64,
    pub keyCount: u64,
    pub suiteDataStart: u64,
    pub suiteDataLen: u64,
}

// An empty context in its old form ends where a first pair would start, and no other section does.
fn form_of(firstPair: u64, sectionEnd: u64) -> u32
    ensures { result ≡ form_number (form_ending firstPair sectionEnd) }
{
    if sectionEnd == firstPair {
        return OLD;
    }
    TODAY
}

// What was measured, with the mark.
fn body_with(measured: Measurement) -> HeaderBody
    requires { measured.contextStart + 4 < 2 ^ 64 }
    ensures { result ≡ body_with measured.opening (form_number (form_ending (measured.contextStart + 4) measured.keysStart)) measured.pairCount measured.keyCount measured.closing }
{
    let opening = measured.opening;
    let closing = measured.closing;
    let numbers = BodyNumbers {
        version: opening.version,
        messageType: opening.messageType,
        suite: opening.suite,
        contentType: closing.contentType,
        headerIvLength: closing.headerIvLength,
        frameLength: closing.frameLength,
        form: form_of(measured.contextStart + 4, measured.keysStart),
    };
    HeaderBody {
        numbers,
        messageIdStart: opening.messageIdStart,
        messageIdLen: opening.messageIdLen,
        pairCount: measured.pairCount,
        keyCount: measured.keyCount,
        suiteDataStart: closing.suiteDataStart,
        suiteDataLen: closing.suiteDataLen,
    }
}

// The body that a buffer starts with, and its tables, which are filled last: a refusal leaves both.
fn body_at(
    buffer: ReadableBuffer,
    request: Request,
    pairTable: &mut [u32],
    keyTable: &mut [u32],
) -> Result<SuccessfulRead<HeaderBody>, Refusal>
    ensures { ReadsBody (from (read_header_body_under (policy_of request.policy) (which_of request.which) (mode_of request.mode) (max_of request.max) (length pairTable.old) (length keyTable.old)) buffer.entry) pairTable.old pairTable.new keyTable.old keyTable.new result }
{
    let measured = measure(buffer, request)?;
    if ((pairTable.len() / 4) as u64) < measured.pairCount {
        return Err(Reason::PairTableTooShort.into());
    }
    if ((keyTable.len() / 6) as u64) < measured.keyCount {
        return Err(Reason::KeyTableTooShort.into());
    }
    let firstPair = measured.contextStart + 4;
    let firstKey = measured.keysStart + 2;
    entries::fill_places(buffer.bytes, firstPair, 2 * measured.pairCount, pairTable);
    entries::fill_places(buffer.bytes, firstKey, 3 * measured.keyCount, keyTable);
    Ok(SuccessfulRead {
        value: body_with(measured),
        tail: measured.tail,
    })
}

// Reads the body at `start`. The places of its pairs and keys go into the tables, four numbers a pair and six a key.
pub fn read_header_body(
    m: &[u8],
    start: u64,
    request: Request,
    pairTable: &mut [u32],
    keyTable: &mut [u32],
) -> Result<SuccessfulRead<HeaderBody>, Refusal>
    ensures { ReadsBody (operation (read_header_body_under (policy_of request.policy) (which_of request.which) (mode_of request.mode) (max_of request.max) (length pairTable.old) (length keyTable.old)) m.now start) pairTable.old pairTable.new keyTable.old keyTable.new result }
{
    let buffer = ReadableBuffer::new(m, start)?;
    body_at(buffer, request, pairTable, keyTable)
}
