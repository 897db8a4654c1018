// The five writers, and what a body or frames take before they are written. On a refusal the output is as it was. Each has an export of its
// own, since C has one symbol for each operation.
ghost use Rattle.std.specs.Prelude.{◌≡◌};
ghost use Rattle.format.specs.Lent.{size_of, writing_aad_section, writing_encrypted_data_keys_section, writing_header_auth_tag, writing_header_body, writing_frames};
ghost use Rattle.body_write.specs.Lent.{body_to_write};
ghost use Rattle.crossing.specs.Records.{written_record};
ghost use Rattle.bafirolen_c.specs.Exports.{Writes};

use crossing::BafirolenWritten;
use fields::BodyNumbers;

// Four numbers a pair in the table, places of the text.
#[unsafe(no_mangle)]
pub extern "C" fn bafirolen_write_aad_section(
    text: &[u8],
    pairs: &[u32],
    out: &mut [u8],
) -> BafirolenWritten
    ensures { Writes (writing_aad_section text.now pairs.now) out.old out.new result }
{
    section_write::write_aad_section(text, pairs, out).into()
}

// Six numbers a key in the table, places of the text.
#[unsafe(no_mangle)]
pub extern "C" fn bafirolen_write_encrypted_data_keys_section(
    text: &[u8],
    keys: &[u32],
    out: &mut [u8],
) -> BafirolenWritten
    ensures { Writes (writing_encrypted_data_keys_section text.now keys.now) out.old out.new result }
{
    section_write::write_encrypted_data_keys_section(text, keys, out).into()
}

#[unsafe(no_mangle)]
pub extern "C" fn bafirolen_write_header_auth_tag(
    suite: u32,
    iv: &[u8],
    tag: &[u8],
    out: &mut [u8],
) -> BafirolenWritten
    ensures { Writes (writing_header_auth_tag suite iv.now tag.now) out.old out.new result }
{
    auth_write::write_header_auth_tag(suite, iv, tag, out).into()
}

#[unsafe(no_mangle)]
pub extern "C" fn bafirolen_write_header_body(
    numbers: BodyNumbers,
    messageId: &[u8],
    suiteData: &[u8],
    text: &[u8],
    pairs: &[u32],
    keys: &[u32],
    out: &mut [u8],
) -> BafirolenWritten
    ensures { Writes (writing_header_body (body_to_write numbers messageId.now suiteData.now text.now pairs.now keys.now)) out.old out.new result }
{
    body_write::write_header_body(numbers, messageId, suiteData, text, pairs, keys, out).into()
}

// What bafirolen_write_header_body will answer, but for 28.
#[unsafe(no_mangle)]
pub extern "C" fn bafirolen_header_body_len(
    numbers: BodyNumbers,
    messageId: &[u8],
    suiteData: &[u8],
    text: &[u8],
    pairs: &[u32],
    keys: &[u32],
) -> BafirolenWritten
    ensures { result ≡ written_record (size_of (writing_header_body (body_to_write numbers messageId.now suiteData.now text.now pairs.now keys.now))) }
{
    body_write::header_body_len(numbers, messageId, suiteData, text, pairs, keys).into()
}

// Six numbers a frame in the table, places of the text. The last entry becomes the final frame.
#[unsafe(no_mangle)]
pub extern "C" fn bafirolen_write_frames(
    frameLength: u32,
    text: &[u8],
    frames: &[u32],
    out: &mut [u8],
) -> BafirolenWritten
    ensures { Writes (writing_frames frameLength text.now frames.now) out.old out.new result }
{
    frames_write::write_frames(frameLength, text, frames, out).into()
}

// What bafirolen_write_frames will answer, but for 28.
#[unsafe(no_mangle)]
pub extern "C" fn bafirolen_frames_len(
    frameLength: u32,
    text: &[u8],
    frames: &[u32],
) -> BafirolenWritten
    ensures { result ≡ written_record (size_of (writing_frames frameLength text.now frames.now)) }
{
    frames_write::frames_len(frameLength, text, frames).into()
}
