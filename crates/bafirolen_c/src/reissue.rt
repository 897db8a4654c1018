// A version 1 draft, reissued in version 2, and what that takes before it is written. On a refusal the output is as it was.
ghost use Rattle.std.specs.Prelude.{◌≡◌, length};
ghost use Rattle.format.specs.Read.{operation};
ghost use Rattle.format.specs.Reissuing.{reissued_header_body, reissue_header_body};
ghost use Rattle.entries.specs.Codes.{Reads};
ghost use Rattle.checks.specs.Answers.{whole};
ghost use Rattle.crossing.specs.Records.{image_record};

use crossing::BafirolenWritten;

#[unsafe(no_mangle)]
pub extern "C" fn bafirolen_reissue_header_body(
    m: &[u8],
    start: u64,
    suite: u32,
    messageId: &[u8],
    suiteData: &[u8],
    out: &mut [u8],
) -> BafirolenWritten
    ensures { Reads image_record whole (operation (reissue_header_body (record { suite = suite; messageId = messageId.now; suiteData = suiteData.now }) (length out.old)) m.now start) out.old out.new result }
{
    reissuing::reissue_header_body(m, start, suite, messageId, suiteData, out).into()
}

// What bafirolen_reissue_header_body will answer, but for 28.
#[unsafe(no_mangle)]
pub extern "C" fn bafirolen_reissued_header_body_len(
    m: &[u8],
    start: u64,
    suite: u32,
    messageId: &[u8],
    suiteData: &[u8],
) -> BafirolenWritten
    ensures { result ≡ image_record (operation (reissued_header_body (record { suite = suite; messageId = messageId.now; suiteData = suiteData.now })) m.now start) }
{
    reissuing::reissued_header_body_len(m, start, suite, messageId, suiteData).into()
}
