// A body under a policy: read, written, and what it takes before it is written. Number 0 names none, and then each answers as its counterpart.
// C has no `Option`: `hasMax` says whether there is a maximum.
ghost use Rattle.std.specs.Prelude.{◌≡◌, length};
ghost use Rattle.format.specs.Read.{operation};
ghost use Rattle.format.specs.Body.{read_header_body_under};
ghost use Rattle.format.specs.Lent.{size_of, writing_header_body_under};
ghost use Rattle.request.specs.Codes.{which_of, policy_of, mode_of, max_of};
ghost use Rattle.body_write.specs.Lent.{body_to_write};
ghost use Rattle.crossing.specs.Asked.{which_asked, mode_asked, max_asked, policy_asked};
ghost use Rattle.crossing.specs.Records.{written_record};
ghost use Rattle.bafirolen_c.specs.Exports.{ReadsBody, Writes};

use crossing::asked::{policy_asked, request_asked};
use crossing::{BafirolenBody, BafirolenWritten};
use fields::BodyNumbers;

#[unsafe(no_mangle)]
pub extern "C" fn bafirolen_read_header_body_under_policy(
    m: &[u8],
    start: u64,
    which: u32,
    mode: u32,
    hasMax: u32,
    max: u64,
    policy: u32,
    pairs: &mut [u32],
    keys: &mut [u32],
) -> BafirolenBody
    ensures { ReadsBody (operation (read_header_body_under (policy_of (policy_asked policy)) (which_of (which_asked which)) (mode_of (mode_asked mode)) (max_of (max_asked hasMax max)) (length pairs.old) (length keys.old)) m.now start) pairs.old pairs.new keys.old keys.new result }
{
    let request = request_asked(which, mode, hasMax, max, policy);
    body_reader::read_header_body(m, start, request, pairs, keys).into()
}

#[unsafe(no_mangle)]
pub extern "C" fn bafirolen_write_header_body_under_policy(
    numbers: BodyNumbers,
    policy: u32,
    messageId: &[u8],
    suiteData: &[u8],
    text: &[u8],
    pairs: &[u32],
    keys: &[u32],
    out: &mut [u8],
) -> BafirolenWritten
    ensures { Writes (writing_header_body_under (policy_of (policy_asked policy)) (body_to_write numbers messageId.now suiteData.now text.now pairs.now keys.now)) out.old out.new result }
{
    body_write::write_header_body_under(
        numbers,
        policy_asked(policy),
        messageId,
        suiteData,
        text,
        pairs,
        keys,
        out,
    )
    .into()
}

// What bafirolen_write_header_body_under_policy will answer, but for 28.
#[unsafe(no_mangle)]
pub extern "C" fn bafirolen_header_body_len_under_policy(
    numbers: BodyNumbers,
    policy: u32,
    messageId: &[u8],
    suiteData: &[u8],
    text: &[u8],
    pairs: &[u32],
    keys: &[u32],
) -> BafirolenWritten
    ensures { result ≡ written_record (size_of (writing_header_body_under (policy_of (policy_asked policy)) (body_to_write numbers messageId.now suiteData.now text.now pairs.now keys.now))) }
{
    body_write::header_body_len_under(
        numbers,
        policy_asked(policy),
        messageId,
        suiteData,
        text,
        pairs,
        keys,
    )
    .into()
}
