// A version 1 draft, reissued in version 2: its sections are copied whole from the message into the output, between new ends. It is read
// without tables, and nothing is stored before every test has passed.
#![tactic(auto)]

mod reading;
mod storing;

ghost use Rattle.std.specs.Prelude.{◌≡◌, length};
ghost use Rattle.format.specs.Read.{operation};
ghost use Rattle.format.specs.Reissuing.{reissued_header_body, reissue_header_body};
ghost use Rattle.entries.specs.Codes.{Reads};
ghost use Rattle.checks.specs.Answers.{written_as, whole};

use wire::refusals::{Reason, Refusal};

// What is added to the draft.
#[derive(Clone, Copy)]
struct Reissue<'a> {
    suite: u32,
    messageId: &'a [u8],
    suiteData: &'a [u8],
}

// What reissue_header_body answers with an output that is long enough.
pub fn reissued_header_body_len(
    m: &[u8],
    start: u64,
    suite: u32,
    messageId: &[u8],
    suiteData: &[u8],
) -> Result<usize, Refusal>
    ensures { result ≡ written_as (operation (reissued_header_body (record { suite = suite; messageId = messageId.now; suiteData = suiteData.now })) m.now start) }
{
    let added = Reissue {
        suite,
        messageId,
        suiteData,
    };
    let draft = added.test_draft(m, start)?;
    Ok(draft.body_size())
}

// Writes the version 2 body of the version 1 draft at the start: what reading version 1 only refuses, tolerantly and without tables; 20; 6, 7, 24 and
// 25 of what is added; 28.
pub fn reissue_header_body(
    m: &[u8],
    start: u64,
    suite: u32,
    messageId: &[u8],
    suiteData: &[u8],
    out: &mut [u8],
) -> Result<usize, Refusal>
    ensures { Reads written_as whole (operation (reissue_header_body (record { suite = suite; messageId = messageId.now; suiteData = suiteData.now }) (length out.old)) m.now start) out.old out.new result }
{
    let added = Reissue {
        suite,
        messageId,
        suiteData,
    };
    let draft = added.test_draft(m, start)?;
    let size = draft.body_size();
    if out.len() < size {
        return Err(Reason::OutputTooShort.into());
    }
    added.put_body(draft, out);
    Ok(size)
}
