// Writes a header body, or tells before what it takes. Each function takes, one by one, what its C export is handed.
#![tactic(auto)]

mod body;

ghost use Rattle.std.specs.Prelude.{◌≡◌};
ghost use Rattle.format.specs.Lent.{size_of, writing_header_body_under, writing_header_body};
ghost use Rattle.checks.specs.Answers.{write_answer_of, Writes};
ghost use Rattle.request.specs.Codes.{policy_of};
ghost use Rattle.body_write.specs.Lent.{body_to_write};

use body::Body;
use fields::BodyNumbers;
use request::Policy;
use wire::refusals::Refusal;

// What a writer with an output that is long enough answers: 3; 5; 6; 7; 24; the pairs'; 33; the keys'; 17; 19; 25; 20; else the length of
// the image, in the form of the mark.
pub fn header_body_len(
    numbers: BodyNumbers,
    messageId: &[u8],
    suiteData: &[u8],
    text: &[u8],
    pairs: &[u32],
    keys: &[u32],
) -> Result<usize, Refusal>
    ensures { result ≡ write_answer_of (size_of (writing_header_body (body_to_write numbers messageId.now suiteData.now text.now pairs.now keys.now))) }
{
    header_body_len_under(
        numbers,
        Policy::None,
        messageId,
        suiteData,
        text,
        pairs,
        keys,
    )
}

// Write a body: what header_body_len refuses; 28.
pub fn write_header_body(
    numbers: BodyNumbers,
    messageId: &[u8],
    suiteData: &[u8],
    text: &[u8],
    pairs: &[u32],
    keys: &[u32],
    out: &mut [u8],
) -> Result<usize, Refusal>
    ensures { Writes (writing_header_body (body_to_write numbers messageId.now suiteData.now text.now pairs.now keys.now)) out.old out.new result }
{
    write_header_body_under(
        numbers,
        Policy::None,
        messageId,
        suiteData,
        text,
        pairs,
        keys,
        out,
    )
}

// What header_body_len tells, but 39 where the policy forbids the version and nothing up to 7 applies.
pub fn header_body_len_under(
    numbers: BodyNumbers,
    policy: Policy,
    messageId: &[u8],
    suiteData: &[u8],
    text: &[u8],
    pairs: &[u32],
    keys: &[u32],
) -> Result<usize, Refusal>
    ensures { result ≡ write_answer_of (size_of (writing_header_body_under (policy_of policy) (body_to_write numbers messageId.now suiteData.now text.now pairs.now keys.now))) }
{
    let body = Body {
        numbers,
        messageId,
        suiteData,
        text,
        pairs,
        keys,
    };
    body.len(policy)
}

// Write a body under a policy: likewise.
pub fn write_header_body_under(
    numbers: BodyNumbers,
    policy: Policy,
    messageId: &[u8],
    suiteData: &[u8],
    text: &[u8],
    pairs: &[u32],
    keys: &[u32],
    out: &mut [u8],
) -> Result<usize, Refusal>
    ensures { Writes (writing_header_body_under (policy_of policy) (body_to_write numbers messageId.now suiteData.now text.now pairs.now keys.now)) out.old out.new result }
{
    let body = Body {
        numbers,
        messageId,
        suiteData,
        text,
        pairs,
        keys,
    };
    body.write(policy, out)
}
