// What is tested of a draft and of what is added to it.
ghost use Rattle.std.specs.Prelude.{◌≡◌};
ghost use Rattle.format.specs.Checks.{first};
ghost use Rattle.format.specs.Reissued.{added_checks};
ghost use Rattle.checks.specs.Answers.{checked};
ghost use Rattle.reissuing.specs.Codes.{InMessage, context_kept, Keeps, Found};

use super::Reissue;
use super::storing::Draft;
use body_measure::{Measurement, measure};
use ends_write::opening::Opening;
use fields::frame_fits;
use request::{Policy, Request, Which};
use suites::Suite;
use wire::buffer::ReadableBuffer;
use wire::refusals::{Reason, Refusal};

// The context section: one without a pair is written in today's form.
fn context_of(m: &[u8], body: Measurement) -> &[u8]
    requires { InMessage m.now body }
    ensures { result.now ≡ context_kept m.now body }
{
    if body.pairCount == 0 {
        return &[0, 0];
    }
    &m[body.contextStart as usize..body.keysStart as usize]
}

// What is taken over of a draft that was measured.
fn taken_over<'a>(buffer: ReadableBuffer<'a>, body: Measurement) -> Draft<'a>
    requires { InMessage buffer.bytes.now body }
    ensures { Keeps buffer.entry.bytes.now body result }
{
    Draft {
        context: context_of(buffer.bytes, body),
        keys: &buffer.bytes[body.keysStart as usize..body.keysEnd as usize],
        contentType: body.closing.contentType,
        frameLength: body.closing.frameLength,
    }
}

fn read_draft(m: &[u8], start: u64) -> Result<Draft, Refusal>
    ensures { Found m.now start result }
{
    let buffer = ReadableBuffer::new(m, start)?;
    let request = Request {
        which: Which::V1Only,
        ..Request::default()
    };
    let body = measure(buffer, request)?;
    Ok(taken_over(buffer, body))
}

impl<'a> Reissue<'a> {
    ghost use Rattle.reissuing.specs.Codes.{added, opening_of, Tested};

    // Of version 2.
    pub(crate) fn opening(self) -> Opening<'a>
        ensures { result ≡ opening_of self.entry }
    {
        Opening {
            version: 2,
            messageType: 0,
            suite: self.suite,
            messageId: self.messageId,
        }
    }

    // 6, 7, 24 and 25 of what is added.
    fn check_added(self) -> Result<(), Refusal>
        ensures { result ≡ checked (first (added_checks (added self.entry))) }
    {
        self.opening().check(Policy::None)?;
        if self.suiteData.len() != Suite::COMMIT_LEN {
            return Err(Reason::SuiteDataLength.into());
        }
        Ok(())
    }

    // All but 28, in the order of document 02.
    pub(crate) fn test_draft<'d>(self, m: &'d [u8], start: u64) -> Result<Draft<'d>, Refusal>
        ensures { Tested (added self.entry) m.now start result }
    {
        let draft = read_draft(m, start)?;
        if !frame_fits(draft.contentType, draft.frameLength) {
            return Err(Reason::FrameLength.into());
        }
        self.check_added()?;
        Ok(draft)
    }
}
