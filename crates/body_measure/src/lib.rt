// A body without tables: its parts and where they stand, by the tests up to 20.
#![tactic(auto)]

ghost use Rattle.std.specs.Prelude.{◌≡◌};
ghost use Rattle.body_measure.specs.Codes.{Measured, frame_test};

use ends::{Closing, Opening};
use fields::frame_fits;
use request::{Request, Which};
use wire::buffer::ReadableBuffer;
use wire::refusals::{Reason, Refusal};

// A body without tables: its ends, where its context section starts, where its key section starts and ends, and how many pairs and
// keys they have.
#[derive(Clone, Copy)]
pub struct Measurement {
    pub opening: Opening,
    pub contextStart: u64,
    pub pairCount: u64,
    pub keysStart: u64,
    pub keyCount: u64,
    pub keysEnd: u64,
    pub closing: Closing,
    pub tail: u64,
}

// The readers of one version don't test 20.
fn frame_passes(which: Which, contentType: u32, frameLength: u32) -> bool
    ensures { result ≡ frame_test which contentType frameLength }
{
    match which {
        Which::Either => frame_fits(contentType, frameLength),
        Which::V1Only => true,
        Which::V2Only => true,
    }
}

// The body that a buffer starts with: its tests up to 20.
pub fn measure(buffer: ReadableBuffer, request: Request) -> Result<Measurement, Refusal>
    ensures { Measured request buffer.entry.bytes.now buffer.entry.start result }
{
    let opening = ends::read_opening(buffer, request.which, request.policy)?;
    let context = context::section::context_at(buffer.at(opening.tail), request.mode)?;
    let keys = keys::section::keys_at(buffer.at(context.tail), request.max)?;
    let closing = ends::read_closing(buffer.at(keys.tail), opening.value.version)?;
    let Closing {
        contentType,
        frameLength,
        ..
    } = closing.value;
    if !frame_passes(request.which, contentType, frameLength) {
        return Err(Reason::FrameLength.into());
    }
    Ok(Measurement {
        opening: opening.value,
        contextStart: opening.tail,
        pairCount: context.value,
        keysStart: context.tail,
        keyCount: keys.value,
        keysEnd: keys.tail,
        closing: closing.value,
        tail: closing.tail,
    })
}
