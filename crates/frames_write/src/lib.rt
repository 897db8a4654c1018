// Writes frames, or tells before what they take. The writer goes by what is told: everything is tested before anything is stored, so that
// a refusal leaves the output as it was.
#![tactic(auto)]

mod checking;
mod storing;

ghost use Rattle.std.specs.Prelude.{◌≡◌, ◌/◌, ◌≤◌, ◌<◌, length};
ghost use Rattle.format.specs.Lent.{size_of, writing_frames};
ghost use Rattle.checks.specs.Answers.{write_answer_of, Writes};
ghost use Rattle.frames_write.specs.Table.{frames_size};

use wire::refusals::{Reason, Refusal};

// How many bytes the frames take: every content but the last has the frame length.
fn frames_size(frame: u32, table: &[u32]) -> usize
    requires { (0 < length table.now / 6) × (length table.now / 6 ≤ 65535) }
    ensures { result ≡ frames_size frame table.now }
{
    let last = table.len() / 6 - 1;
    last * (32 + frame as usize) + (40 + table[6 * last + 3] as usize)
}

// What a writer with an output that is long enough answers: 20; 26; 36; 27; per frame 19, 30; 37; 35; else the length of the image.
pub fn frames_len(frameLength: u32, text: &[u8], table: &[u32]) -> Result<usize, Refusal>
    ensures { result ≡ write_answer_of (size_of (writing_frames frameLength text.now table.now)) }
{
    checking::check_frames(frameLength, text, table)?;
    Ok(frames_size(frameLength, table))
}

// Write frames: what frames_len refuses; 28.
pub fn write_frames(
    frameLength: u32,
    text: &[u8],
    table: &[u32],
    out: &mut [u8],
) -> Result<usize, Refusal>
    ensures { Writes (writing_frames frameLength text.now table.now) out.old out.new result }
{
    let size = frames_len(frameLength, text, table)?;
    if out.len() < size {
        return Err(Reason::OutputTooShort.into());
    }
    storing::put_frames(text, table, out);
    Ok(size)
}
