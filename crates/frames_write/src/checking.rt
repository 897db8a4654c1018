// What the frame writer tests before it stores anything. Lengths are the table's: no byte of the text is looked at.
ghost use Rattle.std.specs.Prelude.{◌≡◌, [], ◌/◌, ◌<◌, length};
ghost use Rattle.format.specs.Checks.{first, each, content_checks};
ghost use Rattle.format.specs.Lent.{items, here, writing_frames};
ghost use Rattle.checks.specs.Answers.{checked};
ghost use Rattle.frames_write.specs.Table.{sealed_at, contents_in, lengths_checks};

use checks::sealed::check_sealed;
use checks::tables::all_in_text;
use wire::refusals::{Reason, Refusal};

// 19 and 30 of each frame.
fn check_each_frame(table: &[u32]) -> Result<(), Refusal>
    ensures { result ≡ checked (first (each (sealed_at table.now) [] (items here 6 (length table.now / 6) 0))) }
{
    for i in 0..table.len() / 6 {
        check_sealed(table[6 * i + 1] as usize, table[6 * i + 5] as usize)?;
    }
    Ok(())
}

// 37 of each frame before the last; 35 of the last. There is a last one: 36, which `check_frames` tests, in the two functions behind it.
fn check_contents(table: &[u32], frame: u32) -> Result<(), Refusal>
    requires { 0 < length table.now / 6 }
    ensures { result ≡ checked (first (content_checks frame (contents_in table.now))) }
{
    let last = table.len() / 6 - 1;
    for i in 0..last {
        if table[6 * i + 3] != frame {
            return Err(Reason::RegularContentLength.into());
        }
    }
    if frame < table[6 * last + 3] {
        return Err(Reason::FinalContentTooLong.into());
    }
    Ok(())
}

// Per frame 19, 30; then 37; 35.
fn check_lengths(table: &[u32], frame: u32) -> Result<(), Refusal>
    requires { 0 < length table.now / 6 }
    ensures { result ≡ checked (first (lengths_checks frame table.now)) }
{
    check_each_frame(table)?;
    check_contents(table, frame)
}

// All but 28: 20; 26; 36; 27; per frame 19, 30; 37; 35.
pub(crate) fn check_frames(frame: u32, text: &[u8], table: &[u32]) -> Result<(), Refusal>
    ensures { result ≡ checked (first (writing_frames frame text.now table.now).checks) }
{
    if frame == 0 {
        return Err(Reason::FrameLength.into());
    }
    if table.len() % 6 != 0 {
        return Err(Reason::TableOrPlace.into());
    }
    if !all_in_text(text, table) {
        return Err(Reason::TableOrPlace.into());
    }
    if table.len() / 6 == 0 {
        return Err(Reason::NoFrame.into());
    }
    if 65535 < table.len() / 6 {
        return Err(Reason::CountOrPartTooLong.into());
    }
    check_lengths(table, frame)
}
