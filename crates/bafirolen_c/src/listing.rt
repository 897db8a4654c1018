// The number and the position, by a call each, read as the listing program does: either version, tolerant, no maximum, tables of
// 4,096 numbers; and the listing itself.
ghost use Rattle.std.specs.Prelude.{◌≡◌};
ghost use Rattle.body_reader.specs.Codes.{body_of};
ghost use Rattle.listing_text.specs.Listing.{as_listed, listing};
ghost use Rattle.listing_text.specs.Answers.{writing_text};
ghost use Rattle.bafirolen_c.specs.Exports.{answer_number, answer_position, Writes};

use body_reader::HeaderBody;
use crossing::BafirolenWritten;
use wire::SuccessfulRead;
use wire::refusals::Refusal;

// The tables are arrays, since the project has no heap.
fn answer_at(m: &[u8], start: u64) -> Result<SuccessfulRead<HeaderBody>, Refusal>
    ensures { result ≡ body_of (as_listed m.now start) }
{
    let mut pairs = [0u32; 4096];
    let mut keys = [0u32; 4096];
    listing_text::read_as_listed(m, start, &mut pairs, &mut keys)
}

// 0 where the header at the start is accepted, else the refusal's number.
#[unsafe(no_mangle)]
pub extern "C" fn bafirolen_header_number(m: &[u8], start: u64) -> u32
    ensures { result ≡ answer_number (as_listed m.now start) }
{
    match answer_at(m, start) {
        Ok(_) => 0,
        Err(q) => u32::from(q.number),
    }
}

// The tail where the header at the start is accepted, else the refusal's position.
#[unsafe(no_mangle)]
pub extern "C" fn bafirolen_header_position(m: &[u8], start: u64) -> u64
    ensures { result ≡ answer_position (as_listed m.now start) }
{
    match answer_at(m, start) {
        Ok(body) => body.tail,
        Err(q) => q.position,
    }
}

// The listing of the header at the front of the message, or of its refusal. The message is taken whole.
#[unsafe(no_mangle)]
pub extern "C" fn bafirolen_write_listing(m: &[u8], out: &mut [u8]) -> BafirolenWritten
    ensures { Writes (writing_text (listing m.now)) out.old out.new result }
{
    listing_text::write_listing(m, out).into()
}
