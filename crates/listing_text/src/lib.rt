// The listing of a message as text: what document 01's listing program writes.
#![tactic(auto)]

mod header;
mod lines;

ghost use Rattle.std.specs.Prelude.{◌≡◌, ◌≤◌, List, ℕ, length, Ok};
ghost use Rattle.format.specs.Read.{operation};
ghost use Rattle.format.specs.Context.{tolerant};
ghost use Rattle.format.specs.Keys.{no_max};
ghost use Rattle.format.specs.Body.{either, read_header_body};
ghost use Rattle.body_reader.specs.Codes.{ReadsBody};
ghost use Rattle.listing_text.specs.Listing.{listing};
ghost use Rattle.listing_text.specs.Answers.{Lists, Reading};

use body_reader::{HeaderBody, read_header_body};
use header::Header;
use request::Request;
use text::fields::Items;
use wire::SuccessfulRead;
use wire::refusals::{Reason, Refusal};

// What a listing is of: a header, or a refusal. It is written whole, or not at all.
trait Listed {
    ghost image: { Self → List ℕ };

    fn size(&self) -> usize
        ensures { result ≡ length (image self.now) };

    fn put(&self, out: &mut [u8]) -> usize
        requires { length (image self.now) ≤ length out.old }
        ensures { Lists (image self.now) out.old out.new (Ok result) };

    fn write(&self, out: &mut [u8]) -> Result<usize, Refusal>
        ensures { Lists (image self.now) out.old out.new result }
    {
        if out.len() < self.size() {
            return Err(Reason::OutputTooShort.into());
        }
        Ok(self.put(out))
    }
}

fn write_answer<'a>(
    m: &'a [u8],
    answer: Result<SuccessfulRead<HeaderBody>, Refusal>,
    pairs: &'a [u32],
    keys: &'a [u32],
    out: &mut [u8],
) -> Result<usize, Refusal>
    requires { Reading m.now answer pairs.now keys.now }
    ensures { Lists (listing m.now) out.old out.new result }
{
    match answer {
        Ok(read) => {
            let pairs = Items {
                message: m,
                table: pairs,
                parts: 2,
                count: read.value.pairCount as usize,
            };
            let keys = Items {
                message: m,
                table: keys,
                parts: 3,
                count: read.value.keyCount as usize,
            };
            let header = Header {
                message: m,
                body: read.value,
                tail: read.tail,
                pairs,
                keys,
            };
            header.write(out)
        }
        Err(refusal) => refusal.write(out),
    }
}

// Either version, tolerant, no maximum: how a header is read that is listed.
pub fn read_as_listed(
    m: &[u8],
    start: u64,
    pairs: &mut [u32],
    keys: &mut [u32],
) -> Result<SuccessfulRead<HeaderBody>, Refusal>
    ensures { ReadsBody (operation (read_header_body either tolerant no_max (length pairs.old) (length keys.old)) m.now start) pairs.old pairs.new keys.old keys.new result }
{
    read_header_body(m, start, Request::default(), pairs, keys)
}

// The listing of the header at the front, or of its refusal. 28, and no other refusal: the text is longer than the output. The tables are
// arrays, since the project has no heap.
pub fn write_listing(m: &[u8], out: &mut [u8]) -> Result<usize, Refusal>
    ensures { Lists (listing m.now) out.old out.new result }
{
    let mut pairs = [0u32; 4096];
    let mut keys = [0u32; 4096];
    let answer = read_as_listed(m, 0, &mut pairs, &mut keys);
    write_answer(m, answer, &pairs, &keys, out)
}
