// Lists the header at the front of standard input: at most 65,536 bytes of it, and the rest is ignored.
#![tactic(auto)]

ghost use Rattle.std.specs.Prelude.{◌≡◌, ◌≤◌, length};
ghost use Rattle.format.specs.Lent.{filled};
ghost use Rattle.listing_text.specs.Listing.{listing};

use listing_text::write_listing;
use std::io::Read;

// Fills the buffer from its front on, and gives how far. It ends where the input does, or where a read fails.
fn fill<R: Read>(input: &mut R, buf: &mut [u8]) -> usize
    ensures { (result ≤ length buf.new) × (length buf.new ≡ length buf.old) }
{
    let mut len = 0;
    // A read gives as many bytes as there are: no `for` counts them.
    while len < buf.len() {
        match input.read(&mut buf[len..]) {
            Ok(0) | Err(_) => break,
            Ok(n) => len += n,
        }
    }
    len
}

// The length of the listing, with which `out` then begins. So long an output has room for it whatever the message is, so that
// nothing is refused.
fn list(m: &[u8], out: &mut [u8]) -> usize
    requires { (length m.now ≤ 65536) × (length out.old ≡ 262144) }
    ensures { (result ≡ length (listing m.now)) × (out.new ≡ filled (listing m.now) out.old) × (result ≤ length out.new) }
{
    write_listing(m, out).unwrap()
}

// Both buffers are arrays, since the project has no heap.
fn main(rt: HostRuntime) {
    let mut buf = [0u8; 65536];
    let len = fill(&mut rt.reader(), &mut buf);
    let mut out = [0u8; 262144];
    let len = list(&buf[..len], &mut out);
    // The exit status is 0 either way, so a listing that could not be written whole is told from one that was by what is said here.
    if rt.write_all(&out[..len]).is_err() {
        let _ = eprintln!(rt; "listing: standard output could not be written");
    }
}
