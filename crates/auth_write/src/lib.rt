// Writes an authentication record.
#![tactic(auto)]

ghost use Rattle.std.specs.Prelude.{◌≡◌, length};
ghost use Rattle.format.specs.Shared.{by};
ghost use Rattle.format.specs.Lent.{writing_header_auth_tag};
ghost use Rattle.wire.specs.Stored.{stored};
ghost use Rattle.checks.specs.Answers.{Writes};
ghost use Rattle.auth_write.specs.Ready.{auth_image, AuthReady};

use checks::sealed::check_sealed;
use suites::Suite;
use wire::refusals::{Reason, Refusal};
use wire::writing::write;

// How many bytes the record takes: version 2 has no IV.
fn auth_size(version: u8) -> usize
    ensures { result ≡ by version 28 16 }
{
    if version == 1 {
        return Suite::IV_LEN + Suite::TAG_LEN;
    }
    Suite::TAG_LEN
}

fn put_auth(version: u8, iv: &[u8], tag: &[u8], out: &mut [u8])
    requires { AuthReady version iv.now tag.now (length out.old) }
    ensures { out.new ≡ stored out.old 0 (auth_image version iv.now tag.now) }
{
    if version == 1 {
        write(iv, 0, iv.len(), out, 0);
        write(tag, 0, tag.len(), out, Suite::IV_LEN);
        return;
    }
    write(tag, 0, tag.len(), out, 0);
}

// Write an authentication record: 6; 19; 30; 28. In version 2 the contents of the IV are ignored.
pub fn write_header_auth_tag(
    suite: u32,
    iv: &[u8],
    tag: &[u8],
    out: &mut [u8],
) -> Result<usize, Refusal>
    ensures { Writes (writing_header_auth_tag suite iv.now tag.now) out.old out.new result }
{
    let suite = Suite::from_number(suite).ok_or(Reason::UnknownSuite)?;
    check_sealed(iv.len(), tag.len())?;
    let size = auth_size(suite.version);
    if out.len() < size {
        return Err(Reason::OutputTooShort.into());
    }
    put_auth(suite.version, iv, tag, out);
    Ok(size)
}
