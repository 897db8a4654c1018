// An authentication record of each version, at a place of a message.
ghost use Rattle.std.specs.Prelude.{◌≡◌, true, false, ◌+◌, ◌≤◌, length};
ghost use Rattle.format.specs.Auth.{read_header_auth_tag_of};
ghost use Rattle.format.specs.Lent.{bytes_at};
ghost use Rattle.wire.specs.Buffer.{from};
ghost use Rattle.auth.specs.Codes.{read_tag, auth_of};

use super::HeaderAuth;
use suites::Suite;
use wire::SuccessfulRead;
use wire::buffer::ReadableBuffer;
use wire::refusals::Refusal;

// The bytes that are known to stand at a place: an IV, and a tag. An array, since C's record has them by value.
fn bytes_at<const N: usize>(m: &[u8], s: u64) -> [u8; N]
    requires { s + N ≤ length m.now }
    ensures { result ≡ bytes_at m.now s N }
{
    let mut bytes = [0u8; N];
    let start = s as usize;
    bytes.copy_from_slice(&m[start..start + N]);
    bytes
}

// The tag, behind an IV: what both versions end with.
fn read_tag(
    buffer: ReadableBuffer,
    iv: [u8; Suite::IV_LEN],
) -> Result<SuccessfulRead<HeaderAuth>, Refusal>
    ensures { result ≡ auth_of (from (read_tag iv) buffer.entry) }
{
    let tag = buffer.read_some_bytes(Suite::TAG_LEN as u64)?;
    let value = HeaderAuth {
        iv,
        tag: bytes_at(buffer.bytes, tag.start),
    };
    Ok(SuccessfulRead {
        value,
        tail: tag.tail,
    })
}

// ReadHeaderAuthTagV1.
pub fn read_header_auth_tag_v1(
    buffer: ReadableBuffer,
) -> Result<SuccessfulRead<HeaderAuth>, Refusal>
    ensures { result ≡ auth_of (from (read_header_auth_tag_of true) buffer.entry) }
{
    let iv = buffer.read_some_bytes(Suite::IV_LEN as u64)?;
    read_tag(buffer.at(iv.tail), bytes_at(buffer.bytes, iv.start))
}

// ReadHeaderAuthTagV2: there is no IV, and the one that is read is all 00.
pub fn read_header_auth_tag_v2(
    buffer: ReadableBuffer,
) -> Result<SuccessfulRead<HeaderAuth>, Refusal>
    ensures { result ≡ auth_of (from (read_header_auth_tag_of false) buffer.entry) }
{
    read_tag(buffer, [0u8; Suite::IV_LEN])
}
