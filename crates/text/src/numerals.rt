// Numbers and bytes as digits.
ghost use Rattle.std.specs.Prelude.{◌≡◌, ◌+◌, ◌≤◌, ◌<◌, length};
ghost use Rattle.wire.specs.Stored.{stored};
ghost use Rattle.text.specs.Text.{decimal as decimal_text, digit as digit_character, hex, hex_byte};
ghost use Rattle.text.specs.Put.{Room, Put};

use super::Text;
use wire::writing::write_uint8;

// How many digits n has.
pub fn decimal_size(n: u64) -> usize
    ensures { (result ≡ length (decimal_text n)) × (result ≤ 20) }
{
    itoa::Buffer::new().format(n).len()
}

// The character of a digit below 16.
fn digit(d: u8) -> u8
    requires { d < 16 }
    ensures { result ≡ digit_character d }
{
    match d {
        0..=9 => b'0' + d,
        _ => b'a' - 10 + d,
    }
}

fn put_hex_byte(b: u8, out: &mut [u8], at: usize)
    requires { at + 2 ≤ length out.old }
    ensures { out.new ≡ stored out.old at (hex_byte b) }
{
    write_uint8(out, at, digit(b / 16));
    write_uint8(out, at + 1, digit(b % 16));
}

// Two digits a byte; gives the place behind them. Into the output itself: through the text, whose place would move with each byte, a long part
// takes up to seven times as long.
fn spell_hex(bytes: &[u8], out: &mut [u8], at: usize) -> usize
    requires { at + length (hex bytes.now) ≤ length out.old }
    ensures { (result ≡ at + length (hex bytes.now)) × (out.new ≡ stored out.old at (hex bytes.now)) }
{
    for i in 0..bytes.len() {
        put_hex_byte(bytes[i], out, at + 2 * i);
    }
    at + 2 * bytes.len()
}

impl<'a> Text<'a> {
    pub(crate) fn put_decimal(&mut self, n: u64)
        requires { Room self.old (decimal_text n) }
        ensures { Put (decimal_text n) self.old self.new }
    {
        let mut buffer = itoa::Buffer::new();
        self.put_word(buffer.format(n).as_bytes());
    }

    pub(crate) fn put_hex(&mut self, bytes: &[u8])
        requires { Room self.old (hex bytes.now) }
        ensures { Put (hex bytes.now) self.old self.new }
    {
        self.at = spell_hex(bytes, self.out, self.at);
    }
}
