// The lines that are one in a listing: the header's, the parts by themselves, the refusal's.
ghost use Rattle.std.specs.Prelude.{◌≡◌, ◌++◌, ◌+◌, ◌*◌, ◌≤◌, ◌<◌, length};
ghost use Rattle.text.specs.Text.{hex, field, line, decimal_field};
ghost use Rattle.listing_text.specs.Listing.{number_fields, refusal_listing};
ghost use Rattle.listing_text.specs.Answers.{header_fields_of, header_text};
ghost use Rattle.text.specs.Put.{Room, Put};

use super::Listed;
use fields::BodyNumbers;
use text::Text;
use text::numerals::decimal_size;
use wire::refusals::Refusal;

// Type, suite and content type, as they are stored: in one byte, two and one.
fn put_number_fields(numbers: BodyNumbers, text: &mut Text<'_>)
    requires { Room text.old (number_fields numbers.messageType numbers.suite numbers.contentType) }
    ensures { Put (number_fields numbers.messageType numbers.suite numbers.contentType) text.old text.new }
{
    text.put_hex_field(&numbers.messageType.to_be_bytes()[3..]);
    text.put_hex_field(&numbers.suite.to_be_bytes()[2..]);
    text.put_hex_field(&numbers.contentType.to_be_bytes()[3..]);
}

fn put_decimal_fields(x: u64, y: u64, text: &mut Text<'_>)
    requires { Room text.old (decimal_field x ++ decimal_field y) }
    ensures { Put (decimal_field x ++ decimal_field y) text.old text.new }
{
    text.put_decimal_field(x);
    text.put_decimal_field(y);
}

fn put_header_fields(numbers: BodyNumbers, tail: u64, text: &mut Text<'_>)
    requires { Room text.old (header_fields_of numbers tail) }
    ensures { Put (header_fields_of numbers tail) text.old text.new }
{
    text.put_decimal_field(numbers.version as u64);
    put_number_fields(numbers, text);
    put_decimal_fields(numbers.frameLength as u64, tail, text);
}

// How long the line is, before it is put.
pub fn header_size(numbers: BodyNumbers, tail: u64) -> usize
    ensures { (result ≡ length (header_text numbers tail)) × (result ≤ 100) }
{
    decimal_size(numbers.version as u64)
        + decimal_size(numbers.frameLength as u64)
        + decimal_size(tail)
        + 21
}

pub fn put_header(numbers: BodyNumbers, tail: u64, text: &mut Text<'_>)
    requires { Room text.old (header_text numbers tail) }
    ensures { Put (header_text numbers tail) text.old text.new }
{
    text.put_word(b"header");
    put_header_fields(numbers, tail, text);
    text.put_line_end();
}

pub fn part_size(word: &[u8], len: u64) -> usize
    requires { (length word.now < 16) × (len < 4294967296) }
    ensures { result ≡ length word.now + 2 + 2 * len }
{
    word.len() + 2 + 2 * len as usize
}

// A part on a line of its own.
pub fn put_part_line(word: &[u8], part: &[u8], text: &mut Text<'_>)
    requires { Room text.old (line word.now (field (hex part.now))) }
    ensures { Put (line word.now (field (hex part.now))) text.old text.new }
{
    text.put_word(word);
    text.put_hex_field(part);
    text.put_line_end();
}

impl Listed for Refusal {
    ghost image = { λ q. refusal_listing q.number q.position };

    fn size(&self) -> usize {
        decimal_size(self.number as u64) + decimal_size(self.position) + 10
    }

    fn put(&self, out: &mut [u8]) -> usize {
        let mut text = Text::new(out);
        text.put_word(b"refused");
        put_decimal_fields(self.number as u64, self.position, &mut text);
        text.put_line_end();
        text.len()
    }
}
