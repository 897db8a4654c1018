// The lines of an accepted header, by what its reader gave.
ghost use Rattle.std.specs.Prelude.{◌≡◌, ◌<◌, length};
ghost use Rattle.text.specs.Put.{Room, Put};
ghost use Rattle.listing_text.specs.Answers.{BodyThere};

use super::Listed;
use super::lines::{header_size, part_size, put_header, put_part_line};
use body_reader::HeaderBody;
use text::Text;
use text::fields::{Items, part_of};

// An accepted header, as its reader gave it.
#[derive(Clone, Copy)]
pub struct Header<'a> {
    pub message: &'a [u8],
    pub body: HeaderBody,
    pub tail: u64,
    pub pairs: Items<'a>,
    pub keys: Items<'a>,
    ghost there: { BodyThere message.now body },
}

impl<'a> Header<'a> {
    ghost use Rattle.listing_text.specs.Header.{front_of, tables_of, data_of};

    // The header's line and the ID's.
    fn put_front(self, text: &mut Text<'_>)
        requires { Room text.old (front_of self) }
        ensures { Put (front_of self.entry) text.old text.new }
    {
        put_header(self.body.numbers, self.tail, text);
        let id = part_of(
            self.message,
            self.body.messageIdStart as usize,
            self.body.messageIdLen as usize,
        );
        put_part_line(b"id", id, text);
    }

    // A line for each pair, then one for each key.
    fn put_tables(self, text: &mut Text<'_>)
        requires { Room text.old (tables_of self) }
        ensures { Put (tables_of self.entry) text.old text.new }
    {
        text.put_items(self.pairs, b"pair");
        text.put_items(self.keys, b"key");
    }

    fn data_size(self) -> usize
        ensures { (result ≡ length (data_of self.entry)) × (result < 8589934600) }
    {
        if self.body.numbers.version == 2 {
            return part_size(b"data", self.body.suiteDataLen);
        }
        0
    }

    // Version 2 ends with the suite data.
    fn put_data(self, text: &mut Text<'_>)
        requires { Room text.old (data_of self) }
        ensures { Put (data_of self.entry) text.old text.new }
    {
        if self.body.numbers.version == 2 {
            let data = part_of(
                self.message,
                self.body.suiteDataStart as usize,
                self.body.suiteDataLen as usize,
            );
            put_part_line(b"data", data, text);
        }
    }
}

impl<'a> Listed for Header<'a> {
    ghost use Rattle.listing_text.specs.Header.{text_of};

    ghost image = { text_of };

    fn size(&self) -> usize {
        header_size(self.body.numbers, self.tail)
            + part_size(b"id", self.body.messageIdLen)
            + (self.pairs.size(b"pair") + self.keys.size(b"key") + self.data_size())
    }

    fn put(&self, out: &mut [u8]) -> usize {
        let mut text = Text::new(out);
        self.put_front(&mut text);
        self.put_tables(&mut text);
        self.put_data(&mut text);
        text.len()
    }
}
