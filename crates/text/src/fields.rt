// Fields, and the lines of items whose parts stand in a table.
ghost use Rattle.std.specs.Prelude.{◌≡◌, [], ◌∷◌, ◌*◌, ◌≤◌, ◌<◌, length};
ghost use Rattle.format.specs.Lent.{bytes_at, part_in};
ghost use Rattle.text.specs.Text.{hex, field, decimal_field};
ghost use Rattle.text.specs.Put.{Room, Put, There, PartThere, All, ItemThere};
ghost use Rattle.text.specs.Facts.{items_prop};

use super::Text;

// The part of the message at that place. An empty one may have its place behind the message's end.
pub fn part_of(m: &[u8], start: usize, len: usize) -> &[u8]
    requires { There m.now start len }
    ensures { result.now ≡ bytes_at m.now start len }
{
    m.get(start..start + len).unwrap_or(&[])
}

// Items of so many parts each, whose places stand one behind the other in a table, two numbers a part. The message has their bytes.
#[derive(Clone, Copy)]
pub struct Items<'a> {
    pub message: &'a [u8],
    pub table: &'a [u32],
    pub parts: usize,
    pub count: usize,
    ghost few: { count ≤ 2048 },
    ghost numbers: { (parts * count ≤ 2048) × (2 * (parts * count) ≤ length table.now) },
    ghost there: { All (ItemThere message.now table.now parts) (2 * parts) count 0 } by { items_prop message.now table.now parts count },
}

impl<'a> Items<'a> {
    ghost use Rattle.text.specs.Items.{lines_of};

    // How long the lines are, before any is put.
    pub fn size(self, word: &[u8]) -> usize
        requires { length word.now < 16 }
        ensures { (result ≡ length (lines_of self.entry word.now)) × (result ≤ 17592186077184) }
    {
        let mut total = (word.len() + 1) * self.count;
        for i in 0..self.parts * self.count {
            total += 1 + 2 * self.table[2 * i + 1] as usize;
        }
        total
    }

    // The part whose place stands at j of the table.
    fn part(self, j: usize) -> &'a [u8]
        requires { PartThere self.message.now self.table.now j }
        ensures { result.now ≡ part_in self.entry.message.now self.entry.table.now j }
    {
        part_of(
            self.message,
            self.table[j] as usize,
            self.table[j + 1] as usize,
        )
    }
}

impl<'a> Text<'a> {
    ghost use Rattle.text.specs.Items.{fields_of, line_of, lines_of};

    fn put_tab(&mut self)
        requires { Room self.old (0x09 ∷ []) }
        ensures { Put (0x09 ∷ []) self.old self.new }
    {
        self.put_word(b"\t");
    }

    pub fn put_decimal_field(&mut self, n: u64)
        requires { Room self.old (decimal_field n) }
        ensures { Put (decimal_field n) self.old self.new }
    {
        self.put_tab();
        self.put_decimal(n);
    }

    pub fn put_hex_field(&mut self, bytes: &[u8])
        requires { Room self.old (field (hex bytes.now)) }
        ensures { Put (field (hex bytes.now)) self.old self.new }
    {
        self.put_tab();
        self.put_hex(bytes);
    }

    // The parts of an item, as fields.
    fn put_parts(&mut self, items: Items<'_>, i: usize)
        requires { (i < items.count) × Room self.old (fields_of items i) }
        ensures { Put (fields_of items.entry i) self.old self.new }
    {
        for k in 0..items.parts {
            self.put_hex_field(items.part(2 * items.parts * i + 2 * k));
        }
    }

    fn put_item(&mut self, items: Items<'_>, word: &[u8], i: usize)
        requires { (i < items.count) × Room self.old (line_of items word.now i) }
        ensures { Put (line_of items.entry word.now i) self.old self.new }
    {
        self.put_word(word);
        self.put_parts(items, i);
        self.put_line_end();
    }

    // A line for each item, which begins with the word.
    pub fn put_items(&mut self, items: Items<'_>, word: &[u8])
        requires { Room self.old (lines_of items word.now) }
        ensures { Put (lines_of items.entry word.now) self.old self.new }
    {
        for i in 0..items.count {
            self.put_item(items, word, i);
        }
    }
}
