// Lines of text in a lent output: numerals, fields and lines, and a line for each item of a table.
#![tactic(auto)]

pub mod fields;
pub mod numerals;

ghost use Rattle.std.specs.Prelude.{◌≡◌, [], ◌∷◌};
ghost use Rattle.text.specs.Put.{Room, Put};

use wire::writing::write;

// A text that begins at the front of a lent output: what is put next goes to `at`, which then moves behind it.
#[derive(Drop)]
pub struct Text<'a> {
    out: &'a mut [u8],
    at: usize,
}

impl<'a> Text<'a> {
    pub fn new(out: &'a mut [u8]) -> Text<'a>
        ensures same_output { result.out.ghost_name ≡ out.entry.ghost_name }
        ensures empty { (result.out.now ≡ out.old) × (result.at ≡ 0) }
    {
        Text { out, at: 0 }
    }

    // How many characters were put.
    pub fn len(&self) -> usize
        ensures { result ≡ self.now.at }
    {
        self.at
    }

    pub fn put_word(&mut self, word: &[u8])
        requires { Room self.old word.now }
        ensures { Put word.now self.old self.new }
    {
        write(word, 0, word.len(), self.out, self.at);
        self.at += word.len();
    }

    pub fn put_line_end(&mut self)
        requires { Room self.old (0x0A ∷ []) }
        ensures { Put (0x0A ∷ []) self.old self.new }
    {
        self.put_word(b"\n");
    }
}
