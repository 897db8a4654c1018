// Whether bytes are UTF-8, by RFC 3629. Bytes below 128 are passed in blocks that are read whole, with no way out inside: such a
// loop becomes a few vector instructions.
// Tried: `std::str::from_utf8` of the part takes 1.4 to 3.4 times as long on 60,000 bytes of Cyrillic, Chinese or emoji, and the
// crate simdutf8 2.5 to 6.5 times.
// Each function goes by a place in the bytes, as the definition of what is passed does.
#![tactic(auto)]

ghost use Rattle.std.specs.Prelude.{◌≡◌, [], ◌∷◌, ◌+◌, ◌≤◌, ◌<◌, length, get_or};
ghost use Rattle.format.specs.Utf8.{◌‥◌, has, tail, valid_utf8_seq};
ghost use Rattle.format.specs.Lent.{bytes_at};
ghost use Rattle.utf8.specs.Scan.{Low, tails, Tails, Scan, Two, Passed, Advanced};

// Whether one of the n bytes from `at` may be 128 or more.
fn block_high(m: &[u8], at: usize, n: usize) -> bool
    requires { at + n ≤ length m.now }
    ensures { Low m.now at n result }
{
    let mut high = false;
    for k in 0..n {
        high |= 128 <= m[at + k];
    }
    high
}

// Passes blocks of n bytes below 128. (A `for` over `step_by(n)` is no plainer: its end would be m.len() - n, which needs a test.)
fn blocks_end(m: &[u8], from: usize, n: usize) -> usize
    requires { (from ≤ length m.now) × (0 < n) }
    ensures { Passed m.now from result }
{
    let mut i = from;
    while n <= m.len() - i {
        if block_high(m, i, n) {
            return i;
        }
        i += n;
    }
    i
}

// Passes bytes below 128, one by one.
fn bytes_end(m: &[u8], from: usize) -> usize
    requires { from ≤ length m.now }
    ensures { Passed m.now from result }
{
    for i in from..m.len() {
        if 128 <= m[i] {
            return i;
        }
    }
    m.len()
}

// Passes a byte below 128, which may stand alone, as a space between words, and more of them: in blocks where the 16 bytes from it
// are such, and then one by one.
fn ascii_end(m: &[u8], from: usize) -> usize
    requires { (from < length m.now) × (get_or m.now from 0 < 128) }
    ensures { Advanced m.now from result }
{
    if m.len() - from < 16 {
        return bytes_end(m, from + 1);
    }
    if 128 <= m[from + 1] {
        return from + 1;
    }
    if block_high(m, from, 16) {
        return bytes_end(m, from + 1);
    }
    let wide = blocks_end(m, from + 16, 64);
    let narrow = blocks_end(m, wide, 16);
    bytes_end(m, narrow)
}

fn is_tail(b: u8) -> bool
    ensures { result ≡ has tail b }
{
    matches!(b, 0x80..=0xBF)
}

// Whether the n bytes from i are those that stand behind a character's second byte.
fn all_tails(m: &[u8], i: usize, n: usize) -> bool
    requires { i + n ≤ length m.now }
    ensures { Tails m.now i n result }
{
    (0..n).all(|k| is_tail(m[i + k]))
}

// The length of a character that begins at i, its second byte from low to high and n bytes behind that.
fn longer(m: &[u8], i: usize, low: u8, high: u8, n: usize) -> Option<usize>
    requires { (i < length m.now) × (n < 3) }
    ensures { Scan m.now (i + 1) (low ‥ high ∷ tails n) i result }
{
    if m.len() - i < n + 2 {
        return None;
    }
    if (low..=high).contains(&m[i + 1]) && all_tails(m, i + 2, n) {
        return Some(n + 2);
    }
    None
}

// The length of the character of two bytes or more that begins at i.
#[tactic(auto, using(std::proofs::lemmas::Bool::Decides::nat_tests, crate::proofs::Utf8Laws::lead, crate::proofs::Utf8Laws::lead_none), unfolding(format::specs::Utf8::rows, format::specs::Utf8::first_byte, crate::specs::Scan::tails))]
fn char_len(m: &[u8], i: usize) -> Option<usize>
    requires { (i < length m.now) × (0x80 ≤ get_or m.now i 0) }
    ensures { Scan m.now i [] i result }
{
    match m[i] {
        0xC2..=0xDF => longer(m, i, 0x80, 0xBF, 0),
        0xE0 => longer(m, i, 0xA0, 0xBF, 1),
        0xE1..=0xEC => longer(m, i, 0x80, 0xBF, 1),
        0xED => longer(m, i, 0x80, 0x9F, 1),
        0xEE..=0xEF => longer(m, i, 0x80, 0xBF, 1),
        0xF0 => longer(m, i, 0x90, 0xBF, 2),
        0xF1..=0xF3 => longer(m, i, 0x80, 0xBF, 2),
        0xF4 => longer(m, i, 0x80, 0x8F, 2),
        _ => None,
    }
}

// Whether a character of two bytes stands at i.
fn is_two(m: &[u8], i: usize) -> bool
    requires { i + 2 ≤ length m.now }
    ensures { Two m.now i result }
{
    matches!(m[i], 0xC2..=0xDF) && is_tail(m[i + 1])
}

// Passes characters of two bytes, which come in runs, in steps of 2 as `blocks_end` in those of n.
fn twos_end(m: &[u8], from: usize) -> usize
    requires { from ≤ length m.now }
    ensures { Passed m.now from result }
{
    let mut i = from;
    while 2 <= m.len() - i && is_two(m, i) {
        i += 2;
    }
    i
}

// Whether all of m is UTF-8.
fn is_utf8(m: &[u8]) -> bool
    ensures { result ≡ valid_utf8_seq m.now }
{
    let mut i: usize = 0;
    // By characters of differing lengths, which no `for` steps over.
    while i < m.len() {
        if m[i] < 0x80 {
            i = ascii_end(m, i);
        } else {
            match char_len(m, i) {
                Some(2) => i = twos_end(m, i + 2),
                Some(n) => i += n,
                None => return false,
            }
        }
    }
    true
}

// Whether a part is.
pub fn part_is_utf8(m: &[u8], start: u64, len: u64) -> bool
    requires { start + len ≤ length m.now }
    ensures { result ≡ valid_utf8_seq (bytes_at m.now start len) }
{
    is_utf8(&m[start as usize..(start + len) as usize])
}
