// Equality and order of byte strings, and of parts of messages.
#![tactic(auto)]

ghost use Rattle.std.specs.Prelude.{◌≡◌, ◌+◌, ◌≤◌, length};
ghost use Rattle.format.specs.Serialize.{same_bytes};
ghost use Rattle.format.specs.Lent.{bytes_at};
ghost use Rattle.comparing.specs.Order.{compare_bytes};

use std::cmp::Ordering;

#[tactic(auto, using(crate::proofs::Ordered::same_as))]
pub fn same(a: &[u8], b: &[u8]) -> bool
    ensures { result ≡ same_bytes a.now b.now }
{
    a == b
}

// By the first byte that differs, and one that begins another comes before it.
#[tactic(auto, using(crate::proofs::Ordered::compare_as))]
pub fn compare(a: &[u8], b: &[u8]) -> Ordering
    ensures { result ≡ compare_bytes a.now b.now }
{
    a.cmp(b)
}

fn part(m: &[u8], start: u64, len: u64) -> &[u8]
    requires { start + len ≤ length m.now }
    ensures { result.now ≡ bytes_at m.now start len }
{
    &m[start as usize..(start + len) as usize]
}

// Two parts of one message, by the four numbers that C passes.
pub fn same_parts(m: &[u8], a: u64, alen: u64, b: u64, blen: u64) -> bool
    requires { (a + alen ≤ length m.now) × (b + blen ≤ length m.now) }
    ensures { result ≡ same_bytes (bytes_at m.now a alen) (bytes_at m.now b blen) }
{
    same(part(m, a, alen), part(m, b, blen))
}

pub fn compare_parts(m: &[u8], a: u64, alen: u64, b: u64, blen: u64) -> Ordering
    requires { (a + alen ≤ length m.now) × (b + blen ≤ length m.now) }
    ensures { result ≡ compare_bytes (bytes_at m.now a alen) (bytes_at m.now b blen) }
{
    compare(part(m, a, alen), part(m, b, blen))
}
