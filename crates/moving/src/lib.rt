// Moves of bytes within one lent buffer, and clearing a part of it, by places as in `wire::writing`. Nothing else of the buffer changes.
#![tactic(auto)]

ghost use Rattle.std.specs.Prelude.{◌≡◌, ◌+◌, ◌-◌, ◌≤◌, length};
ghost use Rattle.format.specs.Auth.{zeros};
ghost use Rattle.format.specs.Lent.{bytes_at};
ghost use Rattle.wire.specs.Stored.{stored};

// The two places may overlap: what is stored are the bytes that stood there before.
#[tactic(auto, using(crate::proofs::Laws::moved_is))]
pub fn move_bytes(m: &mut [u8], from: usize, to: usize, len: usize)
    requires { (from + len ≤ length m.old) × (to + len ≤ length m.old) }
    ensures { m.new ≡ stored m.old to (bytes_at m.old from len) }
{
    m.copy_within(from..from + len, to);
}

// Makes the bytes from one place to another 00.
#[tactic(auto, using(crate::proofs::Laws::cleared_is))]
pub fn clear(m: &mut [u8], from: usize, to: usize)
    requires { (from ≤ to) × (to ≤ length m.old) }
    ensures { m.new ≡ stored m.old from (zeros (to - from)) }
{
    m[from..to].fill(0);
}
