ghost use Rattle.std.specs.Prelude.{◌≡◌};
ghost use Rattle.format.specs.Shared.{by};

// What the version decides: a in version 1, b in version 2.
pub(crate) fn by(version: u32, a: usize, b: usize) -> usize
    ensures { result ≡ by version a b }
{
    if version == 1 {
        return a;
    }
    b
}
