// Which declarations the archive was made for. A host compares this with the number in the C header that it was compiled with.
ghost use Rattle.std.specs.Prelude.{◌≡◌};

#[unsafe(no_mangle)]
pub extern "C" fn bafirolen_version() -> u32
    ensures { result ≡ 11 }
{
    11
}
