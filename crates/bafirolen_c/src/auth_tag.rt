// Reading an authentication record: an export of its own, since C has one symbol for each operation.
ghost use Rattle.std.specs.Prelude.{◌≡◌};
ghost use Rattle.format.specs.Read.{operation};
ghost use Rattle.format.specs.Auth.{read_header_auth_tag};
ghost use Rattle.crossing.specs.Records.{auth_record};

use crossing::BafirolenAuth;

#[unsafe(no_mangle)]
pub extern "C" fn bafirolen_read_header_auth_tag(m: &[u8], start: u64, suite: u32) -> BafirolenAuth
    ensures { result ≡ auth_record (operation (read_header_auth_tag suite) m.now start) }
{
    auth::read_header_auth_tag(m, start, suite).into()
}
