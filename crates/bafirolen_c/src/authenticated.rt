// The bytes of the pairs that are only authenticated.
ghost use Rattle.std.specs.Prelude.{length};
ghost use Rattle.format.specs.Read.{operation};
ghost use Rattle.format.specs.OnlyAuthenticated.{write_only_authenticated};
ghost use Rattle.entries.specs.Codes.{Reads};
ghost use Rattle.checks.specs.Answers.{whole};
ghost use Rattle.crossing.specs.Records.{image_record};

use crossing::BafirolenWritten;

// Two numbers a required key in the table, places of the text. On a refusal the output is as it was.
#[unsafe(no_mangle)]
pub extern "C" fn bafirolen_write_only_authenticated(
    m: &[u8],
    start: u64,
    text: &[u8],
    required: &[u32],
    out: &mut [u8],
) -> BafirolenWritten
    ensures { Reads image_record whole (operation (write_only_authenticated text.now required.now (length out.old)) m.now start) out.old out.new result }
{
    only_authenticated::write_only_authenticated(m, start, text, required, out).into()
}
