// Finding a value, and copying it.
ghost use Rattle.std.specs.Prelude.{◌≡◌, ◌≤◌, length};
ghost use Rattle.format.specs.Read.{operation};
ghost use Rattle.format.specs.Context.{find_value};
ghost use Rattle.format.specs.Lent.{filled};
ghost use Rattle.crossing.specs.Records.{place_record};
ghost use Rattle.bafirolen_c.specs.Exports.{Copies, CopiesValue};

use crossing::{BafirolenPlace, BafirolenWritten};
use wire::refusals::{Reason, Refusal};
use wire::writing::write;

// Where the value of the key stands, in the context section at the start, read tolerantly.
#[unsafe(no_mangle)]
pub extern "C" fn bafirolen_find_value(m: &[u8], start: u64, key: &[u8]) -> BafirolenPlace
    ensures { result ≡ place_record (operation (find_value key.now) m.now start) }
{
    context::find_value(m, start, key).into()
}

// Not `copy_from_slice`, as in `wire::writing`.
#[tactic(auto, using(crate::proofs::Filling::filled_whole))]
fn fill(value: &[u8], out: &mut [u8])
    requires { length value.now ≤ length out.old }
    ensures { out.new ≡ filled value.now out.old }
{
    write(value, 0, value.len(), out, 0);
}

// An empty part is an empty value or a refusal, which only the answer of find tells.
fn copy_value(m: &[u8], start: u64, key: &[u8], out: &mut [u8]) -> Result<usize, Refusal>
    ensures { CopiesValue (operation (find_value key.now) m.now start) out.old out.new result }
{
    let value = context::find_part(m, start, key);
    let n = value.len();
    if n == 0 {
        context::find_value(m, start, key)?;
    }
    if out.len() < n {
        return Err(Reason::OutputTooShort.into());
    }
    fill(value, out);
    Ok(n)
}

// Copies the value that `bafirolen_find_value` finds.
#[unsafe(no_mangle)]
pub extern "C" fn bafirolen_copy_value(
    m: &[u8],
    start: u64,
    key: &[u8],
    out: &mut [u8],
) -> BafirolenWritten
    ensures { Copies (operation (find_value key.now) m.now start) out.old out.new result }
{
    copy_value(m, start, key, out).into()
}
