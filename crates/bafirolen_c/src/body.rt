// Reading a body. C has no `Option`: `hasMax` says whether there is a maximum.
ghost use Rattle.std.specs.Prelude.{length};
ghost use Rattle.format.specs.Read.{operation};
ghost use Rattle.format.specs.Body.{read_header_body};
ghost use Rattle.request.specs.Codes.{which_of, mode_of, max_of};
ghost use Rattle.crossing.specs.Asked.{which_asked, mode_asked, max_asked};
ghost use Rattle.bafirolen_c.specs.Exports.{ReadsBody};

use crossing::BafirolenBody;
use crossing::asked::request_asked;

// which 1: version 1 only; 2: version 2 only; any other: either version. Mode and maximum as for the sections; no policy. The places of the
// pairs and keys go into the tables, four numbers a pair and six a key; on a refusal both keep.
#[unsafe(no_mangle)]
pub extern "C" fn bafirolen_read_header_body(
    m: &[u8],
    start: u64,
    which: u32,
    mode: u32,
    hasMax: u32,
    max: u64,
    pairs: &mut [u32],
    keys: &mut [u32],
) -> BafirolenBody
    ensures { ReadsBody (operation (read_header_body (which_of (which_asked which)) (mode_of (mode_asked mode)) (max_of (max_asked hasMax max)) (length pairs.old) (length keys.old)) m.now start) pairs.old pairs.new keys.old keys.new result }
{
    let request = request_asked(which, mode, hasMax, max, 0);
    body_reader::read_header_body(m, start, request, pairs, keys).into()
}
