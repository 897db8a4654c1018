// The sections on their own, and the frames. C has no `Option`: `hasMax` says whether there is a maximum.
ghost use Rattle.std.specs.Prelude.{length};
ghost use Rattle.format.specs.Read.{operation};
ghost use Rattle.format.specs.Context.{read_aad_section_into};
ghost use Rattle.format.specs.Keys.{read_encrypted_data_keys_section_into};
ghost use Rattle.format.specs.Frames.{read_frames_into};
ghost use Rattle.format.specs.Lent.{pair_numbers, key_numbers, frame_numbers};
ghost use Rattle.request.specs.Codes.{mode_of, max_of};
ghost use Rattle.entries.specs.Codes.{Reads};
ghost use Rattle.crossing.specs.Asked.{mode_asked, max_asked};
ghost use Rattle.crossing.specs.Records.{section_record};

use crossing::BafirolenSection;
use crossing::asked::request_asked;

// Mode 0: tolerant; any other: strict. The places of the pairs go into the table, four numbers a pair; on a refusal it keeps.
#[unsafe(no_mangle)]
pub extern "C" fn bafirolen_read_aad_section(
    m: &[u8],
    start: u64,
    mode: u32,
    table: &mut [u32],
) -> BafirolenSection
    ensures { Reads section_record pair_numbers (operation (read_aad_section_into (mode_of (mode_asked mode)) (length table.old)) m.now start) table.old table.new result }
{
    context::read_aad_section(m, start, request_asked(0, mode, 0, 0, 0), table).into()
}

// hasMax 0: no maximum; any other: at most `max` keys. The places of the keys go into the table, six numbers a key; on a refusal
// it keeps.
#[unsafe(no_mangle)]
pub extern "C" fn bafirolen_read_encrypted_data_keys_section(
    m: &[u8],
    start: u64,
    hasMax: u32,
    max: u64,
    table: &mut [u32],
) -> BafirolenSection
    ensures { Reads section_record key_numbers (operation (read_encrypted_data_keys_section_into (max_of (max_asked hasMax max)) (length table.old)) m.now start) table.old table.new result }
{
    keys::read_encrypted_data_keys_section(
        m,
        start,
        request_asked(0, 0, hasMax, max, 0),
        table,
    ).into()
}

// The places of the frames go into the table, six numbers a frame; on a refusal it keeps.
#[unsafe(no_mangle)]
pub extern "C" fn bafirolen_read_frames(
    m: &[u8],
    start: u64,
    frameLength: u32,
    table: &mut [u32],
) -> BafirolenSection
    ensures { Reads section_record frame_numbers (operation (read_frames_into frameLength (length table.old)) m.now start) table.old table.new result }
{
    frames::read_frames(m, start, frameLength, table).into()
}
