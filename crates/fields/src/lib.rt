// The numbers among a header body's fields, and the mark beside them, which a reader gives and a writer takes; and the tests that both
// make of them.
#![tactic(auto)]

ghost use Rattle.std.specs.Prelude.{◌≡◌};
ghost use Rattle.fields.specs.Codes.{form_named};
ghost use Rattle.format.specs.Shared.{one_or_two, frame_fits};

// Each has the 32 bits of the frame length, so that no refusal has to speak of a longer one; and the others, which are stored in
// fewer, are tested as a host hands them over: 257 is no version, and is not cut to 1. A host's record is this one.
#[repr(C)]
#[derive(Clone, Copy)]
pub struct BodyNumbers {
    pub version: u32,
    pub messageType: u32,
    pub suite: u32,
    pub contentType: u32,
    pub headerIvLength: u32,
    pub frameLength: u32,
    pub form: u32,
}

// The mark: the form that a body was read in and is written in. It shows in an empty context only, 00 00 today and 00 02 00 00 in the
// old form.
#[derive(Clone, Copy)]
pub enum Form {
    Today,
    Old,
}

// Its numbers in the record that C gets, and that `body_reader` and `body_write` share.
pub const TODAY: u32 = 0;

pub const OLD: u32 = 1;

// A number that names no form stands for the old one, the stricter mark, since it alone can be refused.
impl From<u32> for Form {
    ghost from_gives = { λ n form. form ≡ form_named n };

    fn from(number: u32) -> Form {
        match number {
            TODAY => Form::Today,
            _ => Form::Old,
        }
    }
}

// The versions, and the content types.
pub fn is_one_or_two(x: u32) -> bool
    ensures { result ≡ one_or_two x }
{
    matches!(x, 1 | 2)
}

// Framed content needs a frame length above 0, non-framed content needs 0.
pub fn frame_fits(contentType: u32, frameLength: u32) -> bool
    ensures { result ≡ frame_fits contentType frameLength }
{
    match contentType {
        1 => frameLength == 0,
        2 => frameLength != 0,
        _ => false,
    }
}
