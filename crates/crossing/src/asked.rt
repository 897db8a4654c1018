// A request in numbers, as C has it. Every number asks for something. These are functions and not `From<u32>`, which would have to stand with
// the types, in `request`, that knows of no host.
ghost use Rattle.std.specs.Prelude.{◌≡◌};
ghost use Rattle.crossing.specs.Asked.{which_asked, mode_asked, max_asked, policy_asked, request_asked};

use request::{Mode, Policy, Request, Which};

// 1: version 1 only; 2: version 2 only; any other: either version, whose reader alone tests the frame length.
fn which_asked(which: u32) -> Which
    ensures { result ≡ which_asked which }
{
    match which {
        1 => Which::V1Only,
        2 => Which::V2Only,
        _ => Which::Either,
    }
}

// 0: tolerant; any other: strict, the stricter reading for a number that names no mode.
fn mode_asked(mode: u32) -> Mode
    ensures { result ≡ mode_asked mode }
{
    match mode {
        0 => Mode::Tolerant,
        _ => Mode::Strict,
    }
}

// 0: no maximum; any other: at most `max` keys. C has no `Option`.
fn max_asked(hasMax: u32, max: u64) -> Option<u64>
    ensures { result ≡ max_asked hasMax max }
{
    (hasMax != 0).then_some(max)
}

// 0: none; 1: FORBID_ENCRYPT_ALLOW_DECRYPT; 2: REQUIRE_ENCRYPT_ALLOW_DECRYPT; any other: REQUIRE_ENCRYPT_REQUIRE_DECRYPT, under which least is
// read, for a number that names no policy.
pub fn policy_asked(policy: u32) -> Policy
    ensures { result ≡ policy_asked policy }
{
    match policy {
        0 => Policy::None,
        1 => Policy::ForbidEncryptAllowDecrypt,
        2 => Policy::RequireEncryptAllowDecrypt,
        _ => Policy::RequireEncryptRequireDecrypt,
    }
}

pub fn request_asked(which: u32, mode: u32, hasMax: u32, max: u64, policy: u32) -> Request
    ensures { result ≡ request_asked which mode hasMax max policy }
{
    Request {
        which: which_asked(which),
        policy: policy_asked(policy),
        mode: mode_asked(mode),
        max: max_asked(hasMax, max),
    }
}
