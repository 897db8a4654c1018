// What a reading is asked for, beside the message and the start; and the policy, which a body's writer is handed too.
#![tactic(auto)]

ghost use Rattle.std.specs.Prelude.{◌≡◌};
ghost use Rattle.format.specs.Policies.{lets_write, lets_read};
ghost use Rattle.request.specs.Codes.{policy_of};

// Whether an empty context in its old form, 00 02 00 00, is accepted.
#[derive(Clone, Copy, Default)]
pub enum Mode {
    #[default]
    Tolerant,
    Strict,
}

// Which version a body reader accepts.
#[derive(Clone, Copy, Default)]
pub enum Which {
    #[default]
    Either,
    V1Only,
    V2Only,
}

// The SDK's commitment policies, by their names there.
#[derive(Clone, Copy, Default)]
pub enum Policy {
    #[default]
    None,
    ForbidEncryptAllowDecrypt,
    RequireEncryptAllowDecrypt,
    RequireEncryptRequireDecrypt,
}

// By default a body of either version is read, tolerantly, with any number of keys and no policy.
#[derive(Clone, Copy, Default)]
pub struct Request {
    pub which: Which,
    pub policy: Policy,
    pub mode: Mode,
    // At most so many keys; or any number.
    pub max: Option<u64>,
}

impl Policy {
    // Whether it lets the version be written.
    pub fn lets_write(self, version: u32) -> bool
        ensures { result ≡ lets_write (policy_of self) version }
    {
        match self {
            Policy::None => true,
            Policy::ForbidEncryptAllowDecrypt => version == 1,
            Policy::RequireEncryptAllowDecrypt => version == 2,
            Policy::RequireEncryptRequireDecrypt => version == 2,
        }
    }

    // Whether it lets the version be read.
    pub fn lets_read(self, version: u32) -> bool
        ensures { result ≡ lets_read (policy_of self) version }
    {
        match self {
            Policy::None => true,
            Policy::ForbidEncryptAllowDecrypt => true,
            Policy::RequireEncryptAllowDecrypt => true,
            Policy::RequireEncryptRequireDecrypt => version == 2,
        }
    }
}
