// An authentication record that was read, or its refusal, with a record of 00.
ghost use Rattle.std.specs.Prelude.{◌≡◌};
ghost use Rattle.crossing.specs.Records.{auth_fields};

use super::BafirolenAuth;
use auth::HeaderAuth;
use suites::Suite;
use wire::SuccessfulRead;
use wire::refusals::{NONE, Refusal};

impl From<Result<SuccessfulRead<HeaderAuth>, Refusal>> for BafirolenAuth {
    ghost from_gives = { λ a r. r ≡ auth_fields a };

    fn from(answer: Result<SuccessfulRead<HeaderAuth>, Refusal>) -> BafirolenAuth {
        match answer {
            Ok(SuccessfulRead { value, tail }) => {
                let HeaderAuth { iv, tag } = value;
                BafirolenAuth {
                    number: u64::from(NONE),
                    position: 0,
                    tail,
                    iv,
                    tag,
                }
            }
            // C's record has both by value, read or not.
            Err(q) => BafirolenAuth {
                number: u64::from(q.number),
                position: q.position,
                tail: 0,
                iv: [0; Suite::IV_LEN],
                tag: [0; Suite::TAG_LEN],
            },
        }
    }
}
