// A section of pairs or of keys that was read, or frames: how many, and the tail.
ghost use Rattle.std.specs.Prelude.{◌≡◌};
ghost use Rattle.crossing.specs.Records.{section_fields};

use super::BafirolenSection;
use wire::SuccessfulRead;
use wire::refusals::{NONE, Refusal};

impl From<Result<SuccessfulRead<u64>, Refusal>> for BafirolenSection {
    ghost from_gives = { λ a r. r ≡ section_fields a };

    fn from(answer: Result<SuccessfulRead<u64>, Refusal>) -> BafirolenSection {
        match answer {
            Ok(SuccessfulRead { value: count, tail }) => BafirolenSection {
                number: u64::from(NONE),
                position: 0,
                count,
                tail,
            },
            Err(q) => BafirolenSection {
                number: u64::from(q.number),
                position: q.position,
                count: 0,
                tail: 0,
            },
        }
    }
}
