// What was written or copied, or what a write takes.
ghost use Rattle.std.specs.Prelude.{◌≡◌};
ghost use Rattle.crossing.specs.Records.{write_fields};

use super::BafirolenWritten;
use wire::refusals::{NONE, Refusal};

impl From<Result<usize, Refusal>> for BafirolenWritten {
    ghost from_gives = { λ a r. r ≡ write_fields a };

    fn from(answer: Result<usize, Refusal>) -> BafirolenWritten {
        match answer {
            Ok(length) => BafirolenWritten {
                number: u64::from(NONE),
                position: 0,
                length: length as u64,
            },
            Err(q) => BafirolenWritten {
                number: u64::from(q.number),
                position: q.position,
                length: 0,
            },
        }
    }
}
