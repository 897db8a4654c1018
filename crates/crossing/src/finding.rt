// Where a value stands.
ghost use Rattle.std.specs.Prelude.{◌≡◌};
ghost use Rattle.crossing.specs.Records.{found_fields};

use super::BafirolenPlace;
use context::Place;
use wire::refusals::{NONE, Refusal};

impl From<Result<Place, Refusal>> for BafirolenPlace {
    ghost from_gives = { λ a r. r ≡ found_fields a };

    fn from(answer: Result<Place, Refusal>) -> BafirolenPlace {
        match answer {
            Ok(Place { start, len }) => BafirolenPlace {
                number: u64::from(NONE),
                position: 0,
                start,
                len,
            },
            Err(q) => BafirolenPlace {
                number: u64::from(q.number),
                position: q.position,
                start: 0,
                len: 0,
            },
        }
    }
}
