// A body that was read, or its refusal.
ghost use Rattle.std.specs.Prelude.{◌≡◌};
ghost use Rattle.crossing.specs.Records.{body_fields};

use super::BafirolenBody;
use body_reader::HeaderBody;
use fields::BodyNumbers;
use wire::SuccessfulRead;
use wire::refusals::{NONE, Refusal};

const NO_NUMBERS: BodyNumbers = BodyNumbers {
    version: 0,
    messageType: 0,
    suite: 0,
    contentType: 0,
    headerIvLength: 0,
    frameLength: 0,
    form: fields::TODAY,
};

impl From<Result<SuccessfulRead<HeaderBody>, Refusal>> for BafirolenBody {
    ghost from_gives = { λ a r. r ≡ body_fields a };

    fn from(answer: Result<SuccessfulRead<HeaderBody>, Refusal>) -> BafirolenBody {
        match answer {
            Ok(SuccessfulRead { value: body, tail }) => BafirolenBody {
                number: u64::from(NONE),
                position: 0,
                numbers: body.numbers,
                messageIdStart: body.messageIdStart,
                messageIdLen: body.messageIdLen,
                pairCount: body.pairCount,
                keyCount: body.keyCount,
                suiteDataStart: body.suiteDataStart,
                suiteDataLen: body.suiteDataLen,
                tail,
            },
            Err(q) => BafirolenBody {
                number: u64::from(q.number),
                position: q.position,
                numbers: NO_NUMBERS,
                messageIdStart: 0,
                messageIdLen: 0,
                pairCount: 0,
                keyCount: 0,
                suiteDataStart: 0,
                suiteDataLen: 0,
                tail: 0,
            },
        }
    }
}
