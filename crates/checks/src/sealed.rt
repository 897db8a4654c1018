// What stands beside sealed bytes: an IV and a tag, in an authentication record and in a frame.
ghost use Rattle.std.specs.Prelude.{◌≡◌};
ghost use Rattle.format.specs.Checks.{first, sealed_checks};
ghost use Rattle.checks.specs.Answers.{checked};

use suites::Suite;
use wire::refusals::{Reason, Refusal};

// 19; 30.
pub fn check_sealed(iv: usize, tag: usize) -> Result<(), Refusal>
    ensures { result ≡ checked (first (sealed_checks iv tag)) }
{
    if iv != Suite::IV_LEN {
        return Err(Reason::IvLength.into());
    }
    if tag != Suite::TAG_LEN {
        return Err(Reason::TagLength.into());
    }
    Ok(())
}
