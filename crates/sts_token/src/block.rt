ghost use Rattle.std.specs.Prelude.{◌≡◌, ◌<◌, ◌^◌};
ghost use Rattle.sts_token.specs.Block.{block_of, number_of, payload_of};

use crate::check::check16;
use crate::fields::Fields;

// The block of a token of subclass 0, electricity.
pub(crate) fn block(fields: Fields) -> u64
    ensures { result ≡ block_of 0 fields }
{
    let payload = payload(fields);
    let [_, a, b, c, d, e, f, g] = payload.to_be_bytes();
    payload << 16 | u64::from(check16(&[a, b, c, d, e, f, g]))
}

// What stands before the check, in 44 bits where the subclass is 0.
fn payload(fields: Fields) -> u64
    ensures value { result ≡ payload_of 0 fields }
    ensures bits { result < 2 ^ 44 }
{
    let rnd = u64::from(fields.rnd);
    let tid = u64::from(fields.tid);
    let code = u64::from(fields.amount.code());
    rnd << 40 | tid << 16 | code
}

// The number that a token writes for a transformed block.
pub(crate) fn number(block: u64) -> u128
    ensures value { result ≡ number_of block }
    ensures bits { result < 2 ^ 66 }
{
    let moved = u128::from(block >> 27 & 3);
    let kept = u128::from(block >> 29) << 29 | u128::from(block & 0x7FF_FFFF);
    moved << 64 | kept
}
