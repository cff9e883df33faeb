ghost use Rattle.std.specs.Prelude.{◌≡◌, pos};
ghost use Rattle.sts_fields.specs.Amount.{greatest_amount};
ghost use Rattle.sts_fields.specs.Day.{last_day};
ghost use Rattle.sts_fields.specs.Moment.{first_moment, last_moment};
ghost use Rattle.sts_fields.specs.Tid.{last_tid};

use crate::amount::Amount;
use crate::day::Day;
use crate::moment::Moment;
use crate::tid::LAST_TID;

/// The constants of these fields are the limits that their contracts speak of.
pub fn limits_law()
    ensures first_moment { Moment.FIRST ≡ pos first_moment }
    ensures last_moment { Moment.LAST ≡ pos last_moment }
    ensures last_day { Day.LAST ≡ last_day }
    ensures last_tid { LAST_TID ≡ last_tid }
    ensures greatest_amount { Amount.MAX_TENTHS ≡ greatest_amount }
{}
