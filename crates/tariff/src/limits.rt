ghost use Rattle.std.specs.Prelude.{◌≡◌, ◌^◌};
ghost use Rattle.tariff.specs.Cost.{greatest_prior};

use crate::cost::MAX_PRIOR;
use crate::steps::Steps;
use crate::tender::Tender;

/// The constants of tariffs have these values.
pub fn limits_law()
    ensures most_steps { Steps.MAX ≡ 8 }
    ensures greatest_tender { Tender.MAX_CENTS ≡ 10 ^ 8 }
    ensures greatest_prior { MAX_PRIOR ≡ greatest_prior }
{}
