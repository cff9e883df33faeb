//! An office under a transform of the caller's own.
ghost use Rattle.std.specs.Prelude.{◌-◌};
ghost use Rattle.std.proofs.Common.{arith};

use office_lines::plain::{answer, ask_all};
use std::test::Fail;
use sts_token::{BlockTransform, Plain};
use vend_core::Lists;

// The transform that turns over each bit of a block.
#[derive(Clone, Copy, Debug)]
struct Turned;

impl BlockTransform for Turned {
    ghost forwards = { λ _ _ block. 18446744073709551615 - block };

    ghost inverses = { λ _ _ block. 18446744073709551615 - block };

    fn forward(&self, _key: u64, block: u64) -> u64 {
        u64::MAX - block
    }

    fn inverse(&self, _key: u64, block: u64) -> u64 {
        u64::MAX - block
    }

    ghost forward_range = { λ t key block k b. Prim.omega arith };

    ghost inverse_range = { λ t key block k b. Prim.omega arith };

    ghost inverse_undoes = { λ t key block k b. Prim.omega arith };

    ghost forward_undoes = { λ t key block k b. Prim.omega arith };
}

const FIRST_LIFE: &str = "\
1388534430 add-tariff flat :100
1388534430 add-meter 12345678903 2014 flat 0000000000000000
1388534430 open-shift ann
1388534430 sell ann A-1 12345678903 10";

// The first sale keeps its token, and the second has that of the other transform.
#[test]
fn lives_under_two_transforms(rt: HostRuntime) -> Result<(), Fail> {
    let alloc = rt.alloc();
    let mut lists = Lists::new(alloc, Plain);
    ask_all(alloc, &mut lists, FIRST_LIFE)?;
    let mut lists = lists.with_transform(Turned);
    let rows = [
        (
            "1388534430 sell ann A-1 12345678903 10",
            "sold 1 1388534430 1 ann A-1 12345678903 2014 2 1 1 10 10 00072057602627981690",
        ),
        (
            "1388534430 sell ann A-2 12345678903 10",
            "sold 2 1388534430 1 ann A-2 12345678903 2014 3 2 1 10 10 73642861093474721236",
        ),
        (
            "1388534430 reprint 2",
            "reprinted 2 1388534430 1 ann A-2 12345678903 2014 3 2 1 10 10 73642861093474721236",
        ),
        (
            "1388534430 report 1",
            "report 1 ann 1388534430 - 2 2 20 1,2",
        ),
    ];
    for (line, wanted) in rows {
        let reply = answer(alloc, &mut lists, line)?;
        assert_eq!(rt; reply.as_str(), wanted);
    }
    Ok(())
}
