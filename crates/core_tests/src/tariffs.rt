//! Steps that are read from a list (`tariff`).

use std::test::Fail;
use tariff::{Step, Steps, StepsFault};

#[test]
fn reads_steps(rt: HostRuntime) -> Result<(), Fail> {
    let list = [
        Step {
            ends: Some(500),
            price: 100,
        },
        Step {
            ends: None,
            price: 200,
        },
    ];
    let read = Steps::read(rt.alloc(), &list)?;
    assert_eq!(rt; read.as_slice(), list.as_slice());
    assert!(rt; read == Steps::of_text(rt.alloc(), b"500:100;:200")?);
    assert!(rt; read == read.clone()?);
    assert!(rt; read != Steps::of_text(rt.alloc(), b"500:100;:201")?);
    assert!(rt; matches!(Steps::read(rt.alloc(), &[]), Err(StepsFault::NoStep)));
    assert!(rt;
        matches!(
            Steps::read(rt.alloc(), &list[..1]),
            Err(StepsFault::EndMissing)
        )
    );
    Ok(())
}

// The greatest count of steps: no contract tells how much memory there is.
#[test]
fn eight_steps(rt: HostRuntime) -> Result<(), Fail> {
    let mut list = [Step {
        ends: None,
        price: 1_000_000,
    }; Steps::MAX];
    for (place, end) in [1, 20, 300, 4_000, 50_000, 600_000, u32::MAX]
        .iter()
        .enumerate()
    {
        list[place] = Step {
            ends: Some(*end),
            price: *end % 1_000 + 1,
        };
    }
    let text = b"1:2;20:21;300:301;4000:1;50000:1;600000:1;4294967295:296;:1000000";
    let read = Steps::read(rt.alloc(), &list)?;
    assert_eq!(rt; read.as_slice(), list.as_slice());
    assert_eq!(rt; read.clone()?.as_slice(), list.as_slice());
    assert_eq!(rt;
        Steps::of_text(rt.alloc(), text)?.as_slice(),
        list.as_slice()
    );
    Ok(())
}
