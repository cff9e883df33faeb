//! The check of a token by a table, against the check by bits (`sts_token`).

use sts_token::check16;

#[test]
fn checks(rt: HostRuntime) {
    let mut drawn = 1;
    for _ in 0..20_000u32 {
        drawn = draw(drawn);
        let [_, a, b, c, d, e, f, g] = drawn.to_be_bytes();
        let bytes = [a, b, c, d, e, f, g];
        assert_eq!(rt; check16(&bytes), check_by_bits(&bytes), "{bytes:?}");
    }
}

// The check as it was first written, without a table: a byte is mixed in, and shifted out bit by
// bit.
fn check_by_bits(bytes: &[u8; 7]) -> u16 {
    let mut check = 0xFFFF;
    for byte in bytes {
        check = after_byte(check, *byte);
    }
    check
}

fn after_byte(check: u16, byte: u8) -> u16 {
    let mut mixed = check ^ u16::from(byte);
    for _ in 0..8u32 {
        mixed = shifted(mixed);
    }
    mixed
}

fn shifted(mixed: u16) -> u16 {
    if mixed & 1 == 1 {
        (mixed >> 1) ^ 0xA001
    } else {
        mixed >> 1
    }
}

// The next of numbers that look drawn, and are the same in each run (xorshift).
pub(crate) fn draw(last: u64) -> u64 {
    let left = last ^ (last << 13);
    let right = left ^ (left >> 7);
    right ^ (right << 17)
}
