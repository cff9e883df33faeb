ghost use Rattle.std.specs.Prelude.{◌≡◌, ◌<◌, take};
ghost use Rattle.std.specs.List.{fold};
ghost use Rattle.sts_token.specs.Check.{bits_of, check_of, check_step};

// What four steps over bits of 0 make of each nibble.
const AFTER_FOUR: [u16; 16] = [
    0x0000, 0xCC01, 0xD801, 0x1400, 0xF001, 0x3C00, 0x2800, 0xE401, 0xA001, 0x6C00, 0x7800, 0xB401,
    0x5000, 0x9C01, 0x8801, 0x4400,
];

/// The check of seven bytes, the highest of a token's first (`docs/PROFILE.md`, "Check").
pub fn check16(bytes: &[u8; 7]) -> u16
    ensures { result ≡ check_of bytes.now }
{
    let mut check = 0xFFFF;
    for byte in bytes {
        check = after_byte(check, *byte);
    }
    check
}

// The check after one more byte, whose low nibble comes first.
fn after_byte(check: u16, byte: u8) -> u16
    ensures { result ≡ fold check_step check (bits_of byte) }
{
    let low = after_nibble(check, byte & 0xF);
    after_nibble(low, byte >> 4)
}

// The check after four more bits, which are taken all at once.
fn after_nibble(check: u16, nibble: u8) -> u16
    requires { nibble < 16 }
    ensures { result ≡ fold check_step check (take 4 (bits_of nibble)) }
{
    let mixed = check ^ u16::from(nibble);
    (check >> 4) ^ AFTER_FOUR[usize::from(mixed & 0xF)]
}
