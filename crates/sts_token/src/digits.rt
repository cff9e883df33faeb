ghost use Rattle.std.specs.Prelude.{◌≡◌, ◌≤◌};
ghost use Rattle.std.specs.Char.{digit_char};
ghost use Rattle.sts_token.specs.Digits.{digits_text};

// The last N digits of a number.
pub(crate) fn digits<const N: usize>(base: u8, number: u128) -> [u8; N]
    requires from_binary { 2 ≤ base }
    requires to_hexadecimal { base ≤ 16 }
    ensures { result ≡ digits_text base N number }
{
    let mut text = [b'0'; N];
    let mut rest = number;
    for written in 0..N {
        text[N - 1 - written] = digit((rest % u128::from(base)) as u8);
        rest /= u128::from(base);
    }
    text
}

// The digit that stands for a value, in lower case.
fn digit(value: u8) -> u8
    requires { value ≤ 15 }
    ensures { result ≡ digit_char value }
{
    if value < 10 {
        b'0' + value
    } else {
        b'a' + (value - 10)
    }
}
