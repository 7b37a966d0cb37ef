ghost use Rattle.std.specs.Prelude.{◌≡◌, ◌^◌, ◌<◌, ◌≤◌, length, IfSome};
ghost use Rattle.line_fields.specs.Numerals.{digits_from, number_of, signed_of};

const MOST_DIGITS: usize = 7;

/// One to seven decimal digits without a needless leading zero.
pub fn number(text: &[u8]) -> Option<u32>
    ensures value { result ≡ number_of text.now }
    ensures bound { IfSome result (λ n. n < 10 ^ 7) }
{
    match text {
        [] | [b'0', _, ..] => None,
        _ if text.len() > MOST_DIGITS => None,
        _ => digits(text),
    }
}

/// A number, with one minus before it or none; minus nothing is none.
pub fn signed(text: &[u8]) -> Option<i32>
    ensures { result ≡ signed_of text.now }
{
    match text {
        [b'-', size @ ..] => match number(size)? {
            0 => None,
            size => Some(-(size as i32)),
        },
        _ => Some(number(text)? as i32),
    }
}

// The digits read from the left.
fn digits(text: &[u8]) -> Option<u32>
    requires { length text.now ≤ 7 }
    ensures value { result ≡ digits_from 0 text.now }
    ensures bound { IfSome result (λ n. n < 10 ^ 7) }
{
    // No `try_fold`: that the value stays small goes by how many digits were read, which its closure does not see.
    let mut value: u32 = 0;
    for byte in text {
        if !byte.is_ascii_digit() {
            return None;
        }
        value = value * 10 + u32::from(*byte - b'0');
    }
    Some(value)
}
