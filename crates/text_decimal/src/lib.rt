#![tactic(auto)]
// Decimal text: a number right-justified with spaces in any number of bytes.
ghost use Rattle.std.specs.Prelude.{◌≡◌, ◌+◌, ◌%◌, ◌<◌, length};
ghost use Rattle.text_decimal.specs.Decimal.{digit_left, justified, spaces};

// The last digit of a number.
fn digit(n: u32) -> u8
    ensures { result ≡ 48 + n % 10 }
{
    b'0' + (n % 10) as u8
}

// The last digit of what is left of a number, or a space if nothing is.
fn digit_left(n: u32) -> u8
    ensures { result ≡ digit_left n }
{
    if n == 0 { b' ' } else { digit(n) }
}

// A number, right-justified in all the bytes.
pub fn put_number(bytes: &mut [u8], n: u32)
    requires { 0 < length bytes.old }
    ensures { bytes.new ≡ justified (length bytes.old) n }
{
    let last = bytes.len() - 1;
    let mut rest = n / 10;
    bytes[last] = digit(n);
    for i in (0..last).rev() {
        bytes[i] = digit_left(rest);
        rest /= 10;
    }
}

// Spaces in all the bytes.
pub fn put_spaces(bytes: &mut [u8])
    ensures { bytes.new ≡ spaces (length bytes.old) }
{
    bytes.fill(b' ');
}
