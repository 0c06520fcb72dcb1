// The number of a hexadecimal digit.
#![tactic(auto)]

ghost use Rattle.std.specs.Prelude.{◌≡◌, ◌*◌, ◌<◌, ◌≤◌, min};
ghost use Rattle.file_hex.specs.Digit.{is_lowercase, no_digit, digit_of};
ghost use Rattle.file_hex.specs.Engine.Kinds.{one_from, one_within};

// How many digits there are.
pub const BASE: u8 = 16;

// What a byte that is no digit gives, and the offset from a letter's low four bits to its number.
const NO_DIGIT: u8 = 16;

const LETTER_MORE: u8 = 9;

// The bit that a lowercase letter has and its capital has not.
const CASE: u8 = b'a' - b'A';

// `byte / 2` is below this.
const HALVES: u8 = 128;

// The number of a hexadecimal digit in either letter case, 0 to 15; NO_DIGIT for any other byte. It is arithmetic on
// the byte.
pub fn digit(byte: u8) -> u8
    ensures { result ≡ digit_of byte }
{
    let number = digit_or_more(byte);
    number - number / NO_DIGIT * (number % NO_DIGIT)
}

// The same, with any number from NO_DIGIT on for a byte that is no digit. A figure's number is its low four bits, a
// letter's is LETTER_MORE more, and all other bytes get NO_DIGIT more. No sum goes past a byte and no two numbers of
// the byte are multiplied, so that the compiler reads many digits in one register.
pub fn digit_or_more(byte: u8) -> u8
    ensures { (min result no_digit ≡ digit_of byte) × (result < 2 * no_digit) }
{
    let figure = one_within(b'0', b'9', byte);
    let letter = one_within(b'A', b'F', byte - byte / CASE % 2 * CASE);
    let less = NO_DIGIT * figure + (NO_DIGIT - LETTER_MORE) * letter;
    byte % BASE + (NO_DIGIT - less)
}

// 1 if the byte is one of those from the first to the last, else 0.
fn one_within(first: u8, last: u8, byte: u8) -> u8
    requires { (0 < first) × (first ≤ last) × (last < 255) }
    ensures { result ≡ one_within first last byte }
{
    one_from(first, byte) - one_from(last + 1, byte)
}

// 1 from the byte `first` on, else 0. The quotient is 1 exactly if half the byte reaches half of `first`; both halves
// are rounded up if `first` is odd, and down if not.
fn one_from(first: u8, byte: u8) -> u8
    requires { 0 < first }
    ensures { result ≡ one_from first byte }
{
    let odd = first % 2;
    (byte / 2 + byte % 2 * odd + (HALVES - (first / 2 + odd))) / HALVES
}

// Is the byte a letter from a to f?
pub fn is_lowercase(byte: u8) -> bool
    ensures { result ≡ is_lowercase byte }
{
    matches!(byte, b'a'..=b'f')
}
