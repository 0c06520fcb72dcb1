// The numbers of a call.
ghost use Rattle.cases_calls.specs.Sizes.{IsPrefixLen};

const BLANK: u8 = b' ';

// A number keeps its last seven digits when one more is added.
const SEVEN_DIGITS: u32 = 10000000;

// The numbers of a call, each in base ten after a blank, as far as there is room for them; how many there are. The
// digits of numbers without room go on with the last one.
pub fn read_numbers(call: &[u8], numbers: &mut [u32]) -> usize
    ensures { IsPrefixLen result numbers.new }
{
    let words = call
        .splitn(numbers.len() + 1, |byte| *byte == BLANK)
        .skip(1);
    for (number, word) in numbers.iter_mut().zip(words) {
        *number = word.iter().fold(0, |number, byte| longer(number, *byte));
    }
    let blanks = call.iter().filter(|byte| **byte == BLANK).count();
    blanks.min(numbers.len())
}

// The number with one digit more; of a longer one the last eight digits stay. A byte that is no digit adds nothing.
fn longer(number: u32, byte: u8) -> u32 {
    match byte {
        b'0'..=b'9' => number % SEVEN_DIGITS * 10 + u32::from(byte - b'0'),
        _ => number,
    }
}
