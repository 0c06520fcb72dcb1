// Text written piece by piece: words, numbers in base ten, and the line of a rejection, which is returned by value.
#![tactic(auto)]

ghost use Rattle.std.specs.Prelude.{◌≡◌, ◌∷◌, [], ◌≤◌, take, length};
ghost use Rattle.text.specs.Text.{space, decimal, signed_decimal, refused_line, TextRoom, Put, HasRoom, pushed};
ghost use Rattle.text.specs.Text.{text_of};

pub use file_line::LINE_FEED;
use table::Rejection;

// How many bytes a text has: room for every report.
pub const TEXT_SIZE: usize = 256;

// A minus sign and a blank.
const MINUS: u8 = b'-';

const BLANK: u8 = b' ';

// The digit 0, and the base of the numbers.
const DIGIT_ZERO: u8 = b'0';

const TEN: usize = 10;

// The text of a report: `length` bytes, then zeros. Its fields are C's too, which gets them by `flat_text`.
#[derive(Clone, Copy)]
pub struct Text {
    pub bytes: [u8; TEXT_SIZE],
    pub length: usize,
}

// The line of a rejection.
pub fn refused(rejection: Rejection) -> Text
    ensures { result ≡ text_of (refused_line rejection) }
{
    let mut line = [0u8; TEXT_SIZE];
    let length = put_refused(&mut line, rejection);
    Text {
        bytes: line,
        length,
    }
}

impl Text {
    // The text without a byte.
    #[tactic(auto, unfolding(crate::specs::Text::text_of))]
    pub fn new() -> Text
        ensures { result ≡ text_of [] }
    {
        Text {
            bytes: [0; TEXT_SIZE],
            length: 0,
        }
    }

    // The bytes of the text.
    pub fn as_bytes(&self) -> &[u8]
        requires { self.now.length ≤ length self.now.bytes }
        ensures { result.now ≡ take self.now.length self.now.bytes }
    {
        &self.bytes[..self.length]
    }

    // One byte more.
    pub fn push(&mut self, byte: u8)
        requires { HasRoom self.old (byte ∷ []) }
        ensures { self.new ≡ pushed self.old (byte ∷ []) }
    {
        self.length = put_byte(&mut self.bytes, self.length, byte);
    }

    // The bytes of a word.
    pub fn push_bytes(&mut self, word: &[u8])
        requires { HasRoom self.old word.now }
        ensures { self.new ≡ pushed self.old word.now }
    {
        self.length = put_bytes(&mut self.bytes, self.length, word);
    }

    // A blank and a number.
    pub fn push_count(&mut self, n: usize)
        requires { HasRoom self.old (space ∷ decimal n) }
        ensures { self.new ≡ pushed self.old (space ∷ decimal n) }
    {
        self.length = put_count(&mut self.bytes, self.length, n);
    }

    // A blank and a signed value.
    pub fn push_value(&mut self, value: i16)
        requires { HasRoom self.old (space ∷ signed_decimal value) }
        ensures { self.new ≡ pushed self.old (space ∷ signed_decimal value) }
    {
        self.length = put_value(&mut self.bytes, self.length, value);
    }
}

// A rejection's line at the beginning of the text; gives the position after it.
pub fn put_refused(text: &mut [u8], rejection: Rejection) -> usize
    requires { TextRoom 0 (refused_line rejection) text.old }
    ensures { Put 0 (refused_line rejection) text.old result
        text.new }
{
    let number = rejection.number as usize;
    let refused = put_bytes(text, 0, b"refused");
    let numbered = put_count(text, refused, number);
    let placed = put_count(text, numbered, rejection.place);
    put_byte(text, placed, LINE_FEED)
}

// A blank and a signed value; gives the position after them.
pub fn put_value(text: &mut [u8], at: usize, value: i16) -> usize
    requires { TextRoom at (space ∷ signed_decimal value) text.old }
    ensures { Put at (space ∷ signed_decimal value) text.old result text.new }
{
    let next = put_byte(text, at, BLANK);
    let magnitude = value.unsigned_abs() as usize;
    if value < 0 {
        let signed = put_byte(text, next, MINUS);
        return put_number(text, signed, magnitude);
    }
    put_number(text, next, magnitude)
}

// A blank and a number; gives the position after them.
pub fn put_count(text: &mut [u8], at: usize, n: usize) -> usize
    requires { TextRoom at (space ∷ decimal n) text.old }
    ensures { Put at (space ∷ decimal n) text.old result text.new }
{
    let next = put_byte(text, at, BLANK);
    put_number(text, next, n)
}

// The bytes of a word; gives the position after them. A loop, since `copy_from_slice` would call memmove here, and the
// library needs memcpy and memset alone.
pub fn put_bytes(text: &mut [u8], at: usize, word: &[u8]) -> usize
    requires { TextRoom at word.now text.old }
    ensures { Put at word.now text.old result text.new }
{
    for i in 0..word.len() {
        text[at + i] = word[i];
    }
    at + word.len()
}

// A number in base ten; gives the position after it. What `write!` ensures holds where it is `Ok` alone, and nothing
// says that it is.
fn put_number(text: &mut [u8], at: usize, n: usize) -> usize
    requires { TextRoom at (decimal n) text.old }
    ensures { Put at (decimal n) text.old result text.new }
{
    if n < TEN {
        return put_byte(text, at, DIGIT_ZERO + n as u8);
    }
    let next = put_number(text, at, n / TEN);
    put_byte(text, next, DIGIT_ZERO + (n % TEN) as u8)
}

// One byte at a position; gives the position after it.
pub fn put_byte(text: &mut [u8], at: usize, byte: u8) -> usize
    requires { TextRoom at (byte ∷ []) text.old }
    ensures { Put at (byte ∷ []) text.old result text.new }
{
    text[at] = byte;
    at + 1
}
