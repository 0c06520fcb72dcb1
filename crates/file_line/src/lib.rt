// One line of a file: its twelve digits, its frame, and the position past it.
#![tactic(auto)]

ghost use Rattle.std.specs.Prelude.{◌≡◌, ◌+◌, ◌≤◌, length, drop};
ghost use Rattle.table.specs.Frame.{frame_size};
ghost use Rattle.file_line.specs.Line.{line_digits, all_digits, has_lowercase, bytes_of};
ghost use Rattle.file_line.specs.Line.{closed, is_line_at, bytes_at, line_at};
ghost use Rattle.file_line.specs.Engine.Numbered.{digits_at_once, Numbered};
ghost use Rattle.file_line.specs.Engine.Stored.{Stored};

use file_hex::{BASE, digit_or_more, is_lowercase};
use table::FRAME_SIZE;

// The digits of a line, and the byte that closes it.
pub const LINE_DIGITS: usize = 12;

pub const LINE_FEED: u8 = 10;

// The bytes of a line with its line feed.
pub const LINE_SIZE: usize = LINE_DIGITS + 1;

// How many digits are read at once: a line's, padded to a power of two, so that the compiler reads them in one
// register.
const ABREAST: usize = 16;

// A node's six bytes (01: a frame).
#[derive(Clone, Copy)]
pub struct Frame {
    pub bytes: [u8; FRAME_SIZE],
}

// A position in a file (01: the reading position).
#[derive(Clone, Copy)]
pub struct Cursor {
    pub at: usize,
}

impl Cursor {
    // Reads the line at the position: twelve digits, and then a line feed or the end of the file. Gives its frame with
    // the position past it, or, where there is no line, the position as it was.
    pub fn read_line(self, file: &[u8]) -> Result<(Frame, Cursor), Cursor>
        ensures { result ≡ line_at file.now self.at }
    {
        let at = self.at;
        let mut bytes = [0u8; FRAME_SIZE];
        if !decode_line(file, at, &mut bytes, 0) {
            return Err(Cursor { at });
        }
        let frame = Frame { bytes };
        let end = at + LINE_DIGITS;
        if end == file.len() {
            return Ok((frame, Cursor { at: end }));
        }
        Ok((frame, Cursor { at: end + 1 }))
    }
}

// Are there twelve digits at the position, and then a line feed or the end of the file? If so, stores the six bytes
// that they encode from an index on.
pub fn decode_line(file: &[u8], at: usize, table: &mut [u8], to: usize) -> bool
    requires { to + frame_size ≤ length table.old }
    ensures { Stored (is_line_at file.now at) (bytes_at file.now at)
        table.old to table.new result }
{
    let size = file.len();
    if size < at {
        return false;
    }
    if size - at < LINE_DIGITS {
        return false;
    }
    let end = at + LINE_DIGITS;
    if !is_closed(file, end) {
        return false;
    }
    decode_digits(&file[at..end], table, to)
}

// Does the file end at the index, or is there a line feed?
fn is_closed(file: &[u8], end: usize) -> bool
    requires { end ≤ length file.now }
    ensures { result ≡ closed (drop end file.now) }
{
    if end == file.len() {
        return true;
    }
    file[end] == LINE_FEED
}

// Are the twelve bytes of a line digits? If so, stores the six bytes that they stand for from an index on, each of two
// digits, the high one first.
fn decode_digits(line: &[u8], table: &mut [u8], to: usize) -> bool
    requires { (length line.now ≡ line_digits) × (to + frame_size ≤ length table.old) }
    ensures { Stored (all_digits line.now) (bytes_of line.now)
        table.old to table.new result }
{
    let mut digits = [b'0'; ABREAST];
    digits[..line.len()].copy_from_slice(line);
    let mut numbers = [0u8; ABREAST];
    if read_digits(&digits, &mut numbers) != 0 {
        return false;
    }
    // Over an index, since byte k has the digits 2 k and 2 k + 1, and the lemmas on stored bytes count from `to`.
    for k in 0..FRAME_SIZE {
        table[to + k] = BASE * numbers[2 * k] + numbers[2 * k + 1];
    }
    true
}

// Stores the number of each digit, and 16 or more for any other byte; returns how many bytes are not digits, so that no
// iteration branches.
fn read_digits(digits: &[u8; ABREAST], numbers: &mut [u8; ABREAST]) -> u8
    ensures { Numbered digits.now numbers.new result digits_at_once }
{
    let mut others = 0;
    for (k, digit) in digits.iter().enumerate() {
        let number = digit_or_more(*digit);
        numbers[k] = number;
        others += number / BASE;
    }
    others
}

// Does a text contain a lowercase letter? Every byte is looked at, so that no iteration branches.
pub fn has_lowercase(text: &[u8]) -> bool
    ensures { result ≡ has_lowercase text.now }
{
    text.iter()
        .copied()
        .fold(false, |small, byte| small | is_lowercase(byte))
}
