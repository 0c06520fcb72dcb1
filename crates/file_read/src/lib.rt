// The reader of a file: its questions, and its frames in a table.
#![tactic(auto)]

ghost use Rattle.std.specs.Prelude.{◌≡◌, ◌++◌, ◌≤◌, length, take, drop};
ghost use Rattle.std.proofs.Math.Option.{none};
ghost use Rattle.table.specs.Rejection.{answer, ◌leaving◌};
ghost use Rattle.file_line.specs.Lines.{lines_of};
ghost use Rattle.file_read.specs.File.{max_file, file_check3, file_check16, file_rejection, read_outcome};
ghost use Rattle.file_read.specs.Engine.Decoded.{lines_rejection, Decoded, RoomFor, LongEnough};
ghost use Rattle.table.specs.Frame.{max_table};

use file_line::{LINE_DIGITS, LINE_SIZE, decode_line, has_lowercase};
use table::{FRAME_SIZE, MAX_NODES, MAX_TABLE, Question, Rejection};
use table_check::check_frames;

// The most bytes of a file.
pub const MAX_FILE: usize = LINE_SIZE * MAX_NODES;

// A file of at most this many lines gets a smaller work array; then the most bytes of such a file, and of its table.
const SHORT_LINES: usize = 64;

pub const SHORT_FILE: usize = LINE_SIZE * SHORT_LINES;

pub const SHORT_TABLE: usize = FRAME_SIZE * SHORT_LINES;

// Reads a file into the table: the number of nodes, or the first rejection, and then the table is as it was.
pub fn read(file: &[u8], table: &mut [u8]) -> Result<usize, Rejection>
    ensures { result leaving table.new ≡ read_outcome file.now table.old }
{
    if file.len() <= SHORT_FILE {
        return read_by::<SHORT_TABLE>(file, table);
    }
    read_by::<MAX_TABLE>(file, table)
}

// The same, with a work array of N bytes for the frames: the lent table is written to once no question is left.
fn read_by<const N: usize>(file: &[u8], table: &mut [u8]) -> Result<usize, Rejection>
    requires room { length file.now ≤ max_file → RoomFor file.now N }
    requires few { N ≤ max_table }
    ensures { result leaving table.new ≡ read_outcome file.now table.old }
{
    let mut decoded = [0u8; N];
    let nodes = check_file(file, &mut decoded)?;
    let size = FRAME_SIZE * nodes;
    if table.len() < size {
        return Err(Question::ShortBuffer.at(0));
    }
    copy_front(&decoded[..size], table);
    Ok(nodes)
}

// Copies bytes to the front of others. It is a loop, which the compiler makes a memcpy: the library needs that and
// memset, and nothing else of a C library.
fn copy_front(from: &[u8], to: &mut [u8])
    requires { length from.now ≤ length to.old }
    ensures { to.new ≡ take (length from.now) from.now ++ drop (length from.now) to.old }
{
    for k in 0..from.len() {
        to[k] = from[k];
    }
}

// Questions 1 to 9 and 16: the number of nodes, whose frames then stand at the table's front, or the first rejection.
fn check_file(file: &[u8], table: &mut [u8]) -> Result<usize, Rejection>
    requires { length file.now ≤ max_file → LongEnough file.now table.old }
    ensures { Decoded file.now (file_rejection file.now) table.new result }
{
    let lines = check_lines(file, table)?;
    check_letters(file, lines)?;
    let end = FRAME_SIZE * lines;
    check_frames(&table[..end])
}

// Questions 1 to 3, which take letters in either case: the number of lines, whose frames then stand at the table's
// front, or the first rejection.
pub fn check_lines(file: &[u8], table: &mut [u8]) -> Result<usize, Rejection>
    requires { length file.now ≤ max_file → LongEnough file.now table.old }
    ensures { Decoded file.now (lines_rejection file.now) table.new result }
{
    if file.len() == 0 {
        return Err(Question::Empty.at(0));
    }
    if MAX_FILE < file.len() {
        return Err(Question::TooLong.at(0));
    }
    decode(file, table)
}

// Question 3: the number of lines, whose frames then stand at the table's front, or the rejection.
fn decode(file: &[u8], table: &mut [u8]) -> Result<usize, Rejection>
    requires { (length file.now ≤ max_file) × (LongEnough file.now table.old) }
    ensures { Decoded file.now (file_check3 file.now) table.new result }
{
    let lines = file.len().div_ceil(LINE_SIZE);
    for line in 0..lines {
        if !decode_line(file, LINE_SIZE * line, table, FRAME_SIZE * line) {
            return Err(Question::NotWhole.at(line));
        }
    }
    Ok(lines)
}

// Question 16, for a file whose lines have passed question 3: the number of lines, or the rejection.
fn check_letters(file: &[u8], lines: usize) -> Result<usize, Rejection>
    requires { (file_check3 file.now ≡ none) × (lines ≡ length (lines_of file.now)) }
    ensures { result ≡ answer lines (file_check16 file.now) }
{
    if has_lowercase(file) {
        return find_lowercase(file, lines);
    }
    Ok(lines)
}

// The same, line by line.
fn find_lowercase(file: &[u8], lines: usize) -> Result<usize, Rejection>
    requires { (file_check3 file.now ≡ none) × (lines ≡ length (lines_of file.now)) }
    ensures { result ≡ answer lines (file_check16 file.now) }
{
    for line in 0..lines {
        let at = LINE_SIZE * line;
        let end = at + LINE_DIGITS;
        if has_lowercase(&file[at..end]) {
            return Err(Question::LowercaseLetter.at(line));
        }
    }
    Ok(lines)
}
