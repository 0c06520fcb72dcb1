// The writer of a file: a line for each frame of an accepted table.
#![tactic(auto)]

ghost use Rattle.std.specs.Prelude.{◌≡◌, ◌++◌, ◌*◌, ◌<◌, ◌≤◌, length, drop};
ghost use Rattle.table.specs.Frame.{frame_size, max_nodes, frames};
ghost use Rattle.table.specs.Rejection.{◌leaving◌};
ghost use Rattle.table.specs.Check.{Accepted};
ghost use Rattle.file_line.specs.Line.{line_size};
ghost use Rattle.file_write.specs.Encoded.{line_of, encode};
ghost use Rattle.file_write.specs.Write.{write_outcome};
ghost use Rattle.file_write.specs.Engine.Pairs.{byte_values, digit_pairs};

use file_line::{LINE_DIGITS, LINE_FEED, LINE_SIZE};
use table::{FRAME_SIZE, Question, Rejection};
use table_check::check;

// The two digits of each of the 256 bytes, in capital letters and in order.
const PAIRS_SIZE: usize = 512;

const DIGIT_PAIRS: [u8; PAIRS_SIZE] = *b"\
    000102030405060708090A0B0C0D0E0F\
    101112131415161718191A1B1C1D1E1F\
    202122232425262728292A2B2C2D2E2F\
    303132333435363738393A3B3C3D3E3F\
    404142434445464748494A4B4C4D4E4F\
    505152535455565758595A5B5C5D5E5F\
    606162636465666768696A6B6C6D6E6F\
    707172737475767778797A7B7C7D7E7F\
    808182838485868788898A8B8C8D8E8F\
    909192939495969798999A9B9C9D9E9F\
    A0A1A2A3A4A5A6A7A8A9AAABACADAEAF\
    B0B1B2B3B4B5B6B7B8B9BABBBCBDBEBF\
    C0C1C2C3C4C5C6C7C8C9CACBCCCDCECF\
    D0D1D2D3D4D5D6D7D8D9DADBDCDDDEDF\
    E0E1E2E3E4E5E6E7E8E9EAEBECEDEEEF\
    F0F1F2F3F4F5F6F7F8F9FAFBFCFDFEFF";

// Writes the file of an accepted table, in capital letters and with every line closed: its length in bytes, or the
// first rejection, and then the buffer is as it was.
pub fn write(table: &[u8], file: &mut [u8]) -> Result<usize, Rejection>
    ensures { result leaving file.new ≡ write_outcome table.now file.old }
{
    let nodes = check(table)?;
    write_accepted(table, file, nodes)
}

// The same for an accepted table of so many nodes: only question 10 is still to be asked.
pub fn write_accepted(table: &[u8], file: &mut [u8], nodes: usize) -> Result<usize, Rejection>
    requires { (Accepted table.now) × (nodes ≡ frames table.now) }
    ensures { result leaving file.new ≡ write_outcome table.now file.old }
{
    if file.len() < LINE_SIZE * nodes {
        return Err(Question::ShortBuffer.at(0));
    }
    write_lines(&DIGIT_PAIRS, table, file, nodes);
    Ok(LINE_SIZE * nodes)
}

// The lines of the first nodes of a table, each laid behind the lines already written. The digits of each byte are
// handed over, so that they are at hand before the first line.
fn write_lines(pairs: &[u8; PAIRS_SIZE], table: &[u8], file: &mut [u8], nodes: usize)
    requires pairs_value { pairs.now ≡ digit_pairs }
    requires nodes_le_max_nodes { (nodes ≤ max_nodes) × (frame_size * nodes ≤ length table.now) }
    requires nodes_in_bounds { line_size * nodes ≤ length file.old }
    ensures { file.new
        ≡ encode nodes table.now ++ drop (line_size * nodes) file.old }
{
    for node in 0..nodes {
        let from = FRAME_SIZE * node;
        let to = from + FRAME_SIZE;
        let at = LINE_SIZE * node;
        write_line(pairs, &mut file[at..], &table[from..to]);
    }
}

// The line of a frame, at the front of what is left of the file. Both digits of a byte are read before one is written,
// so that the compiler copies them at once.
fn write_line(pairs: &[u8; PAIRS_SIZE], file: &mut [u8], frame: &[u8])
    requires pairs_value { pairs.now ≡ digit_pairs }
    requires line_size_in_bounds { (line_size ≤ length file.old) × (length frame.now ≡ frame_size) }
    ensures { file.new ≡ line_of frame.now ++ drop line_size file.old }
{
    for k in 0..FRAME_SIZE {
        let pair = 2 * wide(frame[k]);
        let high = pairs[pair];
        let low = pairs[pair + 1];
        file[2 * k] = high;
        file[2 * k + 1] = low;
    }
    file[LINE_DIGITS] = LINE_FEED;
}

// A byte as an index.
fn wide(byte: u8) -> usize
    ensures { (result ≡ byte) × (result < byte_values) }
{
    byte as usize
}
