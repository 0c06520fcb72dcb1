// An input, as standard input, read to its end.
#![tactic(auto)]

ghost use Rattle.input.specs.Input.{InputFits};

use std::io;
use std::io::Read;

// Room for more bytes than a file of a tree may have.
pub const LARGE: usize = 65536;

// Reads until the input ends or the buffer is full: how many bytes came, or the error of a read that failed. A loop of
// our own, since `read_exact` does not say how many bytes an input has that ends before the buffer, and `read_to_end`
// needs a heap.
pub fn read_all<R: Read>(reader: &mut R, file: &mut [u8]) -> io::Result<usize>
    ensures { InputFits file.new result }
{
    let mut size = 0;
    while size < file.len() {
        let got = reader.read(&mut file[size..])?;
        if got == 0 {
            break;
        }
        size += got;
    }
    Ok(size)
}
