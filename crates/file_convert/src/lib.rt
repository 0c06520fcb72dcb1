// Conversion of stored files (02: N7): the letters a to f are lifted to capitals, and the file is then read and
// written.
#![tactic(auto)]

ghost use Rattle.std.specs.Prelude.{◌≡◌, ◌≤◌, length};
ghost use Rattle.table.specs.Rejection.{◌leaving◌};
ghost use Rattle.text.specs.Text.{refused_line};
ghost use Rattle.file_read.specs.File.{max_file};
ghost use Rattle.file_read.specs.Engine.Decoded.{Decoded, RoomFor, LongEnough};
ghost use Rattle.table.specs.Frame.{max_table};
ghost use Rattle.file_convert.specs.Convert.{convert_outcome};
ghost use Rattle.file_convert.specs.declared.Printed.TheVariants.{Line};
ghost use Rattle.file_convert.specs.Printed.{length_printed, laid_text, output_outcome};
ghost use Rattle.file_convert.specs.Results.Converted.{base_rejection};

use file_read::{SHORT_FILE, SHORT_TABLE, check_lines};
use file_write::write_accepted;
use table::{FRAME_SIZE, MAX_TABLE, Rejection};
use table_check::check_frames;

// What is printed for a file, with its length in bytes: the converted file, or the line of a refusal; or that there is
// no room for it.
#[derive(Clone, Copy)]
pub enum Printed {
    File(usize),
    Line(Rejection, usize),
    NoRoom,
}

// Lifts the letters a to f of a file to capitals, reads it, and writes its table's file: the length in bytes, or the
// first rejection, and then the buffer is as it was.
pub fn convert(file: &[u8], converted: &mut [u8]) -> Result<usize, Rejection>
    ensures { result leaving converted.new ≡ convert_outcome file.now converted.old }
{
    if file.len() <= SHORT_FILE {
        return convert_by::<SHORT_TABLE>(file, converted);
    }
    convert_by::<MAX_TABLE>(file, converted)
}

// The same, with a work array of N bytes for the frames. A digit has the same number in either letter case, and is
// written as a capital, so no letter has to be lifted first.
fn convert_by<const N: usize>(file: &[u8], converted: &mut [u8]) -> Result<usize, Rejection>
    requires room { length file.now ≤ max_file → RoomFor file.now N }
    requires few { N ≤ max_table }
    ensures { result leaving converted.new ≡ convert_outcome file.now converted.old }
{
    let mut table = [0u8; N];
    let nodes = check_file(file, &mut table)?;
    let end = FRAME_SIZE * nodes;
    write_accepted(&table[..end], converted, nodes)
}

// What the program prints for a file, at the front of the lent buffer: the converted file, or the line of the refusal.
// If there is no room for it, the buffer is as it was.
pub fn output(file: &[u8], buffer: &mut [u8]) -> Printed
    ensures { result leaving buffer.new ≡ output_outcome file.now buffer.old }
{
    match convert(file, buffer) {
        Ok(length) => Printed::File(length),
        Err(rejection) => lay_refused(rejection, buffer),
    }
}

// The line of a refusal at the front of the buffer.
fn lay_refused(rejection: Rejection, buffer: &mut [u8]) -> Printed
    ensures { result leaving buffer.new
        ≡ laid_text (Line rejection) (refused_line rejection) buffer.old }
{
    let text = text::refused(rejection);
    let line = text.as_bytes();
    let length = line.len();
    if buffer.len() < length {
        return Printed::NoRoom;
    }
    buffer[..length].copy_from_slice(line);
    Printed::Line(rejection, length)
}

// How many bytes are printed.
pub fn length_printed(printed: Printed) -> usize
    ensures { result ≡ length_printed printed }
{
    match printed {
        Printed::File(length) | Printed::Line(_, length) => length,
        Printed::NoRoom => 0,
    }
}

// Questions 1 to 9: the number of nodes, whose frames then stand at the table's front, or the first rejection.
fn check_file(file: &[u8], table: &mut [u8]) -> Result<usize, Rejection>
    requires { length file.now ≤ max_file → LongEnough file.now table.old }
    ensures { Decoded file.now (base_rejection file.now) table.new result }
{
    let lines = check_lines(file, table)?;
    let end = FRAME_SIZE * lines;
    check_frames(&table[..end])
}
