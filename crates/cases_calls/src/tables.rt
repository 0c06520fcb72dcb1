// Tables read from files, and what lent memory is filled with.
ghost use Rattle.std.specs.Prelude.{◌≡◌, min, length};
ghost use Rattle.file_read.specs.File.{read_outcome};
ghost use Rattle.cases_calls.specs.Sizes.{IsPrefixLen, frames_size};

use table::{FRAME_SIZE, MAX_NODES, Rejection};

// A table with one frame more than a tree may have.
pub const TABLE_SIZE: usize = FRAME_SIZE * (MAX_NODES + 1);

// What lent buffers are filled with: no call writes this byte.
pub const FILLED: u8 = 170;

// What lent lists are filled with: it is no number of a node.
pub const UNLISTED: u16 = 43690;

// Reads a file into a table: how many bytes its frames have, 0 where the file is refused.
pub fn read_table(file: &[u8], table: &mut [u8]) -> usize
    ensures prefix_len { IsPrefixLen result table.new }
    ensures value { result ≡ min (frames_size (read_outcome file.now table.old).answer)
        (length table.new) }
    ensures table_after { table.new ≡ (read_outcome file.now table.old).left }
{
    let size = frames_size(file::read(file, table));
    size.min(table.len())
}

// How many bytes the frames of a checked table have, 0 where it is refused.
pub fn frames_size(checked: Result<usize, Rejection>) -> usize
    ensures { result ≡ frames_size checked }
{
    checked.map_or(0, |nodes| FRAME_SIZE * nodes.min(MAX_NODES))
}
