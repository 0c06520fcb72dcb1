// Reports of files: of one that is given, and of the largest that pass and do not pass, which are made here because
// they are long.
use file::LINE_SIZE;
use std::io;
use std::io::Write;
use table::{FRAME_SIZE, MAX_NODES, MAX_TABLE};

// The longest file.
const FILE_SIZE: usize = LINE_SIZE * MAX_NODES;

// The largest tree has so many inner nodes, of so many children each.
const INNER: u16 = 273;

const WIDTH: u8 = 15;

// The report of a tree of as many nodes as a tree may have; a leaf's value is its number. There is room for its file,
// so the writer refuses nothing.
pub fn print_largest<W: Write>(out: &mut W) -> io::Result<()> {
    let mut table = [0u8; MAX_TABLE];
    let mut file = [0u8; FILE_SIZE];
    make_table(&mut table);
    let _ = file::write(&table, &mut file);
    out.write_all(b"# 4096 frames\n")?;
    print_report(out, &file)
}

// The report of a file that has as many bytes as the lines of one frame more.
pub fn print_too_large<W: Write>(out: &mut W) -> io::Result<()> {
    let file = [b'0'; FILE_SIZE + LINE_SIZE];
    out.write_all(b"# as many bytes as 4097 frames\n")?;
    print_report(out, &file)
}

// The frames of the nodes, in order.
fn make_table(table: &mut [u8]) {
    for (node, frame) in (0..MAX_NODES as u16).zip(table.chunks_exact_mut(FRAME_SIZE)) {
        frame.copy_from_slice(&tree_frame(node));
    }
}

// A node's frame: an inner node's has its first child and how many there are, a leaf's has its value.
fn tree_frame(node: u16) -> [u8; FRAME_SIZE] {
    if node < INNER {
        let [high, low] = (1 + u16::from(WIDTH) * node).to_be_bytes();
        return [high, low, WIDTH, 0, 0, 0];
    }
    let [high, low] = node.to_be_bytes();
    [0, 0, 0, 0, high, low]
}

// What the program `analyse` prints for a file.
pub fn print_report<W: Write>(out: &mut W, file: &[u8]) -> io::Result<()> {
    let text = analysis::write(file);
    out.write_all(text.as_bytes())
}
