// Tree files: the public names of the reader of a whole file, of one line and of one digit, and of the writer.
#![tactic(auto)]

pub use file_hex::digit;
pub use file_line::{Cursor, Frame, LINE_SIZE};
pub use file_read::{MAX_FILE, read};
pub use file_write::write;
