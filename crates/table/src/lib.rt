// Byte tables of six-byte frames: a node's children, the fields of a frame, and what is asked of one node.
#![tactic(auto)]

ghost use Rattle.std.specs.Prelude.{◌≡◌, ◌+◌, ◌*◌, ◌/◌, ◌%◌, ◌<◌, ◌≤◌, nat_abs, set};
ghost use Rattle.gametree.specs.Trees.{greatest, zero_score};
ghost use Rattle.table.specs.Frame.{frame_size, max_nodes, frames, next as next_of, two_bytes};
ghost use Rattle.table.specs.Frame.{byte_of, first_child, child_count, is_leaf, byte3, value_bytes};
ghost use Rattle.table.specs.Frame.{stored_score};
ghost use Rattle.table.specs.Children.{children_of, children_at};
ghost use Rattle.table.specs.Position.{child_side, child_position};
ghost use Rattle.table.specs.Tree.{leaf_score};
ghost use Rattle.table.specs.Value.{value_of, score_of};
ghost use Rattle.table.specs.Questions.{number_of};
ghost use Rattle.table.specs.Check.{byte3_right, first_child_right, value_right};

use gametree::{Position, Side, other};

// The limits (SPEC 3.2).
pub const FRAME_SIZE: usize = 6;

pub const MAX_NODES: usize = 4096;

pub const MAX_TABLE: usize = FRAME_SIZE * MAX_NODES;

pub const MAX_CHILDREN: usize = 40;

pub const MAX_DEPTH: usize = 18;

// -32,001 and 32,001 as scores: those of leaves are between them.
pub const LEAST: u32 = 0;

pub const GREATEST: u32 = 64002;

// The score of the value 0, also as a signed number; and how many values two bytes hold.
const ZERO_SCORE: usize = 32001;

pub const SIGNED_ZERO_SCORE: i32 = ZERO_SCORE as i32;

pub const TWO_BYTES: usize = 65536;

// From this value up a leaf is a win, from its negative down a loss; and the scores of both.
const WIN: u32 = 31000;

const WON: u32 = ZERO_SCORE as u32 + WIN;

const LOST: u32 = ZERO_SCORE as u32 - WIN;

// Byte 3 of a node where the same side moves as at its parent (SPEC 3.5).
const SAME_MOVER: usize = 1;

// The flags of a certificate: a node in the max tree only, in the min tree only, and in both. They are bytes, since
// certificates are buffers that callers in C lend.
pub const IN_MAX: u8 = 1;

pub const IN_MIN: u8 = 2;

pub const IN_BOTH: u8 = 3;

// The questions that calls ask, by what a "no" means, with their numbers (SPEC 4.2; 15 was struck).
#[derive(Clone, Copy, Debug, PartialEq, Eq)]
pub enum Question {
    Empty = 1,
    TooLong = 2,
    NotWhole = 3,
    WrongByte3 = 4,
    TooManyChildren = 5,
    WrongFirstChild = 6,
    WrongValue = 7,
    WrongTotal = 8,
    TooDeep = 9,
    ShortBuffer = 10,
    WrongFlag = 11,
    NoMaxTree = 12,
    NoMinTree = 13,
    UnequalValues = 14,
    LowercaseLetter = 16,
    NoMaxLeaf = 17,
    TooLarge = 18,
    NoLeaf = 19,
    OutOfRange = 20,
    NoValue = 21,
    WrongWidth = 22,
    WrongDepth = 23,
}

impl Question {
    // The rejection by a "no" to this question, at a place.
    pub fn at(self, place: usize) -> Rejection
        ensures { result ≡ record { number = number_of self; place = place } }
    {
        Rejection {
            number: self as u8,
            place,
        }
    }
}

// A rejection (01: the first "no"): the question's number and a place (SPEC 4.1). The number is a byte, since
// `text::refused` and the library's answers take any, as C may.
#[derive(Clone, Copy, Debug, PartialEq, Eq)]
pub struct Rejection {
    pub number: u8,
    pub place: usize,
}

// The frames of a node's children, as a part of the table that begins at the first child's; empty on a leaf, past the
// last frame, and where it would reach past the table.
pub fn children(table: &[u8], node: usize) -> &[u8]
    ensures { (result.now ≡ children_of table.now node)
        × (result.ref_ptr ≡ children_at table.entry.ref_ptr table.now node) }
{
    if frame_count(table) <= node {
        return &table[0..0];
    }
    let first = first_child(table, node);
    let end = first + child_count(table, node);
    if end <= frame_count(table) {
        let from = FRAME_SIZE * first;
        let to = FRAME_SIZE * end;
        &table[from..to]
    } else {
        &table[0..0]
    }
}

// Question 4 of a node: is its byte 3 valid?
pub fn byte_3_right(table: &[u8], node: usize) -> bool
    requires { node < frames table.now }
    ensures { result ≡ byte3_right table.now node }
{
    let byte = byte_3(table, node);
    if byte == 0 {
        return true;
    }
    if 0 < node {
        if 0 < child_count(table, node) {
            return byte == SAME_MOVER;
        }
    }
    false
}

// Question 6 of a node: is the number of its first child valid?
pub fn first_child_right(table: &[u8], node: usize, next: usize) -> bool
    requires { (node < frames table.now) × (next ≡ next_of table.now node) }
    ensures { result ≡ first_child_right table.now node (child_count table.now node) }
{
    let first = first_child(table, node);
    if child_count(table, node) == 0 {
        return first == 0;
    }
    if first != next {
        return false;
    }
    node < first
}

// Question 7 of a node: is its value valid?
pub fn value_right(table: &[u8], node: usize) -> bool
    requires { node < frames table.now }
    ensures { result ≡ value_right table.now node (child_count table.now node) }
{
    if child_count(table, node) != 0 {
        return value_bytes(table, node) == 0;
    }
    let score = stored_score(table, node);
    if score <= LEAST {
        return false;
    }
    score < GREATEST
}

// How many whole frames the table has.
pub fn frame_count(table: &[u8]) -> usize
    ensures { result ≡ frames table.now }
{
    table.len() / FRAME_SIZE
}

// Byte k of a node's frame.
fn byte_of(table: &[u8], node: usize, k: usize) -> usize
    requires { (node < frames table.now) × (k < frame_size) }
    ensures { (result ≡ byte_of table.now node k) × (result < 256) }
{
    table[FRAME_SIZE * node + k] as usize
}

// Bytes k and k + 1 of a node's frame as one number, high byte first.
fn two_bytes_of(table: &[u8], node: usize, k: usize) -> u16
    requires { (node < frames table.now) × (k + 1 < frame_size) }
    ensures { result ≡ byte_of table.now node k * 256 + byte_of table.now node (k + 1) }
{
    let at = FRAME_SIZE * node + k;
    u16::from_be_bytes([table[at], table[at + 1]])
}

// A number in bytes k and k + 1 of a node's frame, high byte first.
pub fn put_two_bytes(table: &mut [u8], node: usize, k: usize, number: u16)
    requires { (node < frames table.old) × (k + 1 < frame_size) }
    ensures { table.new
        ≡ set (set table.old (frame_size * node + k) (number / 256)) (frame_size * node + k + 1)
        (number % 256) }
{
    let [high, low] = number.to_be_bytes();
    let at = FRAME_SIZE * node + k;
    table[at] = high;
    table[at + 1] = low;
}

// The number of a node's first child.
pub fn first_child(table: &[u8], node: usize) -> usize
    requires { node < frames table.now }
    ensures { (result ≡ first_child table.now node) × (result < two_bytes) }
{
    two_bytes_of(table, node, 0) as usize
}

// The number of a node's children.
pub fn child_count(table: &[u8], node: usize) -> usize
    requires { node < frames table.now }
    ensures { (result ≡ child_count table.now node) × (result < 256) }
{
    byte_of(table, node, 2)
}

// Is this node a leaf of the table? No, past the last whole frame.
pub fn is_leaf(table: &[u8], node: usize) -> bool
    ensures { result ≡ is_leaf table.now node }
{
    node < frame_count(table) && child_count(table, node) == 0
}

// Byte 3 of a node's frame.
fn byte_3(table: &[u8], node: usize) -> usize
    requires { node < frames table.now }
    ensures { (result ≡ byte3 table.now node) × (result < 256) }
{
    byte_of(table, node, 3)
}

// The value bytes as one unsigned number.
fn value_bytes(table: &[u8], node: usize) -> usize
    requires { node < frames table.now }
    ensures { (result ≡ value_bytes table.now node) × (result < two_bytes) }
{
    two_bytes_of(table, node, 4) as usize
}

// The score that the value bytes hold.
fn stored_score(table: &[u8], node: usize) -> u32
    requires { node < frames table.now }
    ensures { (result ≡ stored_score table.now node) × (result < two_bytes) }
{
    ((value_bytes(table, node) + ZERO_SCORE) % TWO_BYTES) as u32
}

// The score of a leaf at this depth: that of its worth.
pub fn leaf_score(table: &[u8], node: usize, depth: u32) -> u32
    requires { (node < frames table.now) × (depth ≤ max_nodes) }
    ensures { (result ≡ leaf_score depth (stored_score table.now node)) × (result < two_bytes) }
{
    score_at(stored_score(table, node), depth)
}

// What a stored score counts as at this depth.
pub fn score_at(stored: u32, depth: u32) -> u32
    requires { (stored < two_bytes) × (depth ≤ max_nodes) }
    ensures { (result ≡ leaf_score depth stored) × (result < two_bytes) }
{
    if WON <= stored {
        return stored - depth;
    }
    if stored <= LOST {
        return stored + depth;
    }
    stored
}

// The value of a score (01: from -32,001 to 32,001).
pub fn value(score: u32) -> i16
    requires { score ≤ greatest }
    ensures { result ≡ value_of score }
{
    (score as i32 - SIGNED_ZERO_SCORE) as i16
}

// The score of a value.
pub fn score_of(signed: i32) -> u32
    requires { nat_abs signed ≤ zero_score }
    ensures { result ≡ score_of signed }
{
    (signed + SIGNED_ZERO_SCORE) as u32
}

// Where a child of a node at `position` stands.
pub fn child_position(table: &[u8], child: usize, position: Position) -> Position
    requires { (child < frames table.now) × (position.depth ≤ max_nodes) }
    ensures { result ≡ child_position table.now child position }
{
    let mover = position.side;
    let side = child_side(table, child, mover);
    Position {
        depth: position.depth + 1,
        side,
    }
}

// Who moves at a child of a node where `mover` moves.
pub fn child_side(table: &[u8], child: usize, mover: Side) -> Side
    requires { child < frames table.now }
    ensures { result ≡ child_side table.now child mover }
{
    let opponent = other(mover);
    if byte_3(table, child) == SAME_MOVER {
        mover
    } else {
        opponent
    }
}
