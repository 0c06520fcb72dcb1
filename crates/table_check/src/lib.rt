// The check of a table: questions 1 to 9 in order.
#![tactic(auto)]

ghost use Rattle.std.specs.Prelude.{◌≡◌, ◌+◌, ◌*◌, ◌<◌, ◌≤◌};
ghost use Rattle.table.specs.Frame.{max_nodes, max_children, frames, next as next_of};
ghost use Rattle.table.specs.Formed.{WellFormed};
ghost use Rattle.table.specs.Rejection.{answer};
ghost use Rattle.table.specs.Check.{check_node, nodes_rejection, depths_rejection, frames_rejection, checked};

use table::{
    FRAME_SIZE, MAX_CHILDREN, MAX_DEPTH, MAX_TABLE, Question, Rejection, byte_3_right, child_count,
    first_child_right, frame_count, value_right,
};

// Questions 1 to 9 in order: the number of nodes, or the first rejection.
pub fn check(table: &[u8]) -> Result<usize, Rejection>
    ensures { result ≡ checked table.now }
{
    let length = table.len();
    if length == 0 {
        return Err(Question::Empty.at(0));
    }
    if MAX_TABLE < length {
        return Err(Question::TooLong.at(0));
    }
    if length % FRAME_SIZE != 0 {
        return Err(Question::NotWhole.at(length / FRAME_SIZE));
    }
    check_frames(table)
}

// Questions 4 to 9, which concern the frames.
pub fn check_frames(table: &[u8]) -> Result<usize, Rejection>
    requires { frames table.now ≤ max_nodes }
    ensures { result ≡ answer (frames table.now) (frames_rejection table.now) }
{
    let total = check_nodes(table)?;
    let n = frame_count(table);
    if total != n {
        return Err(Question::WrongTotal.at(n));
    }
    check_depths(table)
}

// Questions 4 to 7, put to one node after the other: 1 plus all child counts, or the first rejection.
fn check_nodes(table: &[u8]) -> Result<usize, Rejection>
    requires { frames table.now ≤ max_nodes }
    ensures { result
        ≡ answer (next_of table.now (frames table.now)) (nodes_rejection table.now) }
{
    let n = frame_count(table);
    let mut next: usize = 1;
    for node in 0..n {
        next = check_node(table, node, next)?;
    }
    Ok(next)
}

// Questions 4 to 7 of one node; `next` is 1 plus the child counts before it, and the answer 1 plus those up to it.
fn check_node(table: &[u8], node: usize, next: usize) -> Result<usize, Rejection>
    requires { (node < frames table.now) × (next ≡ next_of table.now node)
        × (next ≤ 1 + max_children * max_nodes) }
    ensures { result ≡ answer (next_of table.now (node + 1)) (check_node table.now node) }
{
    let count = child_count(table, node);
    if !byte_3_right(table, node) {
        return Err(Question::WrongByte3.at(node));
    }
    if MAX_CHILDREN < count {
        return Err(Question::TooManyChildren.at(node));
    }
    if !first_child_right(table, node, next) {
        return Err(Question::WrongFirstChild.at(node));
    }
    if !value_right(table, node) {
        return Err(Question::WrongValue.at(node));
    }
    Ok(next + count)
}

// Question 9, level by level: in a well-formed table a level ends where the children of its nodes begin. If the last
// level begins before every node has been reached as a child, the first one that has not is too deep; once every node
// has been reached, none is.
fn check_depths(table: &[u8]) -> Result<usize, Rejection>
    requires { WellFormed table.now }
    ensures { result ≡ answer (frames table.now) (depths_rejection table.now) }
{
    let n = frame_count(table);
    let mut depth: usize = 0;
    let mut end: usize = 1;
    let mut next: usize = 1;
    for node in 0..n {
        if next == n {
            break;
        }
        if node == end {
            depth += 1;
            if depth == MAX_DEPTH {
                return Err(Question::TooDeep.at(next));
            }
            end = next;
        }
        next += child_count(table, node);
    }
    Ok(n)
}
