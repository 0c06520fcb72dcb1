// The questions of a graft: may the tree of a second table take the place of a leaf of a first?
#![tactic(auto)]

ghost use Rattle.std.specs.Prelude.{◌≡◌, ◌<◌};
ghost use Rattle.table.specs.Frame.{max_nodes, frames};
ghost use Rattle.table.specs.Position.{is_child, position_of};
ghost use Rattle.table.specs.Formed.{WellFormed};
ghost use Rattle.table.specs.Rejection.{answer};
ghost use Rattle.graft_questions.specs.Questions.{graft_size, deepest, leaf_rejection, graft_rejection};

use gametree::{Position, Side};
use table::{
    FRAME_SIZE, MAX_DEPTH, MAX_NODES, Question, Rejection, child_count, child_position,
    first_child, frame_count, is_leaf,
};
use table_check::check;

// All questions, for a buffer of this length: the number of nodes of the result, or the first rejection.
pub fn ask(first: &[u8], node: usize, second: &[u8], room: usize) -> Result<usize, Rejection>
    ensures { result ≡ answer (graft_size first.now second.now)
        (graft_rejection first.now node second.now room) }
{
    check(first)?;
    check(second)?;
    ask_leaf(first, node, second, room)
}

// Questions 17, 18 and 10.
fn ask_leaf(first: &[u8], node: usize, second: &[u8], room: usize) -> Result<usize, Rejection>
    requires { WellFormed first.now × WellFormed second.now }
    ensures { result ≡ answer (graft_size first.now second.now)
        (leaf_rejection first.now node second.now room) }
{
    let refused = Question::NoMaxLeaf.at(node);
    if !is_leaf(first, node) {
        return Err(refused);
    }
    let leaf = position_of(first, node);
    if leaf.side != Side::Max {
        return Err(refused);
    }
    let size = frame_count(first) + frame_count(second) - 1;
    if MAX_NODES < size {
        return Err(Question::TooLarge.at(0));
    }
    let depth = leaf.depth + height(second);
    if MAX_DEPTH < depth as usize {
        return Err(Question::TooLarge.at(0));
    }
    if room < FRAME_SIZE * size {
        return Err(Question::ShortBuffer.at(0));
    }
    Ok(size)
}

// The greatest depth of a node: in breadth-first order that of the last one.
fn height(table: &[u8]) -> u32
    requires { WellFormed table.now }
    ensures { (result ≡ deepest table.now (frames table.now)) × (result < max_nodes) }
{
    let last = position_of(table, frame_count(table) - 1);
    last.depth
}

// Where a node stands, found by going up from it to the root: `position` is where it would stand if `ancestor` were
// the root. The ancestor's parent is sought from right to left among the nodes before it, so that no candidate is tried
// twice.
fn position_of(table: &[u8], node: usize) -> Position
    requires { (WellFormed table.now) × (node < frames table.now) }
    ensures { result ≡ position_of table.now node }
{
    let mut position = Position {
        depth: 0,
        side: Side::Max,
    };
    let mut ancestor = node;
    for candidate in (0..node).rev() {
        if is_child(table, candidate, ancestor) {
            position = child_position(table, ancestor, position);
            ancestor = candidate;
        }
    }
    position
}

// Is `child` one of the node's children?
fn is_child(table: &[u8], node: usize, child: usize) -> bool
    requires { node < frames table.now }
    ensures { result ≡ is_child table.now node child }
{
    let count = child_count(table, node);
    if count == 0 {
        return false;
    }
    let first = first_child(table, node);
    (first..first + count).contains(&child)
}
