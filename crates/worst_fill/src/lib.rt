// The worst-case filling: the ranks 0, 1, 2 and so on at the leaves of a table, so that alpha-beta evaluates every
// leaf.
#![tactic(auto)]

ghost use Rattle.std.specs.Prelude.{◌≡◌, ◌+◌, ◌<◌, length};
ghost use Rattle.gametree.specs.Trees.{leaves};
ghost use Rattle.table.specs.Frame.{max_nodes, frames, two_bytes};
ghost use Rattle.table.specs.Tree.{tree_at};
ghost use Rattle.table.specs.Rejection.{◌leaving◌};
ghost use Rattle.worst_fill.specs.Ranks.{with_rank, ranked};
ghost use Rattle.worst_fill.specs.Outcome.{fill_outcome};
ghost use Rattle.worst_fill.specs.Engine.Fillable.{Fillable, nth_child};

use gametree::Side;
use table::{Rejection, child_count, child_side, first_child, put_two_bytes};
use table_check::check;

// Writes each leaf's rank into the lent table, in blocks that rise from left to right at Max and fall at Min: the
// number of leaves, or the first rejection, and then the table is as it was.
pub fn fill(table: &mut [u8]) -> Result<usize, Rejection>
    ensures { result leaving table.new ≡ fill_outcome table.old }
{
    check(table)?;
    Ok(fill_node(table, 0, Side::Max, 0))
}

// The leaves below a node get the ranks from `rank` on, in the order in which they are visited: at Max the children
// from left to right, at Min from right to left. The result is the next rank.
fn fill_node(table: &mut [u8], node: usize, mover: Side, rank: usize) -> usize
    requires { Fillable table.old node mover rank }
    ensures value { result ≡ rank + length (leaves (tree_at table.old node)) }
    ensures table_after { table.new ≡ ranked rank (tree_at table.old node) table.old }
{
    let count = child_count(table, node);
    if count == 0 {
        put_rank(table, node, rank);
        return rank + 1;
    }
    let first = first_child(table, node);
    let mut next = rank;
    for turn in 0..count {
        let child = nth_child(mover, first, count, turn);
        let side = child_side(table, child, mover);
        next = fill_node(table, child, side, next);
    }
    next
}

// The child that gets its ranks in this turn.
fn nth_child(mover: Side, first: usize, count: usize, turn: usize) -> usize
    requires { (turn < count) × (first < two_bytes) × (count < 256) }
    ensures { result ≡ nth_child mover first count turn }
{
    match mover {
        Side::Max => first + turn,
        Side::Min => first + (count - 1 - turn),
    }
}

// A leaf's rank in its bytes 4 and 5.
fn put_rank(table: &mut [u8], node: usize, rank: usize)
    requires { (node < frames table.old) × (rank < max_nodes) }
    ensures { table.new ≡ with_rank node rank table.old }
{
    put_two_bytes(table, node, 4, rank as u16);
}
