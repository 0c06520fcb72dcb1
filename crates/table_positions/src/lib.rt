// Where the nodes of a table stand: a work array with each node's parent, depth and side in one number.
#![tactic(auto)]

ghost use Rattle.std.specs.Prelude.{◌≡◌, ◌-◌, ◌<◌, ◌≤◌, length};
ghost use Rattle.table.specs.Frame.{max_nodes, frames};
ghost use Rattle.table.specs.Position.{child_position};
ghost use Rattle.table.specs.Formed.{WellFormed};
ghost use Rattle.table_positions.specs.Buffer.{written, stored};
ghost use Rattle.table_positions.specs.Engine.Positions.{side_number, packed as packed_of, position_entry};
ghost use Rattle.table_positions.specs.Engine.Positions.{parent_in, depth_in, side_in, position_in};

use gametree::{Position, Side};
use table::{MAX_NODES, child_count, child_position, frame_count};

// The radices of a packed entry: an entry is (parent * DEPTHS + depth) * SIDES + side.
const DEPTHS: u32 = MAX_NODES as u32;

const SIDES: u32 = 2;

// The entry of every node, from the root down, until every node has been reached as a child: the nodes not visited by
// then are leaves.
pub fn fill(table: &[u8], positions: &mut [u32])
    requires well_formed { WellFormed table.now }
    requires table_in_bounds { frames table.now ≤ length positions.old }
    ensures { positions.new
        ≡ written (position_entry table.now) (frames table.now) positions.old }
{
    let root = Position {
        depth: 0,
        side: Side::Max,
    };
    positions[0] = packed(0, root);
    let n = frame_count(table);
    let mut next: usize = 1;
    for node in 0..n {
        if next == n {
            break;
        }
        let end = next + child_count(table, node);
        let position = position_at(positions, node);
        fill_children(table, positions, next, end, node, position);
        next = end;
    }
}

// The entries of the children from `from` up to `to` of the node `parent`, which stands at `position`.
fn fill_children(
    table: &[u8],
    positions: &mut [u32],
    from: usize,
    to: usize,
    parent: usize,
    position: Position,
)
    requires from_le_to { (from ≤ to) × (to ≤ frames table.now) × (to ≤ length positions.old) }
    requires parent_le_max_nodes { (parent ≤ max_nodes) × (position.depth < max_nodes) }
    ensures { positions.new
        ≡ stored (λ k. packed_of parent (child_position table.now k position)) from (to - from)
        positions.old }
{
    for child in from..to {
        positions[child] = packed(parent, child_position(table, child, position));
    }
}

// A parent and a position in one number.
fn packed(parent: usize, position: Position) -> u32
    requires { (parent ≤ max_nodes) × (position.depth ≤ max_nodes) }
    ensures { result ≡ packed_of parent position }
{
    let side = position.side;
    (parent as u32 * DEPTHS + position.depth) * SIDES + side_number(side)
}

// The number that stands for a side.
fn side_number(side: Side) -> u32
    ensures { (result ≡ side_number side) × (result < 2) }
{
    match side {
        Side::Max => 0,
        Side::Min => 1,
    }
}

// The parent of a node; the root's is 0.
pub fn parent_at(positions: &[u32], node: usize) -> usize
    requires { node < length positions.now }
    ensures { result ≡ parent_in positions.now node }
{
    (positions[node] / SIDES / DEPTHS) as usize
}

// The depth of a node.
pub fn depth_at(positions: &[u32], node: usize) -> u32
    requires { node < length positions.now }
    ensures { result ≡ depth_in positions.now node }
{
    positions[node] / SIDES % DEPTHS
}

// Who moves at a node.
pub fn side_at(positions: &[u32], node: usize) -> Side
    requires { node < length positions.now }
    ensures { result ≡ side_in positions.now node }
{
    if positions[node] % SIDES == 0 {
        Side::Max
    } else {
        Side::Min
    }
}

// A node's position.
fn position_at(positions: &[u32], node: usize) -> Position
    requires { node < length positions.now }
    ensures { result ≡ position_in positions.now node }
{
    let depth = depth_at(positions, node);
    let side = side_at(positions, node);
    Position { depth, side }
}
