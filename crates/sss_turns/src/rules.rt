// The five rules (SPEC 10.3): what replaces the state that is taken.
ghost use Rattle.std.specs.Prelude.{◌≡◌, false, [], ◌∷◌, ◌<◌, ◌≤◌, min, length};
ghost use Rattle.gametree.specs.Trees.{greatest};
ghost use Rattle.table.specs.Frame.{max_nodes, frames, child_count};
ghost use Rattle.table.specs.Tree.{valuation};
ghost use Rattle.certificate_bounds.specs.Marks.{marked};
ghost use Rattle.certificate_bounds.specs.Engine.Progress.{evaluate_all, Listable};
ghost use Rattle.certificate_bounds.specs.Engine.Evaluations.{progress_of, SameBuffers};
ghost use Rattle.table_positions.specs.Engine.Positions.{Positioned};
ghost use Rattle.sss_turns.specs.Engine.Rules.{one as one_of, of_inner, of_child, of_state};
ghost use Rattle.sss_turns.specs.Engine.Turn.{new_leaves};
ghost use Rattle.sss_turns.specs.Engine.Ready.{Replaceable};

use certificate_bounds::Evaluations;
use gametree::{Side, better};
use sss_states::{Change, State, Status};
use table::{child_count, first_child};
use table_positions::{depth_at, parent_at, side_at};

// What replaces a state.
pub fn of_state(
    table: &[u8],
    positions: &[u32],
    evaluations: &mut Evaluations<'_>,
    entry: State,
    merit: u32,
) -> Change
    requires { Replaceable table.now positions.now (progress_of evaluations.old) entry merit }
    ensures value { result ≡ of_state table.now entry.node merit entry.status }
    ensures progress { progress_of evaluations.new
        ≡ evaluate_all (progress_of evaluations.old) (new_leaves table.now entry) }
    ensures same_buffers { SameBuffers evaluations.old evaluations.new }
{
    let node = entry.node as usize;
    match entry.status {
        Status::Live => {
            let count = child_count(table, node);
            if count == 0 {
                of_leaf(table, positions, evaluations, node, merit)
            } else {
                of_inner(table, node, count, side_at(positions, node), merit)
            }
        }
        Status::Solved => {
            let parent = parent_at(positions, node);
            of_child(table, node, parent, side_at(positions, parent), merit)
        }
    }
}

// One new state.
fn one(node: usize, first: usize, status: Status, score: u32) -> Change
    ensures { result ≡ one_of node first status score }
{
    Change {
        node,
        first,
        count: 1,
        status,
        score,
    }
}

// A LIVE leaf is evaluated, and SOLVED with the lesser of its merit and its score.
fn of_leaf(
    table: &[u8],
    positions: &[u32],
    evaluations: &mut Evaluations<'_>,
    node: usize,
    merit: u32,
) -> Change
    requires positioned { Positioned table.now positions.now }
    requires node_bound { (node < frames table.now) × (child_count table.now node ≡ 0) × (merit ≤ greatest) }
    requires node_in_bounds { (node < length evaluations.old.marks.now)
        × (marked evaluations.old.marks.now node ≡ false) }
    requires listable { Listable table.now (progress_of evaluations.old) }
    ensures value { result ≡ one_of node node Status.Solved (min merit (valuation table.now node)) }
    ensures progress { progress_of evaluations.new ≡ evaluate_all (progress_of evaluations.old) (node ∷ []) }
    ensures same_buffers { SameBuffers evaluations.old evaluations.new }
{
    let score = evaluations.evaluate(table, node, depth_at(positions, node));
    one(node, node, Status::Solved, better(Side::Min, merit, score))
}

// Of a LIVE Max node all children are LIVE, of a Min node the first.
fn of_inner(table: &[u8], node: usize, count: usize, side: Side, merit: u32) -> Change
    requires { node < frames table.now }
    ensures { result ≡ of_inner table.now node merit side count }
{
    let first = first_child(table, node);
    match side {
        Side::Max => Change {
            node,
            first,
            count,
            status: Status::Live,
            score: merit,
        },
        Side::Min => one(node, first, Status::Live, merit),
    }
}

// Under Max the parent of a SOLVED state is SOLVED; under Min the next sibling is LIVE, after the last the parent is
// SOLVED.
fn of_child(table: &[u8], node: usize, parent: usize, side: Side, merit: u32) -> Change
    requires { (node < max_nodes) × (parent < frames table.now) }
    ensures { result ≡ of_child table.now node merit parent side }
{
    match side {
        Side::Max => one(parent, parent, Status::Solved, merit),
        Side::Min => {
            let sibling = node + 1;
            if sibling < first_child(table, parent) + child_count(table, parent) {
                one(parent, sibling, Status::Live, merit)
            } else {
                one(parent, parent, Status::Solved, merit)
            }
        }
    }
}
