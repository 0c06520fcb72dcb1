// Evaluating leaves, and the bounds of every node that follow from the evaluated ones.
#![tactic(auto)]

ghost use Rattle.std.specs.Prelude.{[], ◌∷◌, ◌≡◌, ℕ, ◌+◌, ◌-◌, ◌<◌, ◌≤◌, length, get_or, set};
ghost use Rattle.gametree.specs.Trees.{least, greatest};
ghost use Rattle.table.specs.Frame.{max_nodes, frames, two_bytes};
ghost use Rattle.table.specs.Position.{depth_of};
ghost use Rattle.table.specs.Tree.{valuation};
ghost use Rattle.table.specs.Formed.{WellFormed, ChildOf};
ghost use Rattle.table_positions.specs.Buffer.{written};
ghost use Rattle.table_positions.specs.Engine.Positions.{Positioned};
ghost use Rattle.certificate_bounds.specs.Marks.{marked};
ghost use Rattle.certificate_bounds.specs.Engine.Evaluable.{Evaluable};
ghost use Rattle.certificate_bounds.specs.Engine.Progress.{progress, evaluate_all, Listable};
ghost use Rattle.certificate_bounds.specs.Engine.Evaluations.{progress_of, SameBuffers};
ghost use Rattle.certificate_bounds.specs.Engine.Ranges.{best_in};
ghost use Rattle.certificate_bounds.specs.Engine.Bounds.{bound_of, bounds_of, leaf_bounds};

use gametree::{Side, better};
use table::{GREATEST, LEAST, child_count, first_child, frame_count, leaf_score};
use table_positions::{depth_at, side_at};

// The one routine from which a search gets a leaf's score, for the certificate and the root move too: the leaf's mark
// is then 1, and every other mark is as it was.
fn read_leaf(table: &[u8], evaluated: &mut [u8], node: usize, depth: u32) -> u32
    requires node_bound { (node < frames table.now) × (node < length evaluated.old) }
    requires depth_value { (depth ≡ depth_of table.now node) × (depth ≤ max_nodes) }
    ensures value { (result ≡ valuation table.now node) × (result < two_bytes) }
    ensures evaluated_after { evaluated.new ≡ set evaluated.old node 1 }
{
    evaluated[node] = 1;
    leaf_score(table, node, depth)
}

// Evaluates a leaf that has no mark yet: as long as marks stay, no leaf is evaluated twice. `checks/doors` shows that a
// search has no other way to a score.
pub fn evaluate(table: &[u8], evaluated: &mut [u8], node: usize, depth: u32) -> u32
    requires { Evaluable table.now evaluated.old node depth }
    ensures value { (result ≡ valuation table.now node) × (result < two_bytes) }
    ensures evaluated_after { evaluated.new ≡ set evaluated.old node 1 }
{
    read_leaf(table, evaluated, node, depth)
}

// The evaluations of a search so far: the marks of the leaves, their numbers in the order of their evaluation, and how
// many they are. Marks and list are lent by the caller.
#[derive(Drop)]
pub struct Evaluations<'a> {
    pub marks: &'a mut [u8],
    pub order: &'a mut [u16],
    pub leaves: usize,
}

impl Evaluations<'_> {
    // Evaluates a leaf, counts it, and appends its number to the list.
    pub fn evaluate(&mut self, table: &[u8], node: usize, depth: u32) -> u32
        requires evaluable { Evaluable table.now self.old.marks.now node depth }
        requires listable { Listable table.now (progress_of self.old) }
        ensures value { (result ≡ valuation table.now node) × (result < two_bytes) }
        ensures progress { progress_of self.new ≡ evaluate_all (progress_of self.old) (node ∷ []) }
        ensures same_buffers { SameBuffers self.old self.new }
    {
        let score = evaluate(table, self.marks, node, depth);
        self.order[self.leaves] = node as u16;
        self.leaves += 1;
        score
    }
}

// The first n marks become 0.
pub fn clear(evaluated: &mut [u8], n: usize)
    requires { n ≤ length evaluated.old }
    ensures { evaluated.new ≡ written (λ k. 0) n evaluated.old }
{
    evaluated[..n].fill(0);
}

// The two bounds of a node.
#[derive(Clone, Copy)]
struct Interval {
    low: u32,
    high: u32,
}

// The bounds of every node, from the leaves up.
pub fn fill_bounds(
    table: &[u8],
    positions: &[u32],
    evaluated: &mut [u8],
    lows: &mut [u32],
    highs: &mut [u32],
)
    requires well_formed { (WellFormed table.now) × (Positioned table.now positions.now)
        × (frames table.now ≤ length evaluated.old) }
    requires table_in_bounds { (frames table.now ≤ length lows.old) × (frames table.now ≤ length highs.old) }
    ensures lows_after { lows.new
        ≡ written (bound_of table.now (marked evaluated.old) least) (frames table.now)
        lows.old }
    ensures highs_after { highs.new
        ≡ written (bound_of table.now (marked evaluated.old) greatest)
        (frames table.now) highs.old }
    ensures evaluated_unchanged { evaluated.new ≡ evaluated.old }
{
    for node in (0..frame_count(table)).rev() {
        let bounds = node_bounds(table, positions, evaluated, lows, highs, node);
        lows[node] = bounds.low;
        highs[node] = bounds.high;
    }
}

// The bounds of one node: a leaf's own, or the best of its children's.
fn node_bounds(
    table: &[u8],
    positions: &[u32],
    evaluated: &mut [u8],
    lows: &[u32],
    highs: &[u32],
    node: usize,
) -> Interval
    requires well_formed { (WellFormed table.now) × (Positioned table.now positions.now)
        × (frames table.now ≤ length evaluated.old) }
    requires node_bound { (node < frames table.now) × (frames table.now ≤ length lows.now)
        × (frames table.now ≤ length highs.now) }
    requires by_index { (k : ℕ) → ChildOf table.now node k
        → get_or lows.now k 0 ≡ bound_of table.now (marked evaluated.old) least k }
    requires by_index_2 { (k : ℕ) → ChildOf table.now node k
        → get_or highs.now k 0 ≡ bound_of table.now (marked evaluated.old) greatest k }
    ensures value { result ≡ bounds_of table.now (marked evaluated.old) node }
    ensures evaluated_unchanged { evaluated.new ≡ evaluated.old }
{
    let count = child_count(table, node);
    if count == 0 {
        return leaf_bounds(table, evaluated, node, depth_at(positions, node));
    }
    let first = first_child(table, node);
    let end = first + count;
    let side = side_at(positions, node);
    let low = best(lows, first, end, side);
    let high = best(highs, first, end, side);
    Interval { low, high }
}

// The bounds of a leaf: its score if it is marked, else the least and the greatest score.
fn leaf_bounds(table: &[u8], evaluated: &mut [u8], node: usize, depth: u32) -> Interval
    requires node_bound { (node < frames table.now) × (node < length evaluated.old) }
    requires depth_value { (depth ≡ depth_of table.now node) × (depth ≤ max_nodes) }
    ensures value { result ≡ leaf_bounds table.now (marked evaluated.old) node }
    ensures evaluated_unchanged { evaluated.new ≡ evaluated.old }
{
    if evaluated[node] == 1 {
        let score = read_leaf(table, evaluated, node, depth);
        Interval {
            low: score,
            high: score,
        }
    } else {
        Interval {
            low: LEAST,
            high: GREATEST,
        }
    }
}

// The best of the bounds from `from` up to `to` for a side.
pub fn best(bounds: &[u32], from: usize, to: usize, side: Side) -> u32
    requires { (from < to) × (to ≤ length bounds.now) }
    ensures { result ≡ best_in side (λ k. get_or bounds.now k 0) from (to - (from + 1)) }
{
    let last = to - 1;
    let mut value = bounds[last];
    for at in (from..last).rev() {
        value = better(side, bounds[at], value);
    }
    value
}
