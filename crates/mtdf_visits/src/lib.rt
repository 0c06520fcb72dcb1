// The test of a node in MTD(f), and of what is below it: leaves are evaluated, and every node that was entered keeps
// the best of its children's lows and highs.
#![tactic(auto)]

ghost use Rattle.std.specs.Prelude.{[], ◌∷◌, ◌≡◌, ◌+◌, ◌-◌, ◌<◌, ◌≤◌, length, get_or, set};
ghost use Rattle.table.specs.Frame.{child_count};
ghost use Rattle.table.specs.Tree.{tree_at, valuation};
ghost use Rattle.certificate_bounds.specs.Engine.Evaluable.{Evaluable};
ghost use Rattle.certificate_bounds.specs.Engine.Evaluations.{progress_of};
ghost use Rattle.certificate_bounds.specs.Engine.Progress.{evaluate_all, Listable};
ghost use Rattle.certificate_bounds.specs.Engine.Ranges.{best_in};
ghost use Rattle.mtdf_visits.specs.Engine.Memory.{Long, VisitReady, VisitedBy, Entered, Looked};
ghost use Rattle.mtdf_visits.specs.Engine.Bounds.{memory_of, SameBuffers};

use certificate_bounds::{Evaluations, best};
use gametree::{Position, Side};
use mtd_memory::last_tried;
use table::{child_count, child_position, first_child};

// What MTD(f) remembers between its tests: the evaluations so far, and the low and the high of each node. All are lent
// by the caller.
#[derive(Drop)]
pub struct Bounds<'a, 'b> {
    // By `&mut`: held by value the proof does not close, since the kit loses the end of a loan in a struct in a struct.
    pub evaluations: &'a mut Evaluations<'b>,
    pub lows: &'a mut [u32],
    pub highs: &'a mut [u32],
}

impl Bounds<'_, '_> {
    // A test of a node, answered at once or entered: is the node not below the test?
    pub fn visit(&mut self, table: &[u8], node: usize, position: Position, test: u32) -> bool
        requires { VisitReady table.now (memory_of self.old) node position }
        ensures visited { VisitedBy table.now (tree_at table.now node) test (memory_of self.old)
            (memory_of self.new) result }
        ensures same_lengths { Long (memory_of self.old) (memory_of self.new) }
        ensures same_buffers { SameBuffers self.old self.new }
    {
        match self.look(table, node, position, test) {
            Some(answer) => answer,
            None => self.enter(table, node, position, test),
        }
    }

    // A look at a node, which has no answer where the node has to be entered: the node is below where its high is, and
    // not below where its low is not; any other is evaluated if it is a leaf, and else is open.
    pub fn look(&mut self, table: &[u8], node: usize, position: Position, test: u32) -> Option<bool>
        requires { VisitReady table.now (memory_of self.old) node position }
        ensures looked { Looked table.now node test (memory_of self.old) (memory_of self.new) result }
        ensures same_lengths { Long (memory_of self.old) (memory_of self.new) }
        ensures same_buffers { SameBuffers self.old self.new }
    {
        if self.highs[node] < test {
            return Some(false);
        }
        if test <= self.lows[node] {
            return Some(true);
        }
        if child_count(table, node) != 0 {
            return None;
        }
        let score = self.evaluate_leaf(table, node, position.depth);
        Some(test <= score)
    }

    // A test of a node's children from the left, entering only open ones, until one settles the node; the node's bounds
    // are then the best of theirs.
    pub fn enter(&mut self, table: &[u8], node: usize, position: Position, test: u32) -> bool
        requires visit_ready { VisitReady table.now (memory_of self.old) node position }
        requires node_nonzero { 0 < child_count table.now node }
        ensures entered { Entered table.now (tree_at table.now node) test (memory_of self.old)
            (memory_of self.new) result }
        ensures same_lengths { Long (memory_of self.old) (memory_of self.new) }
        ensures same_buffers { SameBuffers self.old self.new }
    {
        let side = position.side;
        let first = first_child(table, node);
        let end = first + child_count(table, node);
        let mut child = first;
        // No `for`: the last child's answer ends the loop, and behind a `for` there would have to be one more.
        let answer = loop {
            let below = child_position(table, child, position);
            let answer = match self.look(table, child, below, test) {
                Some(answer) => answer,
                None => self.enter(table, child, below, test),
            };
            child += 1;
            if last_tried(side, answer, child, end) {
                break answer;
            }
        };
        back_up(self.lows, node, first, end, side);
        back_up(self.highs, node, first, end, side);
        answer
    }

    // A leaf without a mark is evaluated, and its score is both of its bounds from then on.
    pub fn evaluate_leaf(&mut self, table: &[u8], node: usize, depth: u32) -> u32
        requires evaluable { Evaluable table.now self.old.evaluations.now.marks.now node depth }
        requires listable { Listable table.now (progress_of self.old.evaluations.now) }
        requires node_in_bounds { (node < length self.old.lows.now) × (node < length self.old.highs.now) }
        ensures value { result ≡ valuation table.now node }
        ensures progress { progress_of self.new.evaluations.now
            ≡ evaluate_all (progress_of self.old.evaluations.now) (node ∷ []) }
        ensures lows_after { self.new.lows.now ≡ set self.old.lows.now node result }
        ensures highs_after { self.new.highs.now ≡ set self.old.highs.now node result }
        ensures same_buffers { SameBuffers self.old self.new }
    {
        let score = self.evaluations.evaluate(table, node, depth);
        self.lows[node] = score;
        self.highs[node] = score;
        score
    }
}

// A node's bound becomes the best of its children's, from `first` up to `end`.
fn back_up(bounds: &mut [u32], node: usize, first: usize, end: usize, side: Side)
    requires { (node < length bounds.old) × (first < end) × (end ≤ length bounds.old) }
    ensures { bounds.new ≡ set bounds.old node (best_in side (λ k. get_or bounds.old k 0) first (end - (first + 1))) }
{
    bounds[node] = best(bounds, first, end, side);
}
