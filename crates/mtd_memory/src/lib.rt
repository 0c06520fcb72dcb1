// MTD's memory, marks, highs and what was found not below, over node numbers: what a pass sees of a node, what it
// does at a leaf, and what a node keeps.
#![tactic(auto)]

ghost use Rattle.std.specs.Prelude.{◌≡◌, true, false, cond, ◌||◌, [], ◌∷◌, ℕ, ◌+◌, ◌-◌, ◌<◌, ◌≤◌, leb, eqb};
ghost use Rattle.std.specs.Prelude.{length, get_or, set, IfSome};
ghost use Rattle.gametree.specs.Mtd.{settles as settles_of};
ghost use Rattle.table.specs.Frame.{max_nodes, frames, child_count};
ghost use Rattle.table.specs.Position.{depth_of};
ghost use Rattle.table.specs.Tree.{valuation};
ghost use Rattle.certificate_bounds.specs.Marks.{marked, ones};
ghost use Rattle.certificate_bounds.specs.Engine.Progress.{evaluate_all, Listable};
ghost use Rattle.certificate_bounds.specs.Engine.Evaluations.{progress_of};
ghost use Rattle.mtd_memory.specs.Engine.Memory.{memory_of, SameArrays, VisitReady, Looked, PassedOver, place_or};
ghost use Rattle.mtd_memory.specs.Engine.Memory.{skip_at, skip_entry, NamesTwo, lead_entry, ToTry, Alone, KeepsBest};
ghost use Rattle.mtd_memory.specs.Engine.Memory.{FoundBelow, Siblings, Best};

use certificate_bounds::{Evaluations, best};
use gametree::{Position, Side, better};
use std::ops::Range;
use table::child_count;

// An entry of `not_below` from this one on names a leading child.
const LEADS: u16 = 256;

// A node with fewer children names no leading one: to look at each of them costs less.
const FEW: usize = 4;

// What MTD's passes keep: the evaluations, each node's high, and an entry for each inner node. The entry is 1 where a
// pass found the node not below its test; for a Min node else 0, or one more than the number of its leading children
// to skip; for a Max node else 0, or 256 * (1 + the leading child's place) + the second one's place. Enums would take
// more of the stack for 4096 nodes, and more steps to look at.
#[derive(Drop)]
pub struct Memory<'a, 'b> {
    pub evaluations: &'a mut Evaluations<'b>,
    pub highs: &'a mut [u32],
    pub not_below: &'a mut [u16],
}

impl Memory<'_, '_> {
    // A look at a node gives its answer, true where it is not below the test, or nothing where the pass has to enter
    // it. A leaf is compared with the test, and an inner node is below where its high is, and not below where a pass
    // has found it so.
    pub fn look(&mut self, table: &[u8], node: usize, position: Position, test: u32) -> Option<bool>
        requires { VisitReady table.now (memory_of self.old) node position }
        ensures looked { Looked table.now node test (memory_of self.old) (memory_of self.new) result }
        ensures not_below_after { self.new.not_below.now ≡ self.old.not_below.now }
        ensures same_arrays { SameArrays self.old self.new }
    {
        if child_count(table, node) == 0 {
            return Some(self.visit_leaf(table, node, position.depth, test));
        }
        if self.highs[node] < test {
            return Some(false);
        }
        if self.not_below[node] == 1 {
            return Some(true);
        }
        None
    }

    // A pass at a leaf: its score, which is its high once it is evaluated, is compared with the test. A leaf with a
    // mark is not evaluated again.
    pub fn visit_leaf(&mut self, table: &[u8], node: usize, depth: u32, test: u32) -> bool
        requires node_bound { (node < frames table.now) × (node < length self.old.evaluations.now.marks.now)
            × (node < length self.old.highs.now) }
        requires node_value { (child_count table.now node ≡ 0) × (depth ≡ depth_of table.now node)
            × (depth ≤ max_nodes) }
        requires node_value_2 { marked self.old.evaluations.now.marks.now node ≡ true
            → get_or self.old.highs.now node 0 ≡ valuation table.now node }
        requires listable { Listable table.now (progress_of self.old.evaluations.now) }
        ensures answer_value { result ≡ leb test (valuation table.now node) }
        ensures order_after { progress_of self.new.evaluations.now
            ≡ evaluate_all (progress_of self.old.evaluations.now)
            (cond (marked self.old.evaluations.now.marks.now node) [] (node ∷ [])) }
        ensures evaluated_after { self.new.evaluations.now.marks.now ≡ set self.old.evaluations.now.marks.now node 1 }
        ensures highs_after { self.new.highs.now ≡ set self.old.highs.now node (valuation table.now node) }
        ensures not_below_after { self.new.not_below.now ≡ self.old.not_below.now }
        ensures leaves_value { self.new.evaluations.now.leaves
            ≡ ones self.new.evaluations.now.marks.now (frames table.now) }
        ensures same_arrays { SameArrays self.old self.new }
    {
        if self.evaluations.marks[node] != 1 {
            self.highs[node] = self.evaluations.evaluate(table, node, depth);
        }
        test <= self.highs[node]
    }

    // The children of a node that a pass has to try: a Min node skips the leading ones that were found not below, and
    // a Max node tries the leading one alone, where the highs of all the others are below the test.
    pub fn to_try(&self, side: Side, node: usize, children: Range<usize>, test: u32) -> Range<usize>
        requires first_lt_end { (children.start < children.end) × (children.end ≤ length self.now.highs.now)
            × (node < length self.now.not_below.now) }
        requires node_bound { side ≡ Side.Min
            → children.start + skip_at self.now.not_below.now node < children.end }
        requires names_two { side ≡ Side.Max
            → NamesTwo self.now.highs.now children.start children.end (get_or self.now.not_below.now node 0) }
        ensures { ToTry side self.now.highs.now test children.start children.end
            (get_or self.now.not_below.now node 0) result }
    {
        let entry = self.not_below[node];
        match side {
            Side::Max => tried_by_max(self.highs, entry, children, test),
            Side::Min => children.start + entry.saturating_sub(1) as usize..children.end,
        }
    }

    // The next child to try, if there is one: under Max those whose highs are below the test are passed over.
    pub fn next_tried(&self, side: Side, mut children: Range<usize>, test: u32) -> Option<usize>
        requires { (children.start ≤ children.end) × (children.end ≤ length self.now.highs.now) }
        ensures place { PassedOver side self.now.highs.now test children.start children.end
            (place_or children.end result) }
        ensures inside { IfSome result (λ child. child < children.end) }
    {
        match side {
            Side::Max => first_not_below(self.highs, children, test),
            Side::Min => children.next(),
        }
    }

    // A node keeps the best of its children's highs, and their answer; `child` comes after the last child that was
    // tried.
    pub fn remember(
        &mut self,
        node: usize,
        side: Side,
        children: Range<usize>,
        tries: Range<usize>,
        child: usize,
        answer: bool,
    )
        requires siblings { Siblings self.old.highs.now children }
        requires node_lt_max_nodes { (node < max_nodes) × (node < length self.old.highs.now)
            × (node < length self.old.not_below.now) }
        requires found_below { side ≡ Side.Min → answer ≡ false
            → FoundBelow self.old.highs.now children.start children.end child }
        requires alone { side ≡ Side.Max → Alone self.old.highs.now children.start children.end
            (get_or self.old.not_below.now node 0) tries }
        ensures evaluations_after { self.new.evaluations.now ≡ self.old.evaluations.now }
        ensures highs_after { self.new.highs.now
            ≡ set self.old.highs.now node (get_or self.new.highs.now node 0) }
        ensures not_below_after { self.new.not_below.now
            ≡ set self.old.not_below.now node (get_or self.new.not_below.now node 0) }
        ensures keeps_best { KeepsBest side answer self.old.highs.now children.start children.end child
            (get_or self.new.highs.now node 0) (get_or self.new.not_below.now node 0) }
        ensures same_arrays { SameArrays self.old self.new }
    {
        let kept = self.kept_by(node, side, children, tries, child, answer);
        self.highs[node] = kept.high;
        self.not_below[node] = kept.entry;
    }

    // What a node keeps of its children.
    fn kept_by(
        &self,
        node: usize,
        side: Side,
        children: Range<usize>,
        tries: Range<usize>,
        child: usize,
        answer: bool,
    ) -> Kept
        requires siblings { Siblings self.now.highs.now children }
        requires node_bound { node < length self.now.not_below.now }
        requires found_below { side ≡ Side.Min → answer ≡ false
            → FoundBelow self.now.highs.now children.start children.end child }
        requires alone { side ≡ Side.Max → Alone self.now.highs.now children.start children.end
            (get_or self.now.not_below.now node 0) tries }
        ensures { KeepsBest side answer self.now.highs.now children.start children.end child
            result.high result.entry }
    {
        match side {
            Side::Max => kept_by_max(self.highs, self.not_below[node], children, tries, answer),
            Side::Min => kept_by_min(self.highs, children, child, answer),
        }
    }
}

// The children of a Max node that a pass has to try.
fn tried_by_max(highs: &[u32], entry: u16, children: Range<usize>, test: u32) -> Range<usize>
    requires first_lt_end { (children.start < children.end) × (children.end ≤ length highs.now) }
    requires names_two { NamesTwo highs.now children.start children.end entry }
    ensures { ToTry Side.Max highs.now test children.start children.end entry result }
{
    if entry < LEADS {
        return children;
    }
    if test <= highs[children.start + (entry % LEADS) as usize] {
        return children;
    }
    let to = children.start + (entry / LEADS) as usize;
    to - 1..to
}

// The first node of a range whose high is not below the test.
pub fn first_not_below(highs: &[u32], nodes: Range<usize>, test: u32) -> Option<usize>
    requires { (nodes.start ≤ nodes.end) × (nodes.end ≤ length highs.now) }
    ensures lower_bound { (nodes.start ≤ place_or nodes.end result) × (place_or nodes.end result ≤ nodes.end) }
    ensures by_index { (k : ℕ) → nodes.start ≤ k → k < place_or nodes.end result → get_or highs.now k 0 < test }
    ensures inside { IfSome result (λ node. node < nodes.end) }
{
    let first = nodes.start;
    let place = highs[first..nodes.end]
        .iter()
        .position(|high| test <= *high)?;
    Some(first + place)
}

// What a node keeps: its high, and its entry of `not_below`.
#[derive(Clone, Copy)]
pub struct Kept {
    pub high: u32,
    pub entry: u16,
}

// What a Min node keeps: below, the high of the child found below, and to skip the children before it.
fn kept_by_min(highs: &[u32], children: Range<usize>, child: usize, answer: bool) -> Kept
    requires siblings { Siblings highs.now children }
    requires found_below { answer ≡ false → FoundBelow highs.now children.start children.end child }
    ensures { KeepsBest Side.Min answer highs.now children.start children.end child result.high result.entry }
{
    if answer {
        let high = best(highs, children.start, children.end, Side::Min);
        return Kept { high, entry: 1 };
    }
    let entry = skip_entry(child - (children.start + 1));
    Kept {
        high: highs[child - 1],
        entry,
    }
}

// What a Max node keeps: where the leading child alone was tried, the greater of its high and the second one's.
fn kept_by_max(
    highs: &[u32],
    entry: u16,
    children: Range<usize>,
    tries: Range<usize>,
    answer: bool,
) -> Kept
    requires siblings { Siblings highs.now children }
    requires alone { Alone highs.now children.start children.end entry tries }
    ensures { (child : ℕ)
        → KeepsBest Side.Max answer highs.now children.start children.end child result.high result.entry }
{
    if entry < LEADS || tries.start + 1 != tries.end {
        return kept_of_all(highs, children, answer);
    }
    let lead = tries.start;
    let high = better(
        Side::Max,
        highs[lead],
        highs[children.start + (entry % LEADS) as usize],
    );
    if answer {
        return Kept { high, entry: 1 };
    }
    Kept { high, entry }
}

// What a Max node keeps where all its children may have been tried.
fn kept_of_all(highs: &[u32], children: Range<usize>, answer: bool) -> Kept
    requires siblings { Siblings highs.now children }
    ensures { (child : ℕ)
        → KeepsBest Side.Max answer highs.now children.start children.end child result.high result.entry }
{
    if answer {
        let high = best(highs, children.start, children.end, Side::Max);
        return Kept { high, entry: 1 };
    }
    if children.end - children.start < FEW {
        let high = best(highs, children.start, children.end, Side::Max);
        return Kept { high, entry: 0 };
    }
    let first = children.start;
    let two = two_best(highs, children);
    Kept {
        high: two.most,
        entry: lead_entry(two.lead - first, two.second - first),
    }
}

// The entry that names the leading child and the second one by their places.
fn lead_entry(lead: usize, second: usize) -> u16
    requires { (lead < 255) × (second < 255) }
    ensures { result ≡ lead_entry lead second }
{
    if lead == second {
        return 0;
    }
    ((lead + 1) * LEADS as usize + second) as u16
}

// The child with the greatest high, and the one with the greatest of the other highs, with these highs; the same child
// twice, and 0, where there is no other high.
#[derive(Clone, Copy)]
struct TwoBest {
    lead: usize,
    second: usize,
    most: u32,
    more: u32,
}

impl TwoBest {
    // The two best children where one more is looked at.
    fn with_child(self, highs: &[u32], child: usize) -> TwoBest
        requires { child < length highs.now }
        ensures { (first : ℕ) → Best highs.now first child self → Best highs.now first (child + 1) result }
    {
        let high = highs[child];
        if high <= self.more {
            return self;
        }
        if high <= self.most {
            return TwoBest {
                second: child,
                more: high,
                ..self
            };
        }
        TwoBest {
            lead: child,
            second: self.lead,
            most: high,
            more: self.most,
        }
    }
}

// The two best children by their highs.
fn two_best(highs: &[u32], children: Range<usize>) -> TwoBest
    requires { (children.start < children.end) × (children.end ≤ length highs.now) }
    ensures { Best highs.now children.start children.end result }
{
    let first = children.start;
    let mut two = TwoBest {
        lead: first,
        second: first,
        most: highs[first],
        more: 0,
    };
    for child in first + 1..children.end {
        two = two.with_child(highs, child);
    }
    two
}

// The entry that says to skip so many children.
fn skip_entry(count: usize) -> u16
    requires { count < 255 }
    ensures { result ≡ skip_entry count }
{
    if count == 0 { 0 } else { (count + 1) as u16 }
}

// Is a child with this answer the last one to try, because it settles its parent or there is no other?
pub fn last_tried(side: Side, answer: bool, child: usize, end: usize) -> bool
    ensures { result ≡ eqb child end || settles_of side answer }
{
    child == end || settles(side, answer)
}

// Does a child's answer settle its parent? At Max "not below" does, at Min "below".
pub fn settles(side: Side, answer: bool) -> bool
    ensures { result ≡ settles_of side answer }
{
    match side {
        Side::Max => answer,
        Side::Min => !answer,
    }
}
