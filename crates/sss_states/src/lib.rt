// The states of SSS*, and their front: for each node that is, or has below it, a listed state, the greatest merit in
// its subtree and the child to go down to, packed in one u32.
#![tactic(auto)]

ghost use Rattle.std.specs.Prelude.{◌≡◌, ◌+◌, ◌-◌, ◌≤◌, ◌<◌, length, fold, max, position, leb, MatchOption};
ghost use Rattle.gametree.specs.Trees.{greatest};
ghost use Rattle.table.specs.Frame.{max_nodes, frames};
ghost use Rattle.table.specs.Position.{parent_of};
ghost use Rattle.sss_states.specs.Entry.{blank as blank_entry};
ghost use Rattle.sss_states.specs.Engine.Kept.{best_at, link_at, packed_entry as packed_of, leftmost_best, chosen_of};
ghost use Rattle.sss_states.specs.Engine.Kept.{needs_refresh, renewed};
ghost use Rattle.sss_states.specs.Engine.Kept.{refreshed, descended, changed, Puttable};
ghost use Rattle.sss_states.specs.Engine.Fronts.{SameFront, FrontFits};

use gametree::Side;
use table::{MAX_NODES, child_count, first_child};
use table_positions::{parent_at, side_at};

// LIVE and SOLVED (SPEC 10.1).
#[derive(Clone, Copy, Debug, PartialEq, Eq)]
pub enum Status {
    Live,
    Solved,
}

// An entry of the lent list (SPEC 10.6): a state, with its merit as a value.
#[derive(Clone, Copy, Debug, PartialEq, Eq)]
pub struct State {
    pub node: u16,
    pub status: Status,
    pub merit: i32,
}

// The entry that a search leaves for each node: node 0, LIVE, merit 0.
pub fn blank() -> State
    ensures { result ≡ blank_entry }
{
    State {
        node: 0,
        status: Status::Live,
        merit: 0,
    }
}

// What replaces a state: `count` nodes from `first` on get a state with this status and score; nothing changes but at
// and below `node`.
#[derive(Clone, Copy)]
pub struct Change {
    pub node: usize,
    pub first: usize,
    pub count: usize,
    pub status: Status,
    pub score: u32,
}

// The radix of a packed entry: its link is the number of a node.
const LINKS: u32 = MAX_NODES as u32;

// The front of a search over a checked table: an entry for each node, beside the table and the positions of its nodes,
// which are only read. The entries are lent.
#[derive(Drop)]
pub struct Front<'a> {
    pub table: &'a [u8],
    pub positions: &'a [u32],
    pub entries: &'a mut [u32],
}

impl Front<'_> {
    // The new states' entries, and the node's, which goes down to the first of them.
    pub fn put(&mut self, change: Change, merit: u32)
        requires { Puttable merit change self.old.entries.now }
        ensures entries { self.new.entries.now ≡ changed merit change self.old.entries.now }
        ensures same_front { SameFront self.old self.new }
    {
        let first = change.first;
        let end = first + change.count;
        self.entries[change.node] = packed(merit, first);
        self.entries[first..end].fill(packed(change.score, 0));
    }

    // Recomputes the greatest merits of the ancestors of a node whose merit fell; returns the first node whose greatest
    // merit is unchanged, or the root.
    pub fn refresh_ancestors(&mut self, node: usize, merit: u32) -> usize
        requires fits { FrontFits self.old }
        requires node_bound { node < frames self.old.table.now }
        ensures value { result ≡ (refreshed node self.old.table.now merit self.old.entries.now node).top }
        ensures entries { self.new.entries.now
            ≡ (refreshed node self.old.table.now merit self.old.entries.now node).front }
        ensures same_front { SameFront self.old self.new }
    {
        let mut at = node;
        // Up the tree, as far as it takes.
        while self.needs_refresh(at, merit) {
            at = self.refresh_parent(at);
        }
        at
    }

    // Makes the entry of a node's parent anew from its children's; returns the parent.
    fn refresh_parent(&mut self, node: usize) -> usize
        requires fits { FrontFits self.old }
        requires node_bound { (0 < node) × (node < frames self.old.table.now) }
        ensures value { result ≡ parent_of self.old.table.now node }
        ensures entries { self.new.entries.now
            ≡ renewed self.old.table.now self.old.entries.now (parent_of self.old.table.now node) }
        ensures same_front { SameFront self.old self.new }
    {
        let parent = parent_at(self.positions, node);
        let child = self.chosen(parent);
        self.entries[parent] = packed(self.best_at(child), child);
        parent
    }

    // The state to take, from a node down by the links.
    pub fn descend(&self, node: usize) -> usize
        requires fits { FrontFits self.now }
        requires node_bound { node < frames self.now.table.now }
        ensures { result ≡ descended (frames self.now.table.now - node) self.now.entries.now node }
    {
        let mut at = node;
        // Down the tree, to the state that the links lead to.
        while let Some(child) = self.child_at(at) {
            at = child;
        }
        at
    }

    // Is a node other than the root below this merit?
    fn needs_refresh(&self, node: usize, merit: u32) -> bool
        requires { node < length self.now.entries.now }
        ensures { result ≡ needs_refresh self.now.entries.now merit node }
    {
        node != 0 && self.best_at(node) < merit
    }

    // The child that an expanded node goes down to, from the merits of its children.
    fn chosen(&self, node: usize) -> usize
        requires fits { FrontFits self.now }
        requires node_bound { node < frames self.now.table.now }
        ensures { result ≡ chosen_of self.now.table.now self.now.entries.now node }
    {
        let count = child_count(self.table, node);
        if count == 0 {
            return 0;
        }
        match side_at(self.positions, node) {
            Side::Max => self.leftmost_best(first_child(self.table, node), count),
            Side::Min => self.link_at(node),
        }
    }

    // The leftmost of `count` nodes of greatest merit: the first with that of the greatest entry.
    fn leftmost_best(&self, first: usize, count: usize) -> usize
        requires { (0 < count) × (first + count ≤ length self.now.entries.now)
            × (length self.now.entries.now ≤ max_nodes) }
        ensures { result ≡ leftmost_best self.now.entries.now first (count - 1) }
    {
        let children = &self.entries[first..first + count];
        let greatest = greatest_entry(children);
        let least = greatest / LINKS * LINKS;
        first + first_from(children, least).unwrap_or(0)
    }

    // The greatest merit at and below a node.
    fn best_at(&self, node: usize) -> u32
        requires { node < length self.now.entries.now }
        ensures { result ≡ best_at self.now.entries.now node }
    {
        self.entries[node] / LINKS
    }

    // The child to go down to; 0 where the node is on the list.
    fn link_at(&self, node: usize) -> usize
        requires { node < length self.now.entries.now }
        ensures { result ≡ link_at self.now.entries.now node }
    {
        (self.entries[node] % LINKS) as usize
    }

    // The child to go down to, where the node itself is not on the list.
    fn child_at(&self, node: usize) -> Option<usize>
        requires { node < length self.now.entries.now }
        ensures { MatchOption result (link_at self.now.entries.now node ≡ 0)
            (λ c. (c ≡ link_at self.now.entries.now node) × (0 < c)) }
    {
        match self.link_at(node) {
            0 => None,
            child => Some(child),
        }
    }
}

// The greatest of some entries.
fn greatest_entry(entries: &[u32]) -> u32
    ensures { result ≡ fold max 0 entries.now }
{
    entries
        .iter()
        .fold(0, |greatest, entry| greatest.max(*entry))
}

// The place of the first entry that is no less than this.
fn first_from(entries: &[u32], least: u32) -> Option<usize>
    ensures { result ≡ position (leb least) entries.now }
{
    entries.iter().position(|entry| least <= *entry)
}

// A packed entry.
fn packed(best: u32, link: usize) -> u32
    requires { (best ≤ greatest) × (link < max_nodes) }
    ensures { result ≡ packed_of best link }
{
    best * LINKS + link as u32
}
