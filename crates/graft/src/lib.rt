// Grafting: the tree of a second table in place of a leaf of a first.
#![tactic(auto)]

ghost use Rattle.std.specs.Prelude.{◌≡◌, ◌++◌, ℕ, ◌+◌, ◌*◌, ◌<◌, ◌≤◌, length, drop};
ghost use Rattle.std.proofs.lemmas.List.Edits.{sets};
ghost use Rattle.table.specs.Frame.{frame_size, max_nodes, two_bytes, frames};
ghost use Rattle.table.specs.Rejection.{◌leaving◌};
ghost use Rattle.graft_questions.specs.Questions.{graft_size};
ghost use Rattle.graft_questions.specs.Graftable.{Graftable};
ghost use Rattle.graft.specs.Sources.{root_for};
ghost use Rattle.graft.specs.Table.{first_number, renumbered, graft_table};
ghost use Rattle.graft.specs.Outcome.{graft_outcome};
ghost use Rattle.graft.specs.Engine.Joined.{Joined, SourceIn};
ghost use Rattle.graft.specs.Engine.Queue.{with_first, Queued};

use graft_questions::ask;
use table::{FRAME_SIZE, Rejection, child_count, first_child, frame_count, put_two_bytes};

// The parts of a graft: two tables, and the leaf of the first that gives way to the second's tree. A source is the
// number of a node in the first table followed by the second; `root` is the second's root as a source.
#[derive(Clone, Copy)]
struct Parts<'a> {
    first: &'a [u8],
    node: usize,
    second: &'a [u8],
    root: usize,
    ghost rooted: { root ≡ frames first.now },
}

// A node of one of the two tables, and the source that this table's root is.
#[derive(Clone, Copy)]
struct Source<'a> {
    table: &'a [u8],
    node: usize,
    root: usize,
}

impl<'a> Parts<'a> {
    // The second root for the leaf that gives way, every other source as it is.
    fn replaced(&self, source: usize) -> usize
        ensures { (result ≡ root_for self.now.first.now self.now.node source)
            × (result ≤ self.now.root + source) }
    {
        if source == self.node {
            self.root
        } else {
            source
        }
    }

    // The node that a source is.
    fn source(&self, number: usize) -> Source<'a>
        requires { Joined self.now.first.now self.now.second.now number }
        ensures { SourceIn self.now.first.now self.now.second.now number result.table.now
            result.node result.root }
    {
        if number < self.root {
            Source {
                table: self.first,
                node: number,
                root: 0,
            }
        } else {
            Source {
                table: self.second,
                node: number - self.root,
                root: self.root,
            }
        }
    }
}

// Puts the second tree in place of the first's named leaf: the number of nodes of the result, whose table then
// stands at the buffer's front, or the first rejection, and then the buffer is as it was.
pub fn graft(first: &[u8], node: usize, second: &[u8], res: &mut [u8]) -> Result<usize, Rejection>
    ensures { result leaving res.new
        ≡ graft_outcome first.now node second.now res.old }
{
    let size = ask(first, node, second, res.len())?;
    write_frames(first, node, second, res, size);
    Ok(size)
}

// The result's table, node by node in breadth-first order; it has `size` nodes. Until a node is visited, the first two
// bytes of its frame hold the number of its source, so the result itself is the queue.
fn write_frames(first: &[u8], node: usize, second: &[u8], res: &mut [u8], size: usize)
    requires graftable { Graftable first.now node second.now }
    requires size_value { (size ≡ graft_size first.now second.now) × (frame_size * size ≤ length res.old) }
    ensures { res.new ≡ graft_table first.now node second.now
        ++ drop (frame_size * size) res.old }
{
    let root = frame_count(first);
    let parts = Parts {
        first,
        node,
        second,
        root,
    };
    put_first_child(res, 0, parts.replaced(0));
    let mut next: usize = 1;
    for i in 0..size {
        let source = parts.source(first_child(res, i));
        let count = child_count(source.table, source.node);
        let from = source.root + first_child(source.table, source.node);
        let child = first_number(count, next);
        put_frame(source.table, res, source.node, i, child);
        put_children(&parts, res, next, count, from);
        next += count;
    }
}

// The first child of a node with so many children, numbered from `next` on: a leaf's is 0.
fn first_number(count: usize, next: usize) -> usize
    ensures { (result ≡ first_number count next) × (result ≤ next) }
{
    if count == 0 { 0 } else { next }
}

// The frame of the result's node i: that of this node, with another first child. All four bytes that stay the same are
// read before any is written, so that the compiler can copy them at once.
fn put_frame(table: &[u8], res: &mut [u8], node: usize, i: usize, child: usize)
    requires { (node < frames table.now) × (i < frames res.old) × (child < two_bytes) }
    ensures { res.new
        ≡ sets res.old (frame_size * i) (renumbered table.now node child) }
{
    put_first_child(res, i, child);
    let from = FRAME_SIZE * node;
    let count = table[from + 2];
    let byte_3 = table[from + 3];
    let high = table[from + 4];
    let low = table[from + 5];
    let at = FRAME_SIZE * i;
    res[at + 2] = count;
    res[at + 3] = byte_3;
    res[at + 4] = high;
    res[at + 5] = low;
}

// Queues the sources of `count` children, the nodes from `next` on: the sources from `from` on, with the second root in
// place of the leaf.
fn put_children(parts: &Parts, res: &mut [u8], next: usize, count: usize, from: usize)
    requires count_bound { (next + count ≤ frames res.old) × (from < max_nodes + two_bytes) }
    requires by_index { (c : ℕ) → c < count → root_for parts.now.first.now parts.now.node (from + c) < two_bytes }
    ensures { Queued (λ c. root_for parts.now.first.now parts.now.node (from + c)) next count
        res.old res.new }
{
    for c in 0..count {
        put_first_child(res, next + c, parts.replaced(from + c));
    }
}

// A number in the first two bytes of a node's frame.
fn put_first_child(res: &mut [u8], node: usize, number: usize)
    requires { (node < frames res.old) × (number < two_bytes) }
    ensures { res.new ≡ with_first node number res.old }
{
    put_two_bytes(res, node, 0, number as u16);
}
