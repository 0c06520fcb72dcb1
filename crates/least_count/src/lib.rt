// The least number of leaves that decide a regular tree, held as a table (SPEC 18; 02: N12).
#![tactic(auto)]

mod counts;

ghost use Rattle.std.specs.Prelude.{◌≡◌, ◌<◌, ◌≤◌};
ghost use Rattle.table.specs.Frame.{max_children, max_depth};
ghost use Rattle.least_count.specs.Rule.{least_count};
ghost use Rattle.least_count.specs.Answer.{least_answer};
ghost use Rattle.least_count.specs.Engine.Ruled.{ruled};

use counts::LEAST_COUNTS;
use table::{MAX_CHILDREN, MAX_DEPTH, Question, Rejection};

// The fewest leaves to expect in a tree where every inner node has so many children, all leaves lie at one depth and
// the sides alternate; 65,535 is that or more.
pub fn least_leaves(width: usize, depth: usize) -> Result<u16, Rejection>
    ensures { result ≡ least_answer width depth }
{
    if !(1..=MAX_CHILDREN).contains(&width) {
        return Err(Question::WrongWidth.at(0));
    }
    if MAX_DEPTH < depth {
        return Err(Question::WrongDepth.at(0));
    }
    Ok(entry(width, depth))
}

// The table's entry of a width and a depth.
fn entry(width: usize, depth: usize) -> u16
    requires { (0 < width) × (width ≤ max_children) × (depth ≤ max_depth) }
    ensures { result ≡ least_count width depth }
{
    let counts = whole_table();
    let row = width - 1;
    counts[row][depth]
}

// The table, which as a whole is the one that the rule makes.
fn whole_table() -> [[u16; MAX_DEPTH + 1]; MAX_CHILDREN]
    ensures { result ≡ ruled }
{
    LEAST_COUNTS
}
