// One turn of the run: the state that is taken is replaced, or ends the run.
#![tactic(auto)]

mod rules;

ghost use Rattle.std.specs.Prelude.{◌≡◌, ◌<◌, ◌≤◌};
ghost use Rattle.gametree.specs.Trees.{greatest};
ghost use Rattle.table.specs.Frame.{frames, child_count};
ghost use Rattle.table.specs.Value.{value_of, score_of};
ghost use Rattle.certificate_bounds.specs.Engine.Evaluations.{progress_of, SameBuffers};
ghost use Rattle.sss_turns.specs.Engine.Update.{of_change, blanks};
ghost use Rattle.sss_turns.specs.Engine.Turn.{is_solved_root, is_live_leaf, is_uncovered, replaced_run, settled_front};
ghost use Rattle.sss_turns.specs.Engine.Turn.{going, ended_run, taken};
ghost use Rattle.sss_states.specs.Engine.Fronts.{SameFront};
ghost use Rattle.sss_states.specs.Engine.Putting.{Putting};
ghost use Rattle.sss_turns.specs.Engine.Ready.{Takeable};

use certificate_bounds::Evaluations;
use rules::of_state;
use sss_states::{Change, Front, State, Status};
use table::{SIGNED_ZERO_SCORE, child_count, frame_count, score_of};

// What an entry holds of a state of its own node.
#[derive(Clone, Copy)]
pub struct Content {
    pub status: Status,
    pub merit: i32,
}

// What `count` entries from `first` on become: states of their own nodes, or blank.
#[derive(Clone, Copy)]
pub struct Update {
    pub first: usize,
    pub count: usize,
    pub content: Option<Content>,
}

impl Update {
    // The entries that a change puts on the list.
    pub fn of_change(change: Change) -> Update
        requires { change.score ≤ greatest }
        ensures { result ≡ of_change change }
    {
        let content = Content {
            status: change.status,
            merit: as_value(change.score),
        };
        Update {
            first: change.first,
            count: change.count,
            content: Some(content),
        }
    }

    // The first n entries are blank.
    fn blanks(n: usize) -> Update
        ensures { result ≡ blanks n }
    {
        Update {
            first: 0,
            count: n,
            content: None,
        }
    }
}

// Replacements, how many leaves may be evaluated, and the node whose state was replaced last.
#[derive(Clone, Copy)]
pub struct Counts {
    pub replacements: usize,
    pub allowance: usize,
    pub replaced: usize,
}

// Whether a run goes on, has taken the SOLVED root, or has taken a leaf's state that its allowance does not cover; at
// its end it holds the score of the merit of the state that was taken last.
#[derive(Clone, Copy)]
pub enum Stage {
    Going,
    Finished(u32),
    Spent(u32),
}

// The run between two replacements: its stage, which entry is best, the counts, and what the list is to become.
#[derive(Clone, Copy)]
pub struct Run {
    pub stage: Stage,
    pub best: usize,
    pub counts: Counts,
    pub update: Update,
}

impl Run {
    // Does the run go on?
    pub fn goes_on(&self) -> bool
        ensures { result ≡ going self.now.stage }
    {
        matches!(self.stage, Stage::Going)
    }

    // A replacement: the front is changed, and the next state to take is found.
    fn replaced(front: &mut Front<'_>, change: Change, merit: u32, counts: Counts) -> Run
        requires { Putting front.old.table.now front.old.positions.now front.old.entries.now merit change }
        ensures value { result ≡ replaced_run front.old.table.now front.old.entries.now change merit counts }
        ensures entries { front.new.entries.now
            ≡ (settled_front front.old.table.now merit change front.old.entries.now).front }
        ensures same_front { SameFront front.old front.new }
    {
        front.put(change, merit);
        let top = front.refresh_ancestors(change.node, merit);
        Run {
            stage: Stage::Going,
            best: front.descend(top),
            counts,
            update: Update::of_change(change),
        }
    }

    // The run at its end, with an entry for each node blank.
    fn ended(table: &[u8], stage: Stage, counts: Counts) -> Run
        ensures { result ≡ ended_run table.now stage counts }
    {
        Run {
            stage,
            best: 0,
            counts,
            update: Update::blanks(frame_count(table)),
        }
    }
}

// What the run makes of the entry that was taken, by its node, status and merit: it ends at the SOLVED root, and before
// a leaf that its allowance does not cover.
pub fn next(run: Run, entry: State, front: &mut Front<'_>, evaluations: &mut Evaluations<'_>) -> Run
    requires { Takeable front.old.table.now front.old.positions.now front.old.entries.now
        (progress_of evaluations.old) run entry }
    ensures value { record {
      front = front.new.entries.now;
      progress = progress_of evaluations.new;
      run = result;
    }
        ≡ taken front.old.table.now front.old.entries.now (progress_of evaluations.old) run entry }
    ensures same_front { SameFront front.old front.new }
    ensures same_buffers { SameBuffers evaluations.old evaluations.new }
{
    let table = front.table;
    let counts = run.counts;
    let merit = score_of(entry.merit);
    if is_solved_root(entry) {
        return Run::ended(table, Stage::Finished(merit), counts);
    }
    if is_uncovered(table, entry, evaluations.leaves, counts) {
        return Run::ended(table, Stage::Spent(merit), counts);
    }
    let change = of_state(table, front.positions, evaluations, entry, merit);
    let counts = Counts {
        replacements: counts.replacements + 1,
        replaced: run.best,
        ..counts
    };
    Run::replaced(front, change, merit, counts)
}

// A merit's value from its score.
pub fn as_value(score: u32) -> i32
    requires { score ≤ greatest }
    ensures { result ≡ value_of score }
{
    score as i32 - SIGNED_ZERO_SCORE
}

// Is this state the SOLVED root?
fn is_solved_root(entry: State) -> bool
    ensures { result ≡ is_solved_root entry.status entry.node }
{
    entry.status == Status::Solved && entry.node == 0
}

// Would a replacement of this state, after so many evaluated leaves, evaluate one that the allowance does not cover?
fn is_uncovered(table: &[u8], entry: State, leaves: usize, counts: Counts) -> bool
    requires { entry.node < frames table.now }
    ensures { result ≡ is_uncovered table.now entry leaves counts }
{
    counts.allowance <= leaves && is_live_leaf(table, entry)
}

// Is this the state of a LIVE leaf?
fn is_live_leaf(table: &[u8], entry: State) -> bool
    requires { entry.node < frames table.now }
    ensures { result ≡ is_live_leaf (child_count table.now entry.node) entry.status }
{
    entry.status == Status::Live && child_count(table, entry.node as usize) == 0
}
