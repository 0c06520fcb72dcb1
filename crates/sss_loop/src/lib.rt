// SSS*'s run over the lent list: turn by turn the best entry is taken and replaced; a front of greatest merits leads
// to it.
#![tactic(auto)]

mod list;

ghost use Rattle.certificate_bounds.specs.Engine.Evaluations.{progress_of, SameBuffers};
ghost use Rattle.sss_states.specs.Engine.Fronts.{SameFront};
ghost use Rattle.sss_loop.specs.Engine.Driven.{Prepared, Driven, PreparedOwn, DrivenOwn};

use certificate_bounds::Evaluations;
use list::{replace, take};
use sss_states::{Front, State, blank};
use sss_turns::{Run, next};
use table::MAX_NODES;

// A run over the lent list: the best entry is taken and replaced, until the SOLVED root is taken or the allowance is
// spent.
pub fn drive(
    mut run: Run,
    front: &mut Front<'_>,
    list: &mut [State],
    evaluations: &mut Evaluations<'_>,
) -> Run
    requires { Prepared front.old.table.now front.old.positions.now front.old.entries.now list.old
        (progress_of evaluations.old) run }
    ensures driven { Driven front.old.table.now front.old.entries.now list.old (progress_of evaluations.old) run
        (record {
          front = front.new.entries.now;
          list = list.new;
          progress = progress_of evaluations.new;
          run = result;
        }) }
    ensures same_front { SameFront front.old front.new }
    ensures same_buffers { SameBuffers evaluations.old evaluations.new }
{
    replace(list, run.update);
    // How many turns there are is known when the last one ends.
    while run.goes_on() {
        let entry = take(list, run.best);
        run = next(run, entry, front, evaluations);
        replace(list, run.update);
    }
    run
}

// A run over a front and a list of its own.
pub fn drive_own(
    run: Run,
    table: &[u8],
    positions: &[u32],
    evaluations: &mut Evaluations<'_>,
) -> Run
    requires { PreparedOwn table.now positions.now (progress_of evaluations.old) run }
    ensures driven { DrivenOwn table.now (progress_of evaluations.old) run (progress_of evaluations.new) result }
    ensures same_buffers { SameBuffers evaluations.old evaluations.new }
{
    let mut entries = [0u32; MAX_NODES];
    let mut list = [blank(); MAX_NODES];
    let mut front = Front {
        table,
        positions,
        entries: &mut entries,
    };
    drive(run, &mut front, &mut list, evaluations)
}
