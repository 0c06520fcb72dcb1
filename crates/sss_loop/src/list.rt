// The lent list: the best entry is taken, and entries are replaced.
ghost use Rattle.std.specs.Prelude.{◌≡◌, ◌<◌, length, get_or};
ghost use Rattle.table.specs.Frame.{max_nodes};
ghost use Rattle.sss_states.specs.Entry.{blank as blank_entry};
ghost use Rattle.sss_turns.specs.Engine.Update.{entry_in, updated, Within};

use sss_states::{State, blank};
use sss_turns::{Content, Update};

// The entry of a node.
pub fn take(list: &[State], at: usize) -> State
    requires { at < length list.now }
    ensures { result ≡ get_or list.now at blank_entry }
{
    list[at]
}

// The new entries are put in their places.
pub fn replace(list: &mut [State], update: Update)
    requires { Within update (length list.old) }
    ensures { list.new ≡ updated update list.old }
{
    for node in update.first..update.first + update.count {
        list[node] = entry_in(update.content, node);
    }
}

// The new entry of a node.
fn entry_in(content: Option<Content>, node: usize) -> State
    requires { node < max_nodes }
    ensures { result ≡ entry_in content node }
{
    match content {
        Some(content) => State {
            node: node as u16,
            status: content.status,
            merit: content.merit,
        },
        None => blank(),
    }
}
