//! The machine on which a session's costs are counted.
ghost use Rattle.std.specs.Prelude.{◌≡◌};
ghost use Rattle.ch_subject.specs.Subjects.{calls, machine_of};
ghost use Rattle.ch_workload.specs.Machines.{usual_machine};

use ch_nest::Machine;
use ch_workload::Script;

/// The machine of a session that no client calls.
fn usual_machine() -> Machine
    ensures { result ≡ usual_machine }
{
    let Some(machine) = Machine::new(1, 8, 16, 4) else {
        unreachable!()
    };
    machine
}

/// Whether a client calls a session.
fn calls(session: u32, client: &Script) -> bool
    ensures { result ≡ calls session client.now }
{
    client
        .calls
        .as_slice()
        .iter()
        .any(|call| call.session == session)
}

/// The machine on which a session's costs are counted, where no client is given: that of the first
/// of the clients that calls the session, by its number in the deck, and `machine(1, 8, 16, 4)`
/// where none of them does.
pub fn machine_of(clients: &[Script], session: u32) -> Machine
    ensures { result ≡ machine_of clients.now session }
{
    match clients {
        [] => usual_machine(),
        [client, others @ ..] => {
            if calls(session, client) {
                client.machine
            } else {
                machine_of(others, session)
            }
        }
    }
}
