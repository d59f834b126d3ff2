//! The command `server`: the stand-alone server alone, over the lines of its text.

ghost use Rattle.std.specs.Prelude.{◌≡◌, ◌≤◌, map, true};
ghost use Rattle.login_setup.specs.Setup.{IsSoundServer};
ghost use Rattle.eap_method.specs.BothServers.{are_both, both_of};
ghost use Rattle.eap_method.specs.Peer.{have_each};
ghost use Rattle.eap_method.specs.Server.{server_kinds};
ghost use Rattle.end_pipe.specs.EndRun.{server_end, server_unstarted};
ghost use Rattle.command_driver.specs.Responding.{Responds, reading, never};
ghost use Rattle.end_commands.specs.ServerCommand.{HasBothServers, server_answer};

use crate::end::{CanStart, End};
use command_driver::{Status, drive};
use eap_method::ServerMethod;
use end_pipe::{EndStep, Role, ServerPipe, StandAloneServer};
use login_setup::ServerSetup;
use octet_io::{Sink, Source};

impl<M: ServerMethod> CanStart<M> for StandAloneServer<M> {
    ghost use Rattle.end_commands.specs.ServerCommand.{HasBothServers};

    ghost has_both = { HasBothServers M.server_shown };

    fn begin(end: &mut End<M, StandAloneServer<M>>) -> Option<EndStep> {
        if end.pipe.is_some() {
            return None;
        }
        let Ok(setup) = end.reader.server_setup() else {
            return None;
        };
        let methods = end.methods.take()?;
        let first_id = end.reader.first_id();
        let max_retrans = end.reader.max_retrans();
        let mut pipe = pipe_of(setup, first_id, max_retrans, methods);
        let step = pipe.start_into(&mut end.packet, &mut end.tags);
        end.pipe = Some(pipe);
        Some(step)
    }
}

/// The server of these settings: it has an object of each method that they propose, and none of another than the two.
#[tactic(auto, using(end_pipe::proofs::BothMethods::server_starts))]
fn pipe_of<M: ServerMethod>(
    setup: ServerSetup,
    first_id: u8,
    max_retrans: u8,
    methods: Vec<M>,
) -> ServerPipe<M>
    requires sound { IsSoundServer setup }
    requires few { max_retrans ≤ 10 }
    requires objects { have_each (server_kinds (map M.server_shown methods.items)) setup.methods
        ≡ true }
    requires both { are_both (map M.server_shown methods.items) ≡ true }
    ensures { server_end M.server_shown result
        ≡ server_unstarted setup (both_of setup.methods) first_id max_retrans }
{
    ServerPipe::new(setup, first_id, max_retrans, methods)
}

/// Reads the settings of a server and then its inputs, and writes what it does at each input, before the next line is
/// read. The objects are one of each method, and none of another. It allocates no memory.
pub fn answer_server<M: ServerMethod, S: Source, W: Sink>(
    source: &mut S,
    sink: &mut W,
    methods: Vec<M>,
) -> Status
    requires { HasBothServers M.server_shown methods.items }
    ensures { Responds S.shown W.shown (reading server_answer never)
        result source.old source.new sink.old sink.new }
{
    let mut end = End::<M, StandAloneServer<M>>::new(Role::Server, methods);
    drive(&mut end, source, sink)
}
