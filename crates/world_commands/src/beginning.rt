//! The world of a scenario.

ghost use Rattle.std.specs.Prelude.{◌≡◌};
ghost use Rattle.scenario_text.specs.Valid.{IsValidSetup};
ghost use Rattle.world_commands.specs.Replay.{HasBoth};
ghost use Rattle.eap_world.specs.World.{HasObjects, now_of};
ghost use Rattle.world_laws.specs.Runs.{initial_world};

use eap_method::{PeerMethod, ServerMethod};
use eap_world::{Methods, World};
use login_setup::Setup;
use std::alloc::Global;

/// The world of a setup that a scenario gives, in which each end has an object of both methods, and so one of each that
/// its settings name. It hasn't started, and has allocated no memory yet.
pub fn world_of<P: PeerMethod, S: ServerMethod>(
    alloc: Global,
    setup: Setup,
    methods: Methods<P, S>,
) -> World<P, S>
    requires valid { IsValidSetup setup }
    requires both { HasBoth P.peer_shown S.server_shown methods }
    ensures initial { now_of P.peer_shown S.server_shown result ≡ initial_world setup }
    ensures objects { HasObjects P.peer_shown S.server_shown result }
{
    World::new(alloc, setup, methods)
}
