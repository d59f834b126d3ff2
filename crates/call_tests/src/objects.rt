//! The world of a scenario, over objects of both methods.

ghost use Rattle.std.specs.Prelude.{IfOk};
ghost use Rattle.end_objects.specs.Objects.{peer_object_shown, server_object_shown};
ghost use Rattle.scenario_text.specs.Valid.{IsValidSetup};
ghost use Rattle.world_commands.specs.Replay.{HasBoth};

use eap_login::methods_of;
use eap_method::Methods;
use eap_world::World;
use end_objects::{PeerObject, ServerObject, peer_object, server_object};
use login_setup::Setup;
use octet_lists::{GPSK_KIND, PSK_KIND};
use std::alloc::{AllocError, Global};
use world_commands::world_of;

/// A world over objects of both methods.
pub(crate) type ObjectWorld = World<PeerObject, ServerObject>;

/// An object of each method, for each end.
pub(crate) fn methods(alloc: Global) -> Result<Methods<PeerObject, ServerObject>, AllocError>
    ensures { IfOk result (HasBoth peer_object_shown server_object_shown) }
{
    methods_of(
        alloc,
        peer_object(GPSK_KIND),
        peer_object(PSK_KIND),
        server_object(GPSK_KIND),
        server_object(PSK_KIND),
    )
}

/// The world of these settings.
pub(crate) fn world(alloc: Global, setup: Setup) -> Result<ObjectWorld, AllocError>
    requires { IsValidSetup setup }
{
    Ok(world_of(alloc, setup, methods(alloc)?))
}
