//! The objects of a server: beginning them, finding the one of a method, and calling it.

ghost use Rattle.std.specs.Prelude.{◌≡◌, ◌≤◌, ◌==◌, length, ℕ, List, true, map, find};
ghost use Rattle.std.specs.Prelude.{option_copied, option_map, IsTrue, All, Some, None};
ghost use Rattle.std.specs.Prelude.{if◌then◌else◌};
ghost use Rattle.octet_lists.specs.Among.{is_among};
ghost use Rattle.login_setup.specs.Setup.{has_valid_key, are_suites};
ghost use Rattle.login_setup.specs.Users.{AreDistinct, max_users};
ghost use Rattle.eap_method.specs.Capacity.{HasCapacity, requests};
ghost use Rattle.eap_method.specs.ServerTurn.{server_turn_with, server_tags};
ghost use Rattle.eap_method.specs.Peer.{have_each};
ghost use Rattle.eap_method.specs.Server.{server_kind, server_kinds, server_methods, first_of};
ghost use Rattle.eap_method.specs.Server.{server_views, server_offer, server_turn, IsResponse};
ghost use Rattle.eap_method.specs.Server.{server_report_of, side_of, views_started};
ghost use Rattle.eap_method.specs.Server.{server_started_in};
ghost use Rattle.eap_method.specs.Unnamed.{servers_unnamed};

use crate::server::ServerMethod;
use crate::tags::Tags;
use crate::turn::ServerAnswer;
use crate::turns::Turns;
use crate::values::{Report, ServerSide};
use eap_packet::Cause;
use login_setup::{ServerSetup, User, UserList};
use octet_lists::{Nonce, Packet, is_among};

/// Begins each object whose method the settings propose, whatever its state before; the others stay as they are.
pub fn start_servers<M: ServerMethod, const N: usize>(
    methods: &mut [M],
    setup: &ServerSetup<UserList<N>>,
)
    requires { IsTrue (are_suites setup.now.suites) }
    ensures views { server_views setup.now.methods (map M.server_shown methods.new)
        ≡ views_started setup.now
        (server_views setup.now.methods (map M.server_shown methods.old)) }
    ensures methods { server_methods (map M.server_shown methods.new)
        ≡ server_methods (map M.server_shown methods.old) }
    ensures unnamed { servers_unnamed setup.now.methods (map M.server_shown methods.new)
        ≡ servers_unnamed setup.now.methods (map M.server_shown methods.old) }
{
    start_each(methods, setup);
}

/// Writes the first Request, with this Identifier, of the object of this Type, which is proposed, into
/// `packet`: the object begins and makes it. False, and nothing changes, if there is no such object. The
/// objects of other methods stay as they are.
pub fn offer_method<M: ServerMethod>(
    methods: &mut [M],
    kind: u8,
    own: &ServerSide,
    nonce: &Nonce,
    id: u8,
    packet: &mut Packet,
) -> bool
    requires { IsTrue (are_suites own.now.suites) }
    ensures offer { (order : List ℕ) → is_among order kind ≡ true
        → server_offer own.now nonce.now kind id
        (server_views order (map M.server_shown methods.old))
        ≡ record {
          packet = if result then Some packet.new else None;
          after = server_views order (map M.server_shown methods.new);
        } }
    ensures capacity { result ≡ true → HasCapacity packet.new }
    ensures methods { server_methods (map M.server_shown methods.new)
        ≡ server_methods (map M.server_shown methods.old) }
    ensures unnamed { (order : List ℕ) → is_among order kind ≡ true
        → servers_unnamed order (map M.server_shown methods.new)
        ≡ servers_unnamed order (map M.server_shown methods.old) }
{
    match methods.split_first_mut() {
        None => false,
        Some((first, rest)) => {
            if first.kind() == kind {
                first.begin(own, nonce);
                first.first_into(id, packet);
                true
            } else {
                offer_method(rest, kind, own, nonce, id, packet)
            }
        }
    }
}

/// The turn of the object of this Type, which is proposed, for a Response of this Type with nothing
/// past its Length: a Request that follows has the Identifier `next_id` and is written into `packet`,
/// the records of the turn's tags into `tags`. If there is no such object, the Response is discarded
/// as one that no method awaits. The objects of other methods stay as they are.
pub fn call_server_method<M: ServerMethod, R: Turns>(
    methods: &mut [M],
    kind: u8,
    response: &[u8],
    next_id: u8,
    users: &[User],
    packet: &mut Packet,
    tags: &mut Tags<R>,
) -> ServerAnswer
    requires response { IsResponse kind response.now }
    requires keys { All (λ user. IsTrue (has_valid_key user)) users.now }
    requires distinct { AreDistinct users.now }
    requires few { length users.now ≤ max_users }
    ensures turn { (order : List ℕ) → is_among order kind ≡ true
        → server_turn users.now next_id kind (server_views order (map M.server_shown methods.old))
        response.now
        ≡ record {
          turn = server_turn_with result packet.new tags.new;
          after = server_views order (map M.server_shown methods.new);
        } }
    ensures tags { tags.new ≡ server_tags (server_turn_with result packet.new tags.new) }
    ensures capacity { requests result ≡ true → HasCapacity packet.new }
    ensures methods { server_methods (map M.server_shown methods.new)
        ≡ server_methods (map M.server_shown methods.old) }
    ensures unnamed { (order : List ℕ) → is_among order kind ≡ true
        → servers_unnamed order (map M.server_shown methods.new)
        ≡ servers_unnamed order (map M.server_shown methods.old) }
{
    match methods.split_first_mut() {
        None => {
            tags.clear();
            ServerAnswer::Discard(Cause::WrongOp)
        }
        Some((first, rest)) => {
            if first.kind() == kind {
                R::server_turn(first, response, next_id, users, packet, tags)
            } else {
                call_server_method(rest, kind, response, next_id, users, packet, tags)
            }
        }
    }
}

/// What the object of this Type, which is proposed, has after a login that succeeded; None after any other,
/// and if there is no such object.
pub fn server_report<M: ServerMethod>(methods: &[M], kind: u8) -> Option<Report>
    ensures { (order : List ℕ) → is_among order kind ≡ true
        → result ≡ server_report_of kind (server_views order (map M.server_shown methods.now)) }
{
    object_of(methods, kind)?.report()
}

/// The first object of this Type; None if there is none.
pub fn find_server<M: ServerMethod>(methods: &[M], kind: u8) -> Option<&M>
    ensures { option_map (λ o. M.server_shown o.now) result
        ≡ first_of kind (map M.server_shown methods.now) }
{
    object_of(methods, kind)
}

fn object_of<M: ServerMethod>(methods: &[M], kind: u8) -> Option<&M>
    ensures { option_copied result
        ≡ find (λ m. server_kind (M.server_shown m) == kind) methods.now }
{
    methods.iter().find(|method| method.kind() == kind)
}

/// Whether there is an object of each of these Types.
pub fn has_servers<M: ServerMethod>(methods: &[M], kinds: &[u8]) -> bool
    ensures { result ≡ have_each (server_kinds (map M.server_shown methods.now)) kinds.now }
{
    kinds.iter().all(|kind| has_server(methods, *kind))
}

/// Whether there is an object of this Type.
fn has_server<M: ServerMethod>(methods: &[M], kind: u8) -> bool
    ensures { result ≡ is_among (server_kinds (map M.server_shown methods.now)) kind }
{
    find_server(methods, kind).is_some()
}

fn start_each<M: ServerMethod, const N: usize>(methods: &mut [M], setup: &ServerSetup<UserList<N>>)
    requires { IsTrue (are_suites setup.now.suites) }
    ensures { map M.server_shown methods.new
        ≡ map (server_started_in setup.now) (map M.server_shown methods.old) }
{
    if let Some((first, rest)) = methods.split_first_mut() {
        start_one(first, setup);
        start_each(rest, setup);
    }
}

fn start_one<M: ServerMethod, const N: usize>(method: &mut M, setup: &ServerSetup<UserList<N>>)
    requires { IsTrue (are_suites setup.now.suites) }
    ensures { M.server_shown method.new ≡ server_started_in setup.now (M.server_shown method.old) }
{
    if proposes(setup, method.kind()) {
        method.begin(&side_of(setup), &setup.nonce);
    }
}

/// Whether the server proposes the method of this Type.
fn proposes<const N: usize>(setup: &ServerSetup<UserList<N>>, kind: u8) -> bool
    ensures { result ≡ is_among setup.now.methods kind }
{
    is_among(setup.methods.as_slice(), kind)
}

/// What the server brings into a method.
#[tactic(auto, unfolding(crate::specs::Server::side_of))]
pub fn side_of<const N: usize>(setup: &ServerSetup<UserList<N>>) -> ServerSide
    ensures same { result ≡ side_of setup.now }
    ensures suites { result.suites ≡ setup.now.suites }
{
    ServerSide {
        id_s: setup.name.copy(),
        suites: setup.suites.copy(),
    }
}
