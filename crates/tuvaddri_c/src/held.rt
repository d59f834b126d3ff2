//! What an end has after a method that succeeded.

ghost use Rattle.std.specs.Prelude.{◌≡◌, option_map};
ghost use Rattle.end_objects.specs.Objects.{peer_object_shown, server_object_shown};
ghost use Rattle.tuvaddri_c.specs.Reports.{peer_stored, server_stored, end_stored, stored_at_peer};
ghost use Rattle.tuvaddri_c.specs.Reports.{stored_at_server, object_stored};

use crate::session::End;
use eap_method::{PeerMethod, Report, ServerMethod};
use end_objects::{Nonces, PeerObject, ServerObject};

/// The object of a method that an end has: of the method alone, or of the one that its machine has selected.
#[derive(Clone, Copy)]
pub enum Object<'a> {
    None,
    Peer(&'a PeerObject),
    Server(&'a ServerObject),
}

impl Object<'_> {
    ghost use Rattle.std.specs.Prelude.{◌≡◌};
    ghost use Rattle.tuvaddri_c.specs.Reports.{object_reports, object_nonces};

    /// The report of its method, if it has succeeded.
    pub fn report(&self) -> Option<Report>
        ensures { result ≡ object_reports self.now }
    {
        match self {
            Object::None => None,
            Object::Peer(object) => object.report(),
            Object::Server(object) => object.report(),
        }
    }

    /// The nonces of its method, if it has succeeded.
    pub fn nonces(&self) -> Option<Nonces>
        ensures { result ≡ object_nonces self.now }
    {
        match self {
            Object::None => None,
            Object::Peer(object) => object.nonces(),
            Object::Server(object) => object.nonces(),
        }
    }
}

/// The object of a peer's selected method.
fn of_peer<'a>(selected: Option<&'a PeerObject>) -> Object<'a>
    ensures { object_stored result
        ≡ peer_stored (option_map (λ o. peer_object_shown o.now) selected.entry) }
{
    match selected {
        None => Object::None,
        Some(object) => Object::Peer(object),
    }
}

/// The object of a server's current method.
fn of_server<'a>(current: Option<&'a ServerObject>) -> Object<'a>
    ensures { object_stored result
        ≡ server_stored (option_map (λ o. server_object_shown o.now) current.entry) }
{
    match current {
        None => Object::None,
        Some(object) => Object::Server(object),
    }
}

/// The object that an end has.
pub fn object_of<'a>(end: &'a End) -> Object<'a>
    ensures { object_stored result ≡ end_stored end.now }
{
    match end {
        End::Closed => Object::None,
        End::PeerMethod(object, _, _) => Object::Peer(object),
        End::ServerMethod(object, _, _) => Object::Server(object),
        End::Peer(machine) => of_peer(machine.selected()),
        End::Server(machine, _) => of_server(machine.current()),
        End::Backend(machine, _) => of_server(machine.current()),
        End::Pass(_, _) => Object::None,
        End::Supplicant(machine, _) => of_peer(machine.peer().selected()),
        End::Port(_, _) => Object::None,
    }
}

/// The object that an end on the peer's side has.
pub fn peer_object_of<'a>(end: &'a End) -> Option<&'a PeerObject>
    ensures { peer_stored (option_map (λ o. peer_object_shown o.now) result)
        ≡ stored_at_peer end.now }
{
    match end {
        End::PeerMethod(object, _, _) => Some(object),
        End::Peer(machine) => machine.selected(),
        End::Supplicant(machine, _) => machine.peer().selected(),
        _ => None,
    }
}

/// The object that an end on the server's side has.
pub fn server_object_of<'a>(end: &'a End) -> Option<&'a ServerObject>
    ensures { server_stored (option_map (λ o. server_object_shown o.now) result)
        ≡ stored_at_server end.now }
{
    match end {
        End::ServerMethod(object, _, _) => Some(object),
        End::Server(machine, _) => machine.current(),
        End::Backend(machine, _) => machine.current(),
        _ => None,
    }
}
