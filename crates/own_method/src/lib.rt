//! An example for makers: a method of one's own at a peer, by the four calls of the trait. It is another method's object with a
//! count of what that discards; a machine, a world and a pipe take it like any other.
#![tactic(auto)]

ghost use Rattle.std.specs.Prelude.{◌≡◌, IsTrue};
ghost use Rattle.login_setup.specs.Setup.{is_valid_for};
ghost use Rattle.eap_method.specs.Capacity.{PeerTurnHasCapacity};
ghost use Rattle.eap_method.specs.Peer.{IsRequest, peer_kind, peer_step, started_peer};
ghost use Rattle.eap_method.specs.PeerTurn.{peer_turn_of};
ghost use Rattle.own_method.specs.Counting.{discards_after};

use eap_method::{Credential, PeerMethod, PeerTurn, Report};
use octet_lists::Nonce;

/// A peer's method, and how many Requests it has discarded since it began.
#[derive(Drop)]
pub struct Counted<M = Box<dyn PeerMethod>> {
    pub method: M,
    /// At most 4,294,967,295.
    pub discards: u32,
}

impl<M: PeerMethod> PeerMethod for Counted<M> {
    // What contracts see of an object: the method, and its state.
    ghost peer_shown = { λ c. M.peer_shown c.method };

    fn kind(&self) -> u8 {
        self.method.kind()
    }

    fn begin(&mut self, cred: &Credential, nonce: &Nonce)
        requires { IsTrue (is_valid_for (peer_kind (M.peer_shown self.old.method)) cred.now.psk) }
        ensures started { M.peer_shown self.new.method
            ≡ started_peer cred.now nonce.now (M.peer_shown self.old.method) }
        ensures count { self.new.discards ≡ 0 }
    {
        self.discards = 0;
        self.method.begin(cred, nonce);
    }

    fn handle(&mut self, request: &[u8]) -> PeerTurn
        requires { IsRequest (peer_kind (M.peer_shown self.old.method)) request.now }
        ensures turn { peer_step (M.peer_shown self.old.method) request.now
            ≡ record { turn = peer_turn_of result; after = M.peer_shown self.new.method } }
        ensures capacity { PeerTurnHasCapacity result }
        ensures count { self.new.discards ≡ discards_after self.old.discards (peer_turn_of result) }
    {
        let turn = self.method.handle(request);
        if let PeerTurn::Discard(_) = turn {
            self.discards = self.discards.saturating_add(1);
        }
        turn
    }

    fn report(&self) -> Option<Report> {
        self.method.report()
    }
}
