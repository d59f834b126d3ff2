//! A peer's method: the trait that an object of EAP-PSK, of EAP-GPSK or of a maker's method meets.

ghost use Rattle.std.specs.Prelude.{◌≡◌, true, IsTrue};
ghost use Rattle.login_setup.specs.Setup.{is_valid_for};
ghost use Rattle.eap_method.specs.Peer.{peer_kind, started_peer, peer_step, peer_report, IsRequest};
ghost use Rattle.eap_method.specs.PeerTurn.{peer_turn_of, peer_turn_with, peer_tags};
ghost use Rattle.eap_method.specs.Capacity.{HasCapacity, PeerTurnHasCapacity, replies};

use crate::records::NoRecords;
use crate::tags::Tags;
use crate::turn::{PeerAnswer, PeerTurn};
use crate::values::{Credential, Report};
use octet_lists::{Nonce, Packet};

/// A method at a peer. Its ghost member says which method it is and its state. A *required* call is one that each method
/// writes; a *provided* one has a body by the others, in whose place a method may write its own.
pub trait PeerMethod: Drop {
    ghost use Rattle.eap_method.specs.Peer.{PeerShown};

    /// The method, and its state.
    ghost peer_shown: { Self → PeerShown };

    /// Required. The Type of the method, the same for the object's whole life.
    fn kind(&self) -> u8
        ensures { result ≡ peer_kind (peer_shown self.now) };

    /// Required. Begins again, whatever the object's state before. The key has 16 octets for EAP-PSK, 32 to 64 for
    /// EAP-GPSK.
    fn begin(&mut self, cred: &Credential, nonce: &Nonce)
        requires { IsTrue (is_valid_for (peer_kind (peer_shown self.old)) cred.now.psk) }
        ensures { peer_shown self.new ≡ started_peer cred.now nonce.now (peer_shown self.old) };

    /// Required. The turn for a Request of this Type with nothing past its Length. A Response leaves room for an Expanded
    /// Type: it has at most 1,493 octets.
    fn handle(&mut self, request: &[u8]) -> PeerTurn
        requires { IsRequest (peer_kind (peer_shown self.old)) request.now }
        ensures turn { peer_step (peer_shown self.old) request.now
            ≡ record { turn = peer_turn_of result; after = peer_shown self.new } }
        ensures capacity { PeerTurnHasCapacity result };

    /// Provided, by [`handle`](PeerMethod::handle): the same in place. The Response is written into `packet` in place of
    /// what was there, the records of its tags into `tags`. A discard leaves no record, and `packet` is then unspecified.
    fn handle_into(&mut self, request: &[u8], packet: &mut Packet, tags: &mut Tags) -> PeerAnswer
        requires { IsRequest (peer_kind (peer_shown self.old)) request.now }
        ensures turn { peer_step (peer_shown self.old) request.now
            ≡ record {
              turn = peer_turn_with result packet.new tags.new;
              after = peer_shown self.new;
            } }
        ensures tags { tags.new ≡ peer_tags (peer_turn_with result packet.new tags.new) }
        ensures capacity { replies result ≡ true → HasCapacity packet.new }
    {
        self.handle(request).put(packet, tags)
    }

    /// Provided, by [`handle_into`](PeerMethod::handle_into): the same, with no room for the records.
    fn handle_unrecorded(
        &mut self,
        request: &[u8],
        packet: &mut Packet,
        tags: &mut Tags<NoRecords>,
    ) -> PeerAnswer
        requires { IsRequest (peer_kind (peer_shown self.old)) request.now }
        ensures turn { peer_step (peer_shown self.old) request.now
            ≡ record {
              turn = peer_turn_with result packet.new tags.new;
              after = peer_shown self.new;
            } }
        ensures tags { tags.new ≡ peer_tags (peer_turn_with result packet.new tags.new) }
        ensures capacity { replies result ≡ true → HasCapacity packet.new }
    {
        let mut records = Tags::new();
        let answer = self.handle_into(request, packet, &mut records);
        tags.set(&records);
        answer
    }

    /// Required. What the peer has after a login that succeeded; None before and after any other.
    fn report(&self) -> Option<Report>
        ensures { result ≡ peer_report (peer_shown self.now) };
}

impl PeerMethod for Box<dyn PeerMethod> {
    ghost peer_shown = { λ b. (PeerMethod-box b).peer_shown b.value };

    fn kind(&self) -> u8 {
        (**self).kind()
    }

    fn begin(&mut self, cred: &Credential, nonce: &Nonce) {
        (**self).begin(cred, nonce)
    }

    fn handle(&mut self, request: &[u8]) -> PeerTurn {
        (**self).handle(request)
    }

    fn handle_into(&mut self, request: &[u8], packet: &mut Packet, tags: &mut Tags) -> PeerAnswer {
        (**self).handle_into(request, packet, tags)
    }

    fn handle_unrecorded(
        &mut self,
        request: &[u8],
        packet: &mut Packet,
        tags: &mut Tags<NoRecords>,
    ) -> PeerAnswer {
        (**self).handle_unrecorded(request, packet, tags)
    }

    fn report(&self) -> Option<Report> {
        (**self).report()
    }
}
