//! A server's method: the trait that an object of EAP-PSK, of EAP-GPSK or of a maker's method meets.

ghost use Rattle.std.specs.Prelude.{◌≡◌, ◌≤◌, length, true, IsTrue, All};
ghost use Rattle.login_setup.specs.Setup.{has_valid_key, are_suites};
ghost use Rattle.login_setup.specs.Users.{AreDistinct, max_users};
ghost use Rattle.eap_method.specs.Server.{server_kind, started_server, has_initiated};
ghost use Rattle.eap_method.specs.Server.{server_first_step, server_step, server_report};
ghost use Rattle.eap_method.specs.Server.{IsResponse};
ghost use Rattle.eap_method.specs.Capacity.{HasCapacity, ServerTurnHasCapacity, requests};
ghost use Rattle.eap_method.specs.ServerTurn.{server_turn_of, server_turn_with, server_tags};

use crate::records::NoRecords;
use crate::tags::Tags;
use crate::turn::{ServerAnswer, ServerTurn};
use crate::values::{Report, ServerSide};
use login_setup::{User, Users};
use octet_lists::{Nonce, Packet};

/// A method at a server. Its ghost member says which method it is and its state. A *required* call is one that each method
/// writes; a *provided* one has a body by the others, in whose place a method may write its own.
pub trait ServerMethod: Drop {
    ghost use Rattle.eap_method.specs.Server.{ServerShown};

    /// The method, and its state.
    ghost server_shown: { Self → ServerShown };

    /// Required. The Type of the method, the same for the object's whole life.
    fn kind(&self) -> u8
        ensures { result ≡ server_kind (server_shown self.now) };

    /// Required. Begins again, whatever the object's state before. The suites are one or two of 1 and 2.
    fn begin(&mut self, own: &ServerSide, nonce: &Nonce)
        requires { IsTrue (are_suites own.now.suites) }
        ensures { server_shown self.new
            ≡ started_server own.now nonce.now (server_shown self.old) };

    /// Required. The method's first Request, with this Identifier: at most 1,493 octets, so that an Expanded Type has room.
    /// The object has begun and made none.
    fn first(&mut self, id: u8) -> Packet
        requires { has_initiated (server_shown self.old) ≡ true }
        ensures first { server_first_step (server_shown self.old) id
            ≡ record { packet = result; after = server_shown self.new } }
        ensures capacity { HasCapacity result };

    /// Provided, by [`first`](ServerMethod::first): the same in place. The Request is written into `packet` in place of
    /// what was there.
    fn first_into(&mut self, id: u8, packet: &mut Packet)
        requires { has_initiated (server_shown self.old) ≡ true }
        ensures first { server_first_step (server_shown self.old) id
            ≡ record { packet = packet.new; after = server_shown self.new } }
        ensures capacity { HasCapacity packet.new }
    {
        packet.set(self.first(id).as_slice());
    }

    /// Required. The turn for a Response of this Type with nothing past its Length. A Request that follows has the
    /// Identifier `next_id` and leaves room for an Expanded Type: it has at most 1,493 octets. The users' keys have 16
    /// octets for EAP-PSK, 32 to 64 for EAP-GPSK.
    fn handle(&mut self, response: &[u8], next_id: u8, users: &Users) -> ServerTurn
        requires response { IsResponse (server_kind (server_shown self.old)) response.now }
        requires keys { All (λ user. IsTrue (has_valid_key user)) users.now }
        ensures turn { server_step users.now next_id (server_shown self.old) response.now
            ≡ record { turn = server_turn_of result; after = server_shown self.new } }
        ensures capacity { ServerTurnHasCapacity result };

    /// Provided, by [`handle`](ServerMethod::handle), over a copy of the users: the same in place. The users are at most 16,
    /// whose pairs of name and kind are distinct. A Request that follows is written into `packet` in place of what was there,
    /// the records of the turn's tags into `tags`. A discard leaves no record; without a Request `packet` is unspecified.
    fn handle_into(
        &mut self,
        response: &[u8],
        next_id: u8,
        users: &[User],
        packet: &mut Packet,
        tags: &mut Tags,
    ) -> ServerAnswer
        requires response { IsResponse (server_kind (server_shown self.old)) response.now }
        requires keys { All (λ user. IsTrue (has_valid_key user)) users.now }
        requires distinct { AreDistinct users.now }
        requires few { length users.now ≤ max_users }
        ensures turn { server_step users.now next_id (server_shown self.old) response.now
            ≡ record {
              turn = server_turn_with result packet.new tags.new;
              after = server_shown self.new;
            } }
        ensures tags { tags.new ≡ server_tags (server_turn_with result packet.new tags.new) }
        ensures capacity { requests result ≡ true → HasCapacity packet.new }
    {
        let known = Users::of(users);
        self.handle(response, next_id, &known).put(packet, tags)
    }

    /// Provided, by [`handle_into`](ServerMethod::handle_into): the same, with no room for the records.
    fn handle_unrecorded(
        &mut self,
        response: &[u8],
        next_id: u8,
        users: &[User],
        packet: &mut Packet,
        tags: &mut Tags<NoRecords>,
    ) -> ServerAnswer
        requires response { IsResponse (server_kind (server_shown self.old)) response.now }
        requires keys { All (λ user. IsTrue (has_valid_key user)) users.now }
        requires distinct { AreDistinct users.now }
        requires few { length users.now ≤ max_users }
        ensures turn { server_step users.now next_id (server_shown self.old) response.now
            ≡ record {
              turn = server_turn_with result packet.new tags.new;
              after = server_shown self.new;
            } }
        ensures tags { tags.new ≡ server_tags (server_turn_with result packet.new tags.new) }
        ensures capacity { requests result ≡ true → HasCapacity packet.new }
    {
        let mut records = Tags::new();
        let answer = self.handle_into(response, next_id, users, packet, &mut records);
        tags.set(&records);
        answer
    }

    /// Required. What the server has after a login that succeeded; None before and after any other.
    fn report(&self) -> Option<Report>
        ensures { result ≡ server_report (server_shown self.now) };
}

impl ServerMethod for Box<dyn ServerMethod> {
    ghost server_shown = { λ b. (ServerMethod-box b).server_shown b.value };

    fn kind(&self) -> u8 {
        (**self).kind()
    }

    fn begin(&mut self, own: &ServerSide, nonce: &Nonce) {
        (**self).begin(own, nonce)
    }

    fn first(&mut self, id: u8) -> Packet {
        (**self).first(id)
    }

    fn first_into(&mut self, id: u8, packet: &mut Packet) {
        (**self).first_into(id, packet)
    }

    fn handle(&mut self, response: &[u8], next_id: u8, users: &Users) -> ServerTurn {
        (**self).handle(response, next_id, users)
    }

    fn handle_into(
        &mut self,
        response: &[u8],
        next_id: u8,
        users: &[User],
        packet: &mut Packet,
        tags: &mut Tags,
    ) -> ServerAnswer {
        (**self).handle_into(response, next_id, users, packet, tags)
    }

    fn handle_unrecorded(
        &mut self,
        response: &[u8],
        next_id: u8,
        users: &[User],
        packet: &mut Packet,
        tags: &mut Tags<NoRecords>,
    ) -> ServerAnswer {
        (**self).handle_unrecorded(response, next_id, users, packet, tags)
    }

    fn report(&self) -> Option<Report> {
        (**self).report()
    }
}
