//! Whether a packet comes from one who knows the secret (RFC 2865 section 3, RFC 3579 section 3.2).

ghost use Rattle.std.specs.Prelude.{◌≡◌, ◌≤◌, ◌↔◌, ℕ, List, length, take, drop, ◌+◌, ◌==◌, IsTrue};
ghost use Rattle.std.specs.Str.{bytes_eq};
ghost use Rattle.radius_carry.specs.Packet.{IsRadius, number_of, tag_of};
ghost use Rattle.radius_carry.specs.Fault.{value_of};
ghost use Rattle.radius_carry.specs.Place.{before_secret, round_zeros};
ghost use Rattle.radius_carry.specs.Tags.{blank_text, asked_text, reply_tag};
ghost use Rattle.radius_carry.specs.Tags.{response_authenticator, IsGoodRequest, IsGoodReply};
ghost use Rattle.radius_carry.specs.Tags.{is_good_request, is_good_reply};

use crate::attributes::{HEAD, TAG, place_of_tag};
use crate::mac::Mac;
use crate::view::{RadiusKind, RadiusView};
use md5::{Digest, Md5};
use octet_lists::equal_in_full;

/// The octets of Code, Identifier and Length.
const FRONT: usize = 4;

/// Octets round a tag.
#[derive(Clone, Copy)]
struct Cut<'a> {
    before: &'a [u8],
    tag: &'a [u8],
    after: &'a [u8],
}

/// The octets, cut round the tag at this place.
fn cut_at<'a>(octets: &'a [u8], place: usize) -> Cut<'a>
    requires { place + 16 ≤ length octets.now }
    ensures before { result.before.now ≡ take place octets.now }
    ensures tag { result.tag.now ≡ take 16 (drop place octets.now) }
    ensures after { result.after.now ≡ drop (place + 16) octets.now }
{
    let (before, rest) = octets.split_at(place);
    let (tag, after) = rest.split_at(TAG);
    Cut { before, tag, after }
}

/// The octets of a packet round its tag.
#[derive(Clone, Copy)]
struct Parts<'a> {
    front: &'a [u8],
    attributes: &'a [u8],
    cut: Cut<'a>,
}

/// The packet, cut round its tag.
#[tactic(auto, unfolding(crate::specs::Fault::value_of))]
fn parts_of<'a>(view: &RadiusView<'a>) -> Parts<'a>
    requires { IsRadius (value_of view.now) view.now.whole.now }
    ensures tag { result.cut.tag.now ≡ tag_of (value_of view.now).attributes }
    ensures blank { (other : List ℕ)
        → round_zeros result.front.now other result.cut.before.now result.cut.after.now
        ≡ blank_text other (value_of view.now) }
    ensures asked { (other secret : List ℕ)
        → before_secret result.front.now other result.attributes.now secret
        ≡ asked_text other secret (value_of view.now) }
{
    let (head, attributes) = view.whole.split_at(HEAD);
    let (front, _authenticator) = head.split_at(FRONT);
    let cut = cut_at(attributes, place_of_tag(view.attributes));
    Parts {
        front,
        attributes,
        cut,
    }
}

/// The tag over the packet with this Authenticator in place of its own.
fn tag_under(secret: &[u8], authenticator: &[u8; 16], view: &RadiusView) -> [u8; 16]
    requires secret { length secret.now ≤ 64 }
    requires radius { IsRadius (value_of view.now) view.now.whole.now }
    ensures { result ≡ reply_tag secret.now authenticator.now (value_of view.now) }
{
    let parts = parts_of(view);
    let mut mac = Mac::new(secret);
    mac.update(parts.front);
    mac.update(authenticator);
    mac.update(parts.cut.before);
    mac.update(&[0; TAG]);
    mac.update(parts.cut.after);
    mac.finish()
}

/// Whether the packet has this tag.
fn has_tag(view: &RadiusView, tag: &[u8; 16]) -> bool
    requires { IsRadius (value_of view.now) view.now.whole.now }
    ensures { result ≡ bytes_eq (tag_of (value_of view.now).attributes) tag.now }
{
    equal_in_full(parts_of(view).cut.tag, tag)
}

/// The Response Authenticator of this reply to the request with that Authenticator.
fn answering(secret: &[u8], request_authenticator: &[u8; 16], view: &RadiusView) -> [u8; 16]
    requires { IsRadius (value_of view.now) view.now.whole.now }
    ensures { result
        ≡ response_authenticator secret.now request_authenticator.now (value_of view.now) }
{
    let parts = parts_of(view);
    let mut hash = Md5::new();
    hash.update(parts.front);
    hash.update(request_authenticator);
    hash.update(parts.attributes);
    hash.update(secret);
    hash.finalize()
}

/// Whether the packet is an Access-Request.
fn is_request(kind: RadiusKind) -> bool
    ensures { result ≡ (number_of kind == 1) }
{
    matches!(kind, RadiusKind::Request)
}

/// Whether the packet is an Access-Request of one who knows the secret: its Message-Authenticator is
/// the HMAC-MD5 over the packet with zeros in that place (RFC 3579 section 3.2).
#[tactic(auto, unfolding(crate::specs::Tags::is_good_request, crate::specs::Fault::value_of))]
pub fn request_good(secret: &[u8], view: &RadiusView) -> bool
    requires secret { length secret.now ≤ 64 }
    requires radius { IsRadius (value_of view.now) view.now.whole.now }
    ensures good { IsTrue result ↔ IsGoodRequest secret.now (value_of view.now) }
    ensures decides { result ≡ is_good_request secret.now (value_of view.now) }
{
    let tag = tag_under(secret, &view.authenticator, view);
    is_request(view.kind) & has_tag(view, &tag)
}

/// Whether the packet is a reply of one who knows the secret, to the request with this Authenticator:
/// its Message-Authenticator is the HMAC-MD5 over the packet with the Request Authenticator in the
/// Authenticator's place and zeros in its own (RFC 3579 section 3.2), and its Authenticator is the
/// Response Authenticator (RFC 2865 section 3).
#[tactic(auto, unfolding(crate::specs::Tags::is_good_reply, crate::specs::Fault::value_of))]
pub fn reply_good(secret: &[u8], request_authenticator: &[u8; 16], view: &RadiusView) -> bool
    requires secret { length secret.now ≤ 64 }
    requires radius { IsRadius (value_of view.now) view.now.whole.now }
    ensures good { IsTrue result
        ↔ IsGoodReply secret.now request_authenticator.now (value_of view.now) }
    ensures decides { result
        ≡ is_good_reply secret.now request_authenticator.now (value_of view.now) }
{
    let tag = tag_under(secret, request_authenticator, view);
    let response = answering(secret, request_authenticator, view);
    let is_answer = equal_in_full(&view.authenticator, &response);
    !is_request(view.kind) & has_tag(view, &tag) & is_answer
}
