//! The records of a message's MAC.

ghost use Rattle.std.specs.Prelude.{◌≡◌, ◌≤◌, ◌∷◌, [], length};
ghost use Rattle.octet_lists.specs.Sizes.{max_packet};
ghost use Rattle.gpsk_messages.specs.Message.{message_of};
ghost use Rattle.eap_method.specs.declared.tags.Label.TheVariants.{Sk};
ghost use Rattle.eap_method.specs.GpskTags.{sk_record};
ghost use Rattle.gpsk_ends.specs.Classified.{IsReceived};

use eap_method::{Label, Records, TagList};
use gpsk_messages::{GpskMessage, covered_part, mac_part};
use octet_lists::{GPSK_KIND, Secret};

/// Leaves the record of this MAC of these octets alone in the list.
#[tactic(auto, using(crate::proofs::Pieces::one_piece))]
pub(crate) fn set_alone<R: Records>(list: &mut TagList<R>, psk: &Secret, covered: &[u8], mac: &[u8])
    requires covered { length covered.now ≤ max_packet }
    requires mac { length mac.now ≤ 32 }
    ensures { list.new ≡ record {
      method = 51;
      label = Sk;
      psk = psk.now;
      octets = covered.now;
      tag = mac.now;
    } ∷ [] }
{
    list.clear();
    list.add(GPSK_KIND, Label::Sk, psk, &[covered], mac);
}

/// Leaves the record of the MAC of a message, which the Type-Data encodes, alone in the list.
pub(crate) fn record<R: Records>(
    list: &mut TagList<R>,
    view: &GpskMessage,
    body: &[u8],
    psk: &Secret,
)
    requires { IsReceived (message_of view.now) body.now }
    ensures { list.new ≡ sk_record psk.now (message_of view.now) ∷ [] }
{
    set_alone(list, psk, covered_part(view, body), mac_part(view));
}
