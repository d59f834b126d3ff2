//! The records of EAP-PSK's tags, with the octets that they cover.

ghost use Rattle.std.specs.Prelude.{◌≡◌, ◌≤◌, ◌<◌, [], ◌∷◌, ◌++◌, length};
ghost use Rattle.octet_lists.specs.Among.{psk_kind};
ghost use Rattle.octet_lists.specs.Sizes.{max_name};
ghost use Rattle.eap_method.specs.declared.tags.Label.TheVariants.{Tek};
ghost use Rattle.eap_method.specs.PskTags.{mac_p_octets, mac_s_octets, ak_record, tek_record};

use crate::channel::channel_nonce;
use eap_method::{Label, Records, TagList};
use octet_lists::{PSK_KIND, Secret};
use psk_messages::Channel;

/// Adds the record of MAC_P.
#[tactic(auto, using(eap_method::proofs::PskMacs::mac_p_joined))]
pub fn add_mac_p<'a, R: Records>(
    list: &mut TagList<R>,
    psk: &Secret,
    id_p: &'a [u8],
    id_s: &'a [u8],
    rand_s: &'a [u8; 16],
    rand_p: &'a [u8; 16],
    mac: &[u8; 16],
)
    requires capacity { length list.old < 2 }
    requires id_p { length id_p.now ≤ max_name }
    requires id_s { length id_s.now ≤ max_name }
    ensures { list.new ≡ list.old ++ ak_record psk.now (mac_p_octets id_p.now id_s.now rand_s.now
        rand_p.now) mac.now ∷ [] }
{
    list.add(PSK_KIND, Label::Ak, psk, &[id_p, id_s, rand_s, rand_p], mac);
}

/// Adds the record of MAC_S.
#[tactic(auto, using(eap_method::proofs::PskMacs::mac_s_joined))]
pub fn add_mac_s<'a, R: Records>(
    list: &mut TagList<R>,
    psk: &Secret,
    id_s: &'a [u8],
    rand_p: &'a [u8; 16],
    mac: &[u8; 16],
)
    requires capacity { length list.old < 2 }
    requires id_s { length id_s.now ≤ max_name }
    ensures { list.new
        ≡ list.old ++ ak_record psk.now (mac_s_octets id_s.now rand_p.now) mac.now ∷ [] }
{
    list.add(PSK_KIND, Label::Ak, psk, &[id_s, rand_p], mac);
}

/// Adds the record of PCHANNEL's tag: it covers the nonce for EAX, the header and the sealed octet.
#[tactic(auto, unfolding(eap_method::specs::PskTags::channel_octets))]
pub fn add_channel<R: Records>(
    list: &mut TagList<R>,
    psk: &Secret,
    header: &[u8],
    channel: &Channel,
)
    requires capacity { length list.old < 2 }
    requires header { length header.now ≤ 22 }
    ensures { list.new ≡ list.old
        ++ tek_record psk.now channel.now.nonce header.now channel.now.sealed channel.now.tag ∷ [] }
{
    let nonce = channel_nonce(channel.nonce);
    add_pieces(list, psk, &nonce, header, &[channel.sealed], &channel.tag);
}

/// The same, of pieces that live as long.
fn add_pieces<'a, R: Records>(
    list: &mut TagList<R>,
    psk: &Secret,
    nonce: &'a [u8; 16],
    header: &'a [u8],
    sealed: &'a [u8; 1],
    tag: &[u8; 16],
)
    requires capacity { length list.old < 2 }
    requires header { length header.now ≤ 22 }
    ensures { list.new ≡ list.old
        ++ (record { method = psk_kind; label = Tek; psk = psk.now; octets = nonce.now ++ (header.now ++ sealed.now); tag = tag.now }) ∷ [] }
{
    list.add(PSK_KIND, Label::Tek, psk, &[nonce, header, sealed], tag);
}
