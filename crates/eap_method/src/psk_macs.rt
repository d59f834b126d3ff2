//! EAP-PSK's two MACs, over the octets that they cover.

ghost use Rattle.std.specs.Prelude.{◌≡◌};
ghost use Rattle.cmac_mac.specs.Cmac.{aes_cmac};
ghost use Rattle.eap_method.specs.PskTags.{mac_p_octets, mac_s_octets};

use cmac_mac::CmacKey;

/// MAC_P under AK. It covers ID_P, ID_S, RAND_S, RAND_P (RFC 4764 section 5.2).
#[tactic(auto, using(crate::proofs::PskMacs::mac_p_joined))]
pub fn mac_p<'a>(
    ak: &CmacKey,
    id_p: &'a [u8],
    id_s: &'a [u8],
    rand_s: &'a [u8; 16],
    rand_p: &'a [u8; 16],
) -> [u8; 16]
    ensures { result ≡ aes_cmac ak.now (mac_p_octets id_p.now id_s.now rand_s.now rand_p.now) }
{
    ak.tag(id_p, &[id_s, rand_s, rand_p])
}

/// MAC_S under AK. It covers ID_S, RAND_P (RFC 4764 section 5.3).
#[tactic(auto, using(crate::proofs::PskMacs::mac_s_joined))]
pub fn mac_s(ak: &CmacKey, id_s: &[u8], rand_p: &[u8; 16]) -> [u8; 16]
    ensures { result ≡ aes_cmac ak.now (mac_s_octets id_s.now rand_p.now) }
{
    ak.tag(id_s, &[rand_p])
}
