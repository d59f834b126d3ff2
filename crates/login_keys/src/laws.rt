//! A law of the key schedules, which is the contract of a function that does nothing.

ghost use Rattle.login_keys.specs.PskLaws.{PskKeysDiffer};

/// By EAP-PSK the TEK, the MSK and the EMSK of two logins under one key of 16 octets differ if their RAND_P does (RFC
/// 4764 section 3.2): AES gives different blocks for different ones.
#[tactic(auto, using(crate::proofs::PskLaws::psk_keys_differ))]
pub fn psk_keys_differ()
    ensures { PskKeysDiffer }
{}
