//! EAP over RADIUS (RFC 2865 sections 3 and 5, RFC 3579 sections 3.1 and 3.2): the packets between a
//! pass-through and a backend, their reading and writing, and both of their authenticators.
#![tactic(auto)]

mod attributes;
mod cause;
mod laws;
mod mac;
mod reading;
mod tags;
mod view;
mod writing;

pub use cause::RadiusCause;
pub use laws::{
    encodings_are_apart, encodings_are_read, faultless_is_encoded, reads_the_encoding,
    replies_are_good, replies_are_read_back, requests_are_good, requests_are_read_back,
};
pub use reading::{attribute, eap_of, read_radius};
pub use tags::{reply_good, request_good};
pub use view::{RadiusKind, RadiusView};
pub use writing::{write_reply, write_request};
