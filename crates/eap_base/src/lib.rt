//! What every layer speaks of, under one name: octets and suites, settings, users and events, sources, sinks and lines.
#![tactic(auto)]

pub use login_setup::{
    Accepts, Event, Later, Mode, Nonces, Party, PeerSetup, Port, ServerSetup, Setup, User, Users,
};
pub use octet_io::{
    Failed, LineReader, MemSink, MemSource, NextLine, Sink, Source, StdSink, StdSource, SureSink,
    SureSource,
};
pub use octet_lists::{Identity, Kinds, Nonce, Octets, Packet, Secret, Suite, Suites};
