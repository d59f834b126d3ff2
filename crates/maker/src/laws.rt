//! A whole login by MD5-Challenge: the contract of a function that does nothing.

ghost use Rattle.maker.specs.Logins.{Md5LoginsGoThrough};

/// A peer with the server's secret that answers the server's Challenge is accepted, whatever the names, the nonces and the
/// Identifiers; a Response with any other Value is refused.
pub fn md5_logins_go_through()
    ensures { Md5LoginsGoThrough }
{}
