//! What values show of themselves: octets and reports no key, causes their names.

use eap_method::Report;
use eap_packet::{Cause, decode};
use octet_lists::{Identity, Secret};
use std::test::Fail;

#[test]
fn values_show_no_key(rt: HostRuntime) -> Result<(), Fail> {
    let alloc = rt.alloc();
    let key = Secret::of(b"0123456789abcdef");
    assert!(rt; format!(in alloc; "{key:?}")?.as_str() == "16 octets");
    assert!(rt; key == key.copy() && key != Secret::of(b"0123456789abcdeg"));
    let report = Report {
        method: 47,
        id_p: Identity::of(b"alice"),
        id_s: Identity::of(b"srv"),
        suite: 0,
        msk: [0xa5; 64],
        emsk: [0x5a; 64],
    };
    let shown = format!(in alloc; "{report:?}")?;
    assert!(rt; shown.contains("method: 47") && !shown.contains("165") && !shown.contains("90"));
    Ok(())
}

#[test]
fn causes_are_errors(rt: HostRuntime) -> Result<(), Fail> {
    let alloc = rt.alloc();
    assert!(rt; format!(in alloc; "{}", Cause::BadTag)?.as_str() == Cause::BadTag.word());
    let Err(cause) = decode(&[1, 2, 0]) else {
        return Err(Fail::from(Cause::Ended));
    };
    assert!(rt; cause == Cause::Short);
    Ok(())
}
