//! Bytes of a TOML file that are no text, and a byte order mark.

use crate::asserting::holds;
use net_types::FormRefusal;
use std::alloc::Global;
use toml_fields::document;

fn refusal_of(alloc: Global, text: &[u8]) -> Option<FormRefusal> {
    document(alloc, text).map(|_| ()).err()
}

#[test]
fn bytes_before_the_text(rt: HostRuntime) {
    holds(
        &rt,
        refusal_of(rt.alloc(), b"\xFF") == Some(FormRefusal::NotToml),
    );
    holds(&rt, refusal_of(rt.alloc(), b"\xEF\xBB\xBFa = 1") == None);
}
