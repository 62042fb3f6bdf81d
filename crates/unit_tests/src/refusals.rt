//! The text of each refusal.

use crate::asserting::holds_at;
use net_types::{BundleRefusal, FormRefusal, NetRefusal, Prefix, ReadRefusal};
use refusal_texts::{bundle_text, form_text};
use std::alloc::Global;

fn is_bundle_text(alloc: Global, refusal: BundleRefusal, wanted: &str) -> bool {
    match bundle_text(alloc, &[], refusal) {
        Ok(text) => text.as_str() == wanted,
        Err(_) => false,
    }
}

fn is_form_text(alloc: Global, refusal: FormRefusal, wanted: &str) -> bool {
    match form_text(alloc, refusal) {
        Ok(text) => text.as_str() == wanted,
        Err(_) => false,
    }
}

#[test]
fn texts_of_bundles(rt: HostRuntime) {
    let subnet = Prefix::masked(0x0a00_0000, 24);
    let cases = [
        (BundleRefusal::TooManyFiles(65), "TooManyFiles 65"),
        (BundleRefusal::TooLarge(4_194_305), "TooLarge 4194305"),
        (
            BundleRefusal::InFile(0, ReadRefusal::BadValue(28)),
            ": BadValue line 28",
        ),
        (
            BundleRefusal::InFile(0, ReadRefusal::NoHostname),
            ": NoHostname",
        ),
        (
            BundleRefusal::InNet(NetRefusal::SharedSubnet(subnet)),
            "SharedSubnet 10.0.0.0/24",
        ),
        (
            BundleRefusal::InNet(NetRefusal::TooManyLinks(65)),
            "TooManyLinks 65",
        ),
        (
            BundleRefusal::InNet(NetRefusal::TooManyCommunities(65)),
            "TooManyCommunities 65",
        ),
        (
            BundleRefusal::InNet(NetRefusal::TooManyRouters(65)),
            "TooManyRouters 65",
        ),
    ];
    for (refusal, wanted) in cases {
        holds_at(&rt, wanted, is_bundle_text(rt.alloc(), refusal, wanted));
    }
}

#[test]
fn texts_of_forms(rt: HostRuntime) {
    let cases = [
        (FormRefusal::TooLong, "TooLong"),
        (FormRefusal::NotToml, "NotToml"),
        (FormRefusal::BadField(0), "BadField 0"),
        (FormRefusal::SameName(2), "SameName 2"),
        (FormRefusal::TooMany(65), "TooMany 65"),
    ];
    for (refusal, wanted) in cases {
        holds_at(&rt, wanted, is_form_text(rt.alloc(), refusal, wanted));
    }
}
