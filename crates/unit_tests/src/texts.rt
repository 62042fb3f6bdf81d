//! Texts of addresses, prefixes, numbers, communities and names, the order of prefixes, and sets.

use crate::asserting::holds;
use net_types::{
    Bits64, FailSet, Prefix, address_text, is_host, is_name, prefix_text, read_address,
    read_community, read_interface, read_number,
};

#[test]
fn addresses(rt: HostRuntime) {
    let cases = [
        (b"10.9.0.3".as_slice(), Some(0x0a09_0003)),
        (b"255.255.255.255", Some(0xffff_ffff)),
        (b"0.0.0.0", Some(0)),
        (b"10.0.0", None),
        (b"10.0.0.0.1", None),
        (b"10.0.0.256", None),
        (b"10.0.0.01", None),
        (b"10.0..1", None),
        (b"", None),
    ];
    for (text, wanted) in cases {
        holds(&rt, read_address(text) == wanted);
    }
}

#[test]
fn prefixes(rt: HostRuntime) {
    let net = Prefix {
        bits: 0x0a00_0000,
        len: 8,
    };
    let cases = [
        (b"10.0.0.0/8".as_slice(), Some(net)),
        (b"10.0.0.1/8", None),
        (b"10.0.0.0/33", None),
        (b"10.0.0.0/08", None),
        (b"10.0.0.0", None),
        (b"10.0.0.0/8/8", None),
    ];
    for (text, wanted) in cases {
        holds(&rt, Prefix::read(text) == wanted);
    }
    let interface = read_interface(b"10.1.2.3/8");
    holds(&rt, interface == Some((0x0a01_0203, net)));
}

#[test]
fn prefixes_in_each_other(rt: HostRuntime) {
    let all = Prefix::masked(0, 0);
    let ten = Prefix::masked(0x0a00_0000, 8);
    let host = Prefix::masked(0x0a09_0003, 32);
    let other = Prefix::masked(0x0b00_0000, 8);
    holds(
        &rt,
        all.covers(&ten) && ten.covers(&host) && !host.covers(&ten) && ten.covers(&ten),
    );
    holds(&rt, host.overlaps(&ten) && !other.overlaps(&ten));
    holds(
        &rt,
        all.is_before(&ten)
            && ten.is_before(&host)
            && host.is_before(&other)
            && !other.is_before(&other),
    );
    // the same bits: the shorter comes first
    let sixteen = Prefix::masked(0x0a00_0000, 16);
    let thirty = Prefix::masked(0x0a00_0000, 30);
    holds(&rt, ten.is_before(&sixteen) && !sixteen.is_before(&ten));
    holds(
        &rt,
        sixteen.is_before(&thirty) && !thirty.is_before(&sixteen),
    );
}

#[test]
fn masks(rt: HostRuntime) {
    let address = 0xc0a8_0181;
    let cases = [
        (Prefix::masked(address, 25), 0xc0a8_0180, 25),
        (Prefix::masked(address, 24), 0xc0a8_0100, 24),
        (Prefix::masked(address, 1), 0x8000_0000, 1),
        (Prefix::masked(address, 0), 0, 0),
        (Prefix::masked(address, 32), 0xc0a8_0181, 32),
    ];
    for (prefix, bits, len) in cases {
        holds(&rt, (prefix.bits, prefix.len) == (bits, len));
    }
}

#[test]
fn texts(rt: HostRuntime) {
    let alloc = rt.alloc();
    let cases = [
        (Prefix::masked(0x0a00_0100, 30), "10.0.1.0/30"),
        (Prefix::masked(0, 0), "0.0.0.0/0"),
        (Prefix::masked(0xffff_ffff, 32), "255.255.255.255/32"),
    ];
    for (prefix, wanted) in cases {
        match prefix_text(alloc, &prefix) {
            Ok(text) => holds(&rt, text.as_str() == wanted),
            Err(_) => holds(&rt, false),
        }
    }
    match address_text(alloc, 0xc000_0201) {
        Ok(text) => holds(&rt, text.as_str() == "192.0.2.1"),
        Err(_) => holds(&rt, false),
    }
}

#[test]
fn numbers_and_names(rt: HostRuntime) {
    holds(&rt, read_number(b"65535", 1, 65535) == Some(65535));
    holds(&rt, read_number(b"65536", 1, 65535) == None);
    holds(
        &rt,
        read_number(b"99999999999999999999999999", 0, 65535) == None,
    );
    holds(&rt, read_number(b"0", 0, 1) == Some(0));
    holds(&rt, read_number(b"+1", 0, 1) == None);
    holds(
        &rt,
        read_number(b"4294967295", 1, 0xffff_ffff) == Some(0xffff_ffff),
    );
    holds(&rt, read_number(b"4294967296", 1, 0xffff_ffff) == None);
    holds(&rt, read_number(b"0", 1, 9) == None);
    for text in [
        b"00".as_slice(),
        b"01",
        b"",
        b"1 ",
        b" 1",
        b"-1",
        b"1/",
        b"1:",
    ] {
        holds(&rt, read_number(text, 0, 9) == None);
    }
    holds(
        &rt,
        is_host(b"core-1.example_net") && !is_host(b"a b") && !is_host(b""),
    );
    holds(&rt, is_name(b"eth0:1") && !is_name(b"a\tb"));
}

#[test]
fn communities(rt: HostRuntime) {
    let cases = [
        (b"1:2".as_slice(), Some(0x0001_0002)),
        (b"0:65535", Some(0x0000_ffff)),
        (b"no-export", Some(0xffff_ff01)),
        (b"no-advertise", Some(0xffff_ff02)),
        (b"65536:0", None),
        (b"01:2", None),
        (b"1:2:3", None),
        (b"1", None),
        (b"no-exports", None),
    ];
    for (text, wanted) in cases {
        holds(&rt, read_community(text) == wanted);
    }
}

#[test]
fn ends_of_names(rt: HostRuntime) {
    // the bytes beside the ranges of letters and digits, and of what is printed
    for text in [b"/".as_slice(), b":", b"@", b"[", b"`", b"{", b"\xc3\xa9"] {
        holds(&rt, !is_host(text));
    }
    for text in [
        b"A".as_slice(),
        b"Z",
        b"a",
        b"z",
        b"0",
        b"9",
        b"-",
        b".",
        b"_",
    ] {
        holds(&rt, is_host(text));
    }
    holds(
        &rt,
        is_name(b"!") && is_name(b"~") && !is_name(b" ") && !is_name(b"\x7f"),
    );
    holds(&rt, !is_name(b"\xc3\xa9") && !is_name(b""));
    holds(&rt, is_host(&[b'a'; 63]) && !is_host(&[b'a'; 64]));
    holds(&rt, is_name(&[b'!'; 63]) && !is_name(&[b'!'; 64]));
}

#[test]
fn failure_sets(rt: HostRuntime) {
    let two = FailSet::of(&[0, 5]);
    holds(
        &rt,
        two == Some(FailSet {
            count: 2,
            links: [0, 5, 255],
        }),
    );
    holds(&rt, FailSet::of(&[5, 0]) == None);
    holds(&rt, FailSet::of(&[1, 1]) == None);
    holds(&rt, FailSet::of(&[1, 2, 3, 4]) == None);
    if let Some(set) = two {
        holds(&rt, set.holds(5) && !set.holds(255));
        holds(
            &rt,
            set.without(0)
                == FailSet {
                    count: 1,
                    links: [5, 255, 255],
                },
        );
        holds(&rt, set.without(7) == set);
    }
    holds(&rt, FailSet::of(&[]) == Some(FailSet::empty()));
    holds(
        &rt,
        FailSet::empty()
            == FailSet {
                count: 0,
                links: [255; 3],
            },
    );
}

#[test]
fn three_failures(rt: HostRuntime) {
    let three = FailSet {
        count: 3,
        links: [1, 2, 3],
    };
    holds(&rt, FailSet::of(&[1, 2, 3]) == Some(three));
    holds(&rt, FailSet::of(&[1, 3, 2]) == None);
    holds(&rt, FailSet::of(&[2, 1, 3]) == None);
    holds(
        &rt,
        three.holds(1) && three.holds(2) && three.holds(3) && !three.holds(4),
    );
    let cases = [(1, [2, 3, 255]), (2, [1, 3, 255]), (3, [1, 2, 255])];
    for (link, links) in cases {
        let two = three.without(link);
        holds(&rt, (two.count, two.links) == (2, links));
    }
    holds(&rt, three.without(4) == three);
}

#[test]
fn sets_of_numbers(rt: HostRuntime) {
    let set = Bits64::EMPTY.with(0).with(63);
    holds(
        &rt,
        set.has(0) && set.has(63) && !set.has(5) && set.is_part(Bits64::FULL),
    );
    holds(
        &rt,
        set.without(0).union(Bits64::EMPTY.with(63)) == Bits64::EMPTY.with(63),
    );
    holds(
        &rt,
        set.minus(Bits64::FULL).is_empty() && set.common(Bits64::FULL) == set,
    );
    let low = Bits64::EMPTY.with(1).with(2);
    let high = Bits64::EMPTY.with(2).with(3);
    holds(&rt, low.union(high) == Bits64::from_word(0b1110));
    holds(&rt, low.common(high) == Bits64::from_word(0b0100));
    holds(&rt, low.minus(high) == Bits64::from_word(0b0010));
    holds(&rt, low.has(1) && low.has(2) && !low.has(0) && !low.has(3));
    holds(&rt, !low.is_part(high) && low.common(high).is_part(high));
}
