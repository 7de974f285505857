//! Texts from outside: RFC 4291 section 2.2, RFC 5952 sections 1 to 4, nft(8), and faulty ones.
//!
//! A letter is before each value: 4 and 6 for an address, e for one of Ethernet, p for a protocol, s for a port, m for a mark.
use crate::cases::{assert_told, cut, line_of};
use addr_text::{read_interval, read_time, read_value, write_interval, write_time, write_value};
use set_model::{Kind, Memory};
use std::alloc::Global;
use text_pieces::Piece;

fn kind_of(letter: &[u8]) -> Kind {
    match letter {
        b"4" => Kind::Ipv4,
        b"6" => Kind::Ipv6,
        b"e" => Kind::Ether,
        b"p" => Kind::Proto,
        b"s" => Kind::Service,
        _ => Kind::Mark,
    }
}

/// A value as it is written.
fn told_value(alloc: Global, case: &[u8]) -> Result<Vec<u8>, Memory> {
    let (letter, text) = cut(case, b' ');
    let kind = kind_of(letter);
    let Ok(value) = read_value(kind, text) else {
        return line_of(alloc, &[Piece::Word(b"refused")]);
    };
    let mut told = Vec::new(alloc);
    write_value(kind, value, &mut told)?;
    Ok(told)
}

/// The ends of an interval, and how it is written.
fn told_interval(alloc: Global, case: &[u8]) -> Result<Vec<u8>, Memory> {
    let (letter, text) = cut(case, b' ');
    let kind = kind_of(letter);
    let Ok(part) = read_interval(kind, text) else {
        return line_of(alloc, &[Piece::Word(b"refused")]);
    };
    let mut told = line_of(
        alloc,
        &[
            Piece::Sum(part.low),
            Piece::Word(b" "),
            Piece::Sum(part.high),
            Piece::Word(b" "),
        ],
    )?;
    write_interval(kind, part, &mut told)?;
    Ok(told)
}

/// A time in milliseconds, and how it is written.
fn told_time(alloc: Global, text: &[u8]) -> Result<Vec<u8>, Memory> {
    let Ok(time) = read_time(text) else {
        return line_of(alloc, &[Piece::Word(b"refused")]);
    };
    let mut told = line_of(alloc, &[Piece::Number(time), Piece::Word(b" ")])?;
    write_time(time, &mut told)?;
    Ok(told)
}

/// Values, and their one written form.
const VALUES: &[u8] = b"\
    6 ABCD:EF01:2345:6789:ABCD:EF01:2345:6789|abcd:ef01:2345:6789:abcd:ef01:2345:6789~\
    6 2001:DB8:0:0:8:800:200C:417A|2001:db8::8:800:200c:417a~\
    6 FF01:0:0:0:0:0:0:101|ff01::101~\
    6 0:0:0:0:0:0:0:1|::1~\
    6 0:0:0:0:0:0:0:0|::~\
    6 ::|::~\
    6 0:0:0:0:0:0:13.1.68.3|::d01:4403~\
    6 ::FFFF:129.144.52.38|::ffff:8190:3426~\
    6 ::ffff:192.0.2.1|::ffff:c000:201~\
    6 2001:0db8:0:0:1:0:0:1|2001:db8::1:0:0:1~\
    6 2001:DB8:0:0:1:0:0:1|2001:db8::1:0:0:1~\
    6 2001:db8:0:0:0:0:2:1|2001:db8::2:1~\
    6 2001:db8:0:1:1:1:1:1|2001:db8:0:1:1:1:1:1~\
    6 2001:0:0:1:0:0:0:1|2001:0:0:1::1~\
    6 2001:db8:aaaa:bbbb:cccc:dddd:eeee:0001|2001:db8:aaaa:bbbb:cccc:dddd:eeee:1~\
    6 1:2:3:4:5:6:7::|1:2:3:4:5:6:7:0~\
    4 192.0.2.1|192.0.2.1~\
    4 255.255.255.255|255.255.255.255~\
    e 0:1B:21:a:b:C|00:1b:21:0a:0b:0c~\
    p icmpv6|ipv6-icmp~\
    p ip|0~\
    p hopopt|0~\
    p xns-idp|22~\
    p ospf|89~\
    p ax.25|93~\
    p ethernet|143~\
    p 6|tcp~\
    p 0|0~\
    s 65535|65535~\
    m 10|0x0000000a~\
    m 0xFf|0x000000ff~\
    m 4294967295|0xffffffff~\
    4 |refused~\
    4 01.2.3.4|refused~\
    4 1.2.3|refused~\
    4 1.2.3.4.5|refused~\
    4 256.0.0.0|refused~\
    4 1.2.3.\xc3\xa9|refused~\
    6 |refused~\
    6 1::2::3|refused~\
    6 1:2:3:4::5:6:7:8|refused~\
    6 1:2:3:4:5:6:7:8::|refused~\
    6 12345::|refused~\
    6 :1|refused~\
    6 ::ffff:192.0.02.1|refused~\
    e 0:1:2:3:4|refused~\
    e 0:1:2:3:4:5:6|refused~\
    e 000:1:2:3:4:5|refused~\
    p |refused~\
    p 256|refused~\
    p 01|refused~\
    p TCP|refused~\
    p mptcp|refused~\
    s 65536|refused~\
    s http|refused~\
    m 4294967296|refused~\
    m 0x|refused~\
    m 0x123456789|refused~\
    m 0X1f|refused~\
    s 8\xff|refused~\
";

/// Values, blocks and ranges.
const INTERVALS: &[u8] = b"\
    4 10.0.0.5/8|167772160 184549375 10.0.0.0/8~\
    4 10.0.0.0-10.255.255.255|167772160 184549375 10.0.0.0/8~\
    4 1.2.3.4-1.2.3.4|16909060 16909060 1.2.3.4~\
    4 192.168.1.0-192.168.2.1|3232235776 3232236033 192.168.1.0-192.168.2.1~\
    6 ::/0|0 340282366920938463463374607431768211455 ::/0~\
    6 ::2-::3|2 3 ::2/127~\
    p ipv6-icmp|58 58 ipv6-icmp~\
    p ipv6-icmp-sctp|58 132 ipv6-icmp-sctp~\
    p icmp-ipv6-icmp|1 58 icmp-ipv6-icmp~\
    p ipv6-icmpv6|41 58 41-ipv6-icmp~\
    p ipv6-ipv6-icmp|41 58 41-ipv6-icmp~\
    p ipv6-mobility-header|41 135 41-135~\
    p mpls-in-ip-hip|137 139 137-139~\
    p ipv6-route|43 43 43~\
    p ipv6-route/4|32 47 32-gre~\
    p ip-icmp|0 1 0-icmp~\
    p tcp-udp|6 17 tcp-udp~\
    p tcp/8|6 6 tcp~\
    s 80-443|80 443 80-443~\
    s 80/8|0 255 0-255~\
    m 0x10/24|0 255 0x00000000-0x000000ff~\
    4 |refused~\
    4 -|refused~\
    4 10.0.0.0/33|refused~\
    4 10.0.0.0/08|refused~\
    4 10.0.0.0/|refused~\
    4 1.2.3.4/1/1|refused~\
    4 10.0.0.2-10.0.0.1|refused~\
    4 10.0.0.0/8-11.0.0.0|refused~\
    4 1.2.3.4-|refused~\
    s 10-20-30|refused~\
    p ipv6-icmp-|refused~\
    p ipv6-tcp|refused~\
    p ipv6-routes|refused~\
    p in-ip|refused~\
    p xns|refused~\
";

/// Times.
const TIMES: &[u8] = b"\
    59m59s992ms|3599992 59m59s992ms~\
    10d3h59m59s988ms|878399988 10d3h59m59s988ms~\
    3570996ms|3570996 59m30s996ms~\
    30|30000 30s~\
    0|0 0s~\
    090|90000 1m30s~\
    48h|172800000 2d~\
    1000000000000|1000000000000000 11574074d1h46m40s~\
    |refused~\
    1000000000001|refused~\
    1000000000000001ms|refused~\
    1234567890123456|refused~\
    1s1m|refused~\
    1s1s|refused~\
    1w|refused~\
    s|refused~\
    1m1|refused~\
    1\xc3\xa9|refused~\
";

#[test]
fn addresses_and_times(rt: HostRuntime) {
    assert_told(&rt, rt.alloc(), VALUES, 60, told_value);
    assert_told(&rt, rt.alloc(), INTERVALS, 36, told_interval);
    assert_told(&rt, rt.alloc(), TIMES, 18, told_time);
}
