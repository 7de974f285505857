//! Key files: their sections, the keys and moments of their packets, and the faults of those that are refused.
ghost use Rattle.std.specs.Prelude.{◌≤◌, length, IfOk};
ghost use Rattle.set_script.specs.Limits.{most_sets};

use crate::cases::{assert_told, reason_word, told_place, told_refusal};
use crate::packets::append_packets;
use crate::sets::schema_of;
use key_file::{KeyError, bad_token, read_keys};
use set_model::{Keys, Memory, Schema};
use std::alloc::Global;

/// The packets of each section, with a `/` before it.
fn told_sections(alloc: Global, keys: &Keys) -> Result<Vec<u8>, Memory> {
    let mut told = Vec::new(alloc);
    for section in keys.as_slice() {
        told.extend_from_slice(b"/")?;
        append_packets(section, &mut told)?;
    }
    Ok(told)
}

fn told_keys(alloc: Global, schema: &Schema, text: &[u8]) -> Result<Vec<u8>, Memory>
    requires { length schema.now ≤ most_sets }
{
    match read_keys(alloc, schema, text) {
        Ok(keys) => told_sections(alloc, &keys),
        Err(KeyError::Bad { line, reason }) => told_refusal(alloc, line, reason_word(reason)),
        Err(KeyError::Memory) => Err(Memory),
    }
}

/// Sets of ports, whose tables have the names of statements.
const PORTS: &[u8] = b"\
    add set ip t p { type inet_service ; }\n\
    add set ip at t1 { type inet_service ; }\n\
    add set ip round x { type inet_service ; }\n\
    ";

/// The packets of a text for `PORTS`.
fn port_keys(alloc: Global, text: &[u8]) -> Result<Vec<u8>, Memory> {
    told_keys(alloc, &schema_of(alloc, PORTS)?, text)
}

/// The packets of a text if no set is declared.
fn keys_of_no_set(alloc: Global, text: &[u8]) -> Result<Vec<u8>, Memory> {
    told_keys(alloc, &Schema::new(alloc), text)
}

/// A set of addresses and ports, and one of the other four kinds.
const VALUE_SETS: &[u8] = b"\
    add set ip at round { type ipv4_addr . inet_service ; flags interval ; }\n\
    add set inet t m { type ipv6_addr . ether_addr . inet_proto . mark ; }\n\
    ";

/// The packets of a text for `VALUE_SETS`.
fn value_keys(alloc: Global, text: &[u8]) -> Result<Vec<u8>, Memory> {
    told_keys(alloc, &schema_of(alloc, VALUE_SETS)?, text)
}

/// The place of the bad token of a text for `PORTS`.
fn place(alloc: Global, text: &[u8]) -> Result<Vec<u8>, Memory> {
    let schema = schema_of(alloc, PORTS)?;
    told_place(alloc, bad_token(alloc, &schema, text)?)
}

/// Moments may fall, and go on over rounds; `at` and `round` are tables, too.
const SECTIONS: &[u8] = b"\
    |/~\
    \n # none\n\n|/~\
    round|//~\
    \nround\n\n|//~\
    round\nround\nt p 1|///0 1 at 0;~\
    t p 1\nround\nround|/0 1 at 0;//~\
    ip t p 1\nat 1000000000000000\nt p 2\nround\nt p 3\n\nat 5\nip t p 4\nat 7|/0 1 at 0;0 2 at 1000000000000000;/0 3 at 1000000000000000;0 4 at 5;~\
    at t1 80\nat 9\nround x 80\nround # next\nip round x 80\nip at t1 80|/1 80 at 0;2 80 at 9;/2 80 at 9;1 80 at 9;~\
";

/// Keys of six kinds; a family may be left out.
const VALUES: &[u8] = b"\
    ip at round 10.0.0.6 . 1024|/0 167772166 1024 at 0;~\
    ip at round 10.0.0.6 . 1024\n|/0 167772166 1024 at 0;~\
    at round 10.0.0.6 . 1024\n|/0 167772166 1024 at 0;~\
    \nip at round 10.0.0.6 . 1024 # one\n\nip at round 10.0.0.7 \\\n. 0\n|/0 167772166 1024 at 0;0 167772167 0 at 0;~\
    inet t m 2001:DB8:0::1 . 00:01:02:0A:0B:0C . 6 . 255\n|/1 42540766411282592856903984951653826561 4329179916 6 255 at 0;~\
";

/// Lines and reasons.
const FAULTS: &[u8] = b"\
    ip t p 80 . 81|1 statement~\
    ip t p 80;|1 statement~\
    ip t p 80 ip t p 81|1 statement~\
    5|1 statement~\
    ip ip 5|1 set~\
    at 5 6|1 statement~\
    at 5;|1 statement~\
    round;|1 statement~\
    \"round\"|1 statement~\
    \n\nip t p\n80|3 statement~\
    at\n5|1 statement~\
    at 5\nt p|2 end~\
    at|1 end~\
    ip t p 80\nt \\\n|3 end~\
    ip t p 80-80|1 value~\
    ip t p 65536|1 value~\
    ip t p 80/16|1 value~\
    t p 80\nip t q 80|2 set~\
    inet t p 80|1 set~\
    round y|1 set~\
    round 5|1 set~\
    at x|1 moment~\
    at 05|1 moment~\
    at 1000000000000001|1 moment~\
    delete set 5|1 left out~\
    t p 80\nt p counter|2 left out~\
    *|1 left out~\
    ip t p @|1 character~\
    \xff|1 character~\
    round\n\"|2 character~\
";

/// The place, the length, the line and the column of a bad token.
const PLACES: &[u8] = b"\
    t p 80\nt q 80|9 1 2 3 set~\
    t p 80\n\tt p 70000\n|12 5 2 6 value~\
    t p 80 ;|7 1 1 8 statement~\
    t p|3 0 1 4 end~\
    t p 80|none~\
";

#[test]
fn key_files(rt: HostRuntime) {
    assert_told(&rt, rt.alloc(), SECTIONS, 8, port_keys);
    assert_told(&rt, rt.alloc(), VALUES, 5, value_keys);
    assert_told(&rt, rt.alloc(), FAULTS, 30, port_keys);
    assert_told(&rt, rt.alloc(), b"\nip t p 80|2 set~", 1, keys_of_no_set);
    assert_told(&rt, rt.alloc(), PLACES, 5, place);
}
