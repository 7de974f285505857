//! The code of a library user: the example of the library's first page, and a script that is loaded.
ghost use Rattle.std.specs.Prelude.{◌≡◌, length, All, IfOk};
ghost use Rattle.set_space.specs.Open.{CanBeBuilt};

use pipapo::{
    Comment, Control, Family, Held, Interval, Key, Kind, Kinds, Memory, Name, NewElement, OpenGate,
    Parts, Reader, Schema, Script, SetDecl, count_commits, has_numbers, read_script, run_steps,
    start,
};
use std::alloc::Global;
use std::process::Abort;
use std::thread::{Threads, join};

/// One set of services: hosts and ports.
fn services(alloc: Global) -> Result<Schema, Memory>
    ensures built { IfOk result (All CanBeBuilt) }
    ensures one { IfOk result (λ schema. length schema ≡ 1) }
{
    let mut kinds = Kinds::new(alloc);
    kinds.push(Kind::Ipv4)?;
    kinds.push(Kind::Service)?;
    let mut schema = Schema::new(alloc);
    schema.push(SetDecl {
        family: Family::Ip,
        table: Name::from_vec(b"filter".to_vec(alloc)?),
        name: Name::from_vec(b"services".to_vec(alloc)?),
        kinds,
        interval: true,
        timed: false,
        disjoint: false,
        timeout: None,
        size: None,
    })?;
    Ok(schema)
}

/// Inserts the services of 192.0.2.0/24 at ports from `low` to `high`.
fn open(rt: &impl Abort, alloc: Global, control: &mut Control, low: u128, high: u128) {
    let hosts = Interval {
        low: 0xc000_0200,
        high: 0xc000_02ff,
    };
    let mut parts = Parts::new(alloc);
    parts.push(hosts).expect(rt, "memory");
    parts.push(Interval { low, high }).expect(rt, "memory");
    assert!(rt; control.fits(0, &parts));
    let element = NewElement {
        parts,
        expiry: None,
        comment: Comment::new(alloc),
    };
    let _ = control.insert(0, &element, 0).expect(rt, "room");
}

/// Whether a packet to a port of 192.0.2.7 finds an element.
fn is_open(rt: &impl Abort, alloc: Global, held: &mut Held, port: u128) -> bool {
    let mut key = Key::new(alloc);
    key.push(0xc000_0207).expect(rt, "memory");
    key.push(port).expect(rt, "memory");
    assert!(rt; held.fits(0, &key));
    held.lookup(0, &key, 0).is_some()
}

fn example<R: Threads + Abort + Sync>(rt: &R, alloc: Global) -> (bool, bool) {
    let schema = services(alloc).expect(rt, "memory");
    let (mut control, mut readers) = start(alloc, schema, 1).expect(rt, "memory");
    let reader = readers.pop().expect(rt, "a reader");
    open(rt, alloc, &mut control, 80, 443);
    assert!(rt; control.number() == 0);
    let receipt = control.commit(0).expect(rt, "memory");
    assert!(rt; receipt.generation == 1);
    let packets = move || {
        let mut held = reader.enter();
        let found = (
            is_open(rt, alloc, &mut held, 443),
            is_open(rt, alloc, &mut held, 22),
        );
        held.leave();
        found
    };
    let second_thought = move || {
        open(rt, alloc, &mut control, 22, 22);
        control.abort();
    };
    join(rt, packets, second_thought).0
}

#[test]
fn packets_beside_a_control(rt: HostRuntime) {
    assert!(rt; example(&rt, rt.alloc()) == (true, false));
}

/// A control with the sets and the elements of a script's first section.
fn load(rt: &impl Abort, alloc: Global, text: &[u8]) -> (Control, Vec<Reader>) {
    let script = read_script(alloc, text).expect(rt, "a script");
    let Script {
        schema,
        sections,
        ..
    } = script;
    let (mut control, readers) = start(alloc, schema, 1).expect(rt, "memory");
    if sections.len() > 0 {
        let steps = sections.at(0);
        assert!(rt; has_numbers(&control, count_commits(steps)));
        let _ = run_steps(alloc, &mut control, steps, false, &OpenGate).expect(rt, "memory");
    }
    (control, readers)
}

/// Whether a reader finds port 80 in the one set of ports.
fn finds_port_80(rt: &impl Abort, alloc: Global, reader: Reader) -> bool {
    let mut held = reader.enter();
    let mut key = Key::new(alloc);
    key.push(80).expect(rt, "memory");
    assert!(rt; held.fits(0, &key));
    let found = held.lookup(0, &key, 0).is_some();
    held.leave();
    found
}

#[test]
fn a_text_is_loaded(rt: HostRuntime) {
    let text =
        b"add table ip t\nadd set ip t p { type inet_service; }\nadd element ip t p { 80 }\ncommit\n";
    let (control, mut readers) = load(&rt, rt.alloc(), text);
    assert!(rt; control.number() == 1);
    let reader = readers.pop().expect(&rt, "a reader");
    assert!(rt; finds_port_80(&rt, rt.alloc(), reader));
}
