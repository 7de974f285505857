//! A set of a generation after some elements left it.
ghost use Rattle.std.specs.Prelude.{◌<◌};

use crate::asserts::same;
use crate::fixture::{add, alone, commit, commit_ports, key};
use gen_publish::{Control, Reader};
use pipapo_image::{Scratch, SetImage};
use set_model::{Found, fits};
use set_space::KeptSet;
use std::alloc::Global;
use std::process::Abort;
use std::test::Fail;

/// Commits ports 0 to 9, of which 1 and 3 expire, at the moment of their expiry.
fn commit_ten(rt: &impl Abort, alloc: Global, control: &mut Control) {
    for port in 0..10u32 {
        let expiry = if port == 1 || port == 3 {
            Some(10)
        } else {
            None
        };
        let port = u128::from(port);
        let _ = add(rt, alloc, control, port, port, expiry).expect(rt, "room");
    }
    commit(rt, control, 10);
}

/// Asserts the place and the id of a port's element before any expires.
fn assert_found(rt: &impl Abort, alloc: Global, set: &KeptSet, port: u128, wanted: Option<Found>) {
    let key = key(rt, alloc, port);
    assert!(rt; fits(set.kinds(), &key));
    let mut scratch = Scratch::new(alloc).expect(rt, "memory");
    assert!(rt; set.find(&key, 0, &mut scratch) == wanted);
}

/// Asserts that ports 1 and 3 have left the set.
fn assert_two_left(rt: &impl Abort, alloc: Global, set: &KeptSet) {
    same(rt, set.len(), 8);
    assert!(rt; !set.is_disjoint());
    assert_found(rt, alloc, set, 0, Some(Found { place: 0, id: 0 }));
    assert_found(rt, alloc, set, 1, None);
    assert_found(rt, alloc, set, 2, Some(Found { place: 1, id: 2 }));
    assert_found(rt, alloc, set, 4, Some(Found { place: 2, id: 4 }));
}

/// The id of the element at a place, after ports 1 and 3 left.
fn id_at(place: u64) -> u64
    requires { place < 8 }
{
    match place {
        0 => 0,
        1 => 2,
        _ => place + 2,
    }
}

/// Asserts the elements that stay, from the last to the first and from the first to the last.
fn assert_elements(rt: &impl Abort, set: &KeptSet) {
    assert!(rt; set.len() == 8);
    let mut near = 0;
    for i in 0..8 {
        same(rt, set.element(7 - i, &mut near).id, id_at(7 - i));
    }
    for i in 0..8 {
        same(rt, set.element(i, &mut near).id, id_at(i));
    }
}

/// Asserts that a set that is shared stays after its reader left.
fn assert_shared(rt: &impl Abort, alloc: Global, control: &mut Control, reader: Reader) {
    let held = reader.enter();
    let sets = held.sets();
    assert!(rt; sets.len() > 0);
    let shared = sets.share(0).expect(rt, "memory");
    let _ = held.leave();
    commit_ports(rt, alloc, control, 80, 3);
    assert_elements(rt, &shared);
}

/// Asserts that only the elements that stay are in the image.
fn assert_closed_up(rt: &impl Abort, image: &SetImage) {
    let elements = image.elements();
    same(rt, elements.len(), 8);
    assert!(rt; elements.len() > 1);
    same(rt, elements.at(1).id, 2);
}

fn assert_kept(rt: &impl Abort, alloc: Global, control: &Control) {
    let sets = &control.generation().sets;
    assert!(rt; sets.len() > 0);
    let set = sets.at(0);
    assert_two_left(rt, alloc, set);
    assert_closed_up(rt, &set.closed_up(alloc).expect(rt, "memory"));
}

#[test]
fn places_are_those_in_the_list_of_what_stays(rt: HostRuntime) -> Result<(), Fail> {
    let alloc = rt.alloc();
    let (mut control, reader) = alone(alloc, None)?;
    commit_ten(&rt, alloc, &mut control);
    assert_kept(&rt, alloc, &control);
    assert_shared(&rt, alloc, &mut control, reader);
    Ok(())
}
