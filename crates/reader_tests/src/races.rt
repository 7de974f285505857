//! Readers in threads of their own, beside a control that commits.
use crate::asserts::same;
use crate::fixture::{commit_ports, key, look, started};
use gen_publish::{Control, Held};
use set_model::{Key, Memory};
use std::alloc::Global;
use std::process::Abort;
use std::test::Fail;
use std::thread::{Threads, join};

/// How many lookups return a wrong id in generation n, which has the ports 0 to n - 1.
fn wrong(rt: &impl Abort, held: &mut Held, keys: &[Key]) -> u64 {
    let now = held.generation();
    let mut wrong = 0u64;
    for (i, key) in keys.iter().enumerate() {
        let port = i as u64;
        let wanted = if port < now { Some(port) } else { None };
        wrong = wrong.wrapping_add((look(rt, held, key) != wanted) as u64);
    }
    wrong
}

/// How often a lookup returned a wrong id, or a generation was older than the one before.
fn faults(rt: &impl Abort, mut held: Held, keys: &[Key]) -> u64 {
    let (mut last, mut faults) = (0, 0u64);
    for _ in 0..5000u32 {
        faults = faults.wrapping_add(wrong(rt, &mut held, keys));
        let now = held.generation();
        faults = faults.wrapping_add((now < last) as u64);
        last = now;
        held = held.leave().enter();
    }
    faults
}

fn first_ports(rt: &impl Abort, alloc: Global) -> Vec<Key> {
    let mut keys = Vec::new(alloc);
    for port in 0..20u32 {
        keys.push(key(rt, alloc, u128::from(port)))
            .expect(rt, "memory");
    }
    keys
}

/// The faults of two readers, one of which enters before the control's first commit.
fn race<R: Threads + Abort + Sync>(
    rt: &R,
    alloc: Global,
    control: Control,
    early: Held,
    late: Held,
    keys: &[Key],
) -> u64 {
    let mut control = control;
    let ((), (one, two)) = join(
        rt,
        move || commit_ports(rt, alloc, &mut control, 0, 300),
        move || {
            join(
                rt,
                move || faults(rt, early, keys),
                move || faults(rt, late, keys),
            )
        },
    );
    one.wrapping_add(two)
}

#[test]
fn readers_beside_a_control_see_whole_generations(rt: HostRuntime) -> Result<(), Fail> {
    let alloc = rt.alloc();
    let (control, mut readers) = started(alloc, 2)?;
    let early = readers.pop().expect(&rt, "a reader").enter();
    let late = readers.pop().expect(&rt, "a reader").enter();
    let keys = first_ports(&rt, alloc);
    let faults = race(&rt, alloc, control, early, late, keys.as_slice());
    same(&rt, faults, 0);
    Ok(())
}
