// Worked examples of a set: the result of an addition, and what lookups find after it.
use crate::sets::{Trial, on_new_set};
use pipapo_image::{Added, ChangeError};
use set_model::{Interval, Kind, Why};
use std::process::Abort;
use std::test::Fail;

const PORTS: [Kind; 1] = [Kind::Service];

/// Adds the values from `low` to `high` at moment 0, and asserts the result.
pub(crate) fn adds(
    rt: &impl Abort,
    trial: &mut Trial,
    low: u128,
    high: u128,
    expiry: Option<u64>,
    wanted: Result<Added, ChangeError>,
) {
    let answer = trial.add(rt, &[Interval { low, high }], expiry, 0);
    assert!(rt; answer == wanted);
}

/// Looks a value up, and asserts that it finds the element of this id, or none.
pub(crate) fn finds(
    rt: &impl Abort,
    trial: &mut Trial,
    value: u128,
    now: u64,
    wanted: Option<u64>,
) {
    match trial.find(rt, &[value], now) {
        Ok(Some(found)) => assert!(rt; wanted == Some(found.id)),
        Ok(None) => assert!(rt; wanted.is_none()),
        Err(_) => assert!(rt; false, "want of memory"),
    }
}

/// What is added to a set of ports at moment 0, one after another, and what is then looked up.
struct Example {
    name: &'static str,
    size: Option<u32>,
    disjoint: bool,
    /// The ports, their expiry, and the result of the addition.
    adds: &'static [(u128, u128, Option<u64>, Result<Added, ChangeError>)],
    /// The port, the moment, and the id of the element that is found.
    finds: &'static [(u128, u64, Option<u64>)],
}

const FIRST: Result<Added, ChangeError> = Ok(Added::New { id: 0 });

const SECOND: Result<Added, ChangeError> = Ok(Added::New { id: 1 });

const IN_THE_WAY: Result<Added, ChangeError> = Err(ChangeError::Refused(Why::Overlap { id: 0 }));

const EXAMPLES: [Example; 5] = [
    Example {
        name: "an enclosing interval is accepted",
        size: None,
        disjoint: false,
        adds: &[(10, 20, None, FIRST), (5, 30, None, SECOND)],
        finds: &[
            (15, 0, Some(0)),
            (7, 0, Some(1)),
            (30, 0, Some(1)),
            (31, 0, None),
        ],
    },
    Example {
        name: "an interval inside is refused",
        size: None,
        disjoint: false,
        adds: &[
            (5, 30, None, FIRST),
            (10, 20, None, IN_THE_WAY),
            (1, 5, None, IN_THE_WAY),
        ],
        finds: &[(15, 0, Some(0)), (1, 0, None)],
    },
    Example {
        name: "a set of one is full",
        size: Some(1),
        disjoint: false,
        adds: &[
            (80, 80, None, FIRST),
            (80, 80, None, Ok(Added::Already { id: 0 })),
            (81, 81, None, Err(ChangeError::Refused(Why::Full))),
        ],
        finds: &[],
    },
    Example {
        name: "an element is expired from its expiry on",
        size: None,
        disjoint: false,
        adds: &[(80, 90, Some(30_000), FIRST)],
        finds: &[(80, 29_999, Some(0)), (80, 30_000, None)],
    },
    Example {
        name: "a disjoint set refuses an enclosing interval",
        size: None,
        disjoint: true,
        adds: &[
            (10, 20, None, FIRST),
            (5, 9, None, SECOND),
            (5, 30, None, IN_THE_WAY),
        ],
        finds: &[(7, 0, Some(1)), (30, 0, None)],
    },
];

fn assert_example(rt: &impl Abort, trial: &mut Trial, example: &Example) {
    for (low, high, expiry, wanted) in example.adds {
        adds(rt, trial, *low, *high, *expiry, *wanted);
    }
    for (port, now, wanted) in example.finds {
        finds(rt, trial, *port, *now, *wanted);
    }
}

#[test]
fn additions_and_lookups_of_ports(rt: HostRuntime) -> Result<(), Fail> {
    for example in EXAMPLES.as_slice() {
        on_new_set(
            &rt,
            rt.alloc(),
            &PORTS,
            example.size,
            example.disjoint,
            |trial| { Ok(assert_example(&rt, trial, example)) },
        )?;
    }
    Ok(())
}

#[test]
fn a_renewal_reaches_every_rule(rt: HostRuntime) -> Result<(), Fail> {
    Ok(on_new_set(&rt, rt.alloc(), &PORTS, None, false, |trial| {
        adds(&rt, trial, 1, 254, Some(10), Ok(Added::New { id: 0 }));
        adds(&rt, trial, 1, 254, Some(20), Ok(Added::Renewed { id: 0 }));
        for port in 1..255u64 {
            finds(&rt, trial, port as u128, 19, Some(0));
            finds(&rt, trial, port as u128, 20, None);
        }
        Ok(())
    })?)
}
