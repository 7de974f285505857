//! The lines of events, of packets and of a summary.
ghost use Rattle.std.specs.Prelude.{◌≡◌, IfOk, length};
ghost use Rattle.set_report.specs.Writes.{NamesSet};

use set_model::{
    Event, Events, Family, Kind, Kinds, Line, Lines, Memory, Name, Schema, SetDecl, Verdict, Why,
};
use set_report::{write_events, write_lines, write_summary};
use set_space::Generation;
use std::alloc::Global;
use std::process::Abort;
use std::test::Fail;

/// A schema of one set: `inet filter allowed`.
fn one_set(alloc: Global) -> Result<Schema, Memory>
    ensures { IfOk result (λ schema. length schema ≡ 1) }
{
    Ok(Schema::from_vec(vec![in alloc;
        SetDecl {
            family: Family::Inet,
            table: Name::from_vec(Vec::from_slice(alloc, b"filter")?),
            name: Name::from_vec(Vec::from_slice(alloc, b"allowed")?),
            kinds: Kinds::from_vec(vec![in alloc; Kind::Service]?),
            interval: true,
            timed: false,
            disjoint: false,
            timeout: None,
            size: None,
        },
    ]?))
}

/// Writes the line of one event, and compares it.
fn check_event(
    rt: &impl Abort,
    alloc: Global,
    schema: &Schema,
    event: Event,
    text: &[u8],
) -> Result<(), Fail>
    requires { NamesSet (length schema.now) event }
{
    let mut out = Vec::new(alloc);
    let events = Events::from_vec(vec![in alloc; event]?);
    write_events(schema, &events, b"", &mut out)?;
    assert!(rt; out.as_slice() == text);
    Ok(())
}

const REFUSALS: [(Why, &[u8]); 5] = [
    (
        Why::Overlap { id: 0 },
        b"line 2 refused overlap inet filter allowed element 0\n",
    ),
    (
        Why::Exists {
            id: 18_446_744_073_709_551_614,
        },
        b"line 2 refused exists inet filter allowed element 18446744073709551614\n",
    ),
    (Why::Full, b"line 2 refused full inet filter allowed\n"),
    (
        Why::RulesFull { field: 15 },
        b"line 2 refused rules inet filter allowed field 15\n",
    ),
    (
        Why::Missing,
        b"line 2 refused missing inet filter allowed\n",
    ),
];

/// Compares the lines of refusals.
fn check_refusals(rt: &impl Abort, alloc: Global, schema: &Schema) -> Result<(), Fail>
    requires { length schema.now ≡ 1 }
{
    for (why, text) in REFUSALS {
        let event = Event::Refused {
            line: 2,
            set: 0,
            why,
        };
        check_event(rt, alloc, schema, event, text)?;
    }
    Ok(())
}

/// Compares the lines of transactions.
fn check_ends(rt: &impl Abort, alloc: Global, schema: &Schema) -> Result<(), Fail> {
    let committed = Event::Committed {
        generation: 1,
        purged: 10,
    };
    check_event(
        rt,
        alloc,
        schema,
        committed,
        b"commit generation 1 purged 10\n",
    )?;
    let aborted = Event::Aborted { generation: 1 };
    check_event(rt, alloc, schema, aborted, b"abort generation 1\n")?;
    let dropped = Event::Dropped { generation: 1 };
    check_event(rt, alloc, schema, dropped, b"fail generation 1\n")
}

#[test]
fn each_event_has_its_line(rt: HostRuntime) -> Result<(), Fail> {
    let schema = one_set(rt.alloc())?;
    check_refusals(&rt, rt.alloc(), &schema)?;
    check_ends(&rt, rt.alloc(), &schema)
}

fn line(packet: u64, thread: u32, generation: u64, verdict: Verdict) -> Line {
    Line {
        packet,
        thread,
        generation,
        verdict,
    }
}

/// The lines of three packets, of which two found an element.
fn three_lines(alloc: Global, id: u64) -> Result<Lines, Memory> {
    let found = Verdict::Element { id };
    Ok(Lines::from_vec(vec![in alloc;
        line(0, 15, 2, found),
        line(1, 0, 0, Verdict::None),
        line(2, 0, 0, found),
    ]?))
}

#[test]
fn each_packet_has_its_line_behind_what_is_there(rt: HostRuntime) -> Result<(), Fail> {
    let mut out = Vec::from_slice(rt.alloc(), b"abort generation 0\n")?;
    write_lines(&three_lines(rt.alloc(), 7)?, &mut out)?;
    let text: &[u8] = b"abort generation 0\n\
                        packet 0 thread 15 generation 2 element 7\n\
                        packet 1 thread 0 generation 0 none\n\
                        packet 2 thread 0 generation 0 element 7\n";
    assert!(rt; out.as_slice() == text);
    Ok(())
}

/// Two refusals and a commit.
fn three_events(alloc: Global) -> Result<Events, Memory> {
    let refused = Event::Refused {
        line: 2,
        set: 0,
        why: Why::Full,
    };
    let committed = Event::Committed {
        generation: 1,
        purged: 0,
    };
    Ok(Events::from_vec(vec![in alloc; refused, committed, refused]?))
}

/// The summary of these events and lines, in a generation without sets.
fn summary(alloc: Global, lines: &Lines, out: &mut Vec<u8>) -> Result<(), Memory> {
    let generation = Generation::first(alloc, &Schema::new(alloc))?;
    write_summary(&three_events(alloc)?, lines, &generation, out)
}

#[test]
fn a_summary_has_sums_of_more_than_64_bits(rt: HostRuntime) -> Result<(), Fail> {
    let mut out = Vec::from_slice(rt.alloc(), b"# ")?;
    let lines = three_lines(rt.alloc(), 18_446_744_073_709_551_614)?;
    summary(rt.alloc(), &lines, &mut out)?;
    let text: &[u8] =
        b"# drill elements 0 refused 2 generation 0 packets 3 matched 2 sum 36893488147419103228\n";
    assert!(rt; out.as_slice() == text);
    Ok(())
}
