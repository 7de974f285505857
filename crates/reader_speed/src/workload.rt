//! Reads the workloads that `bench/workloads.py` writes.
use crate::fault::Fault;
use set_model::{Comment, Interval, Key, Kind, Kinds, NewElement, Parts};
use std::alloc::Global;
use std::str::SplitWhitespace;

/// The kinds of a set's fields, its elements, and the keys to look up.
#[derive(Drop)]
pub(crate) struct Workload {
    pub(crate) kinds: Kinds,
    pub(crate) elements: Vec<NewElement>,
    pub(crate) keys: Vec<Key>,
}

fn kind_of(word: &str) -> Result<Kind, Fault> {
    match word {
        "ipv4_addr" => Ok(Kind::Ipv4),
        "ipv6_addr" => Ok(Kind::Ipv6),
        "ether_addr" => Ok(Kind::Ether),
        "inet_proto" => Ok(Kind::Proto),
        "inet_service" => Ok(Kind::Service),
        "mark" => Ok(Kind::Mark),
        _ => Err(Fault::Workload),
    }
}

/// A value in hexadecimal.
fn value(word: &str) -> Result<u128, Fault> {
    match u128::from_str_radix(word, 16) {
        Ok(value) => Ok(value),
        Err(_) => Err(Fault::Workload),
    }
}

fn interval(word: &str) -> Result<Interval, Fault> {
    match word.split_once('-') {
        Some((low, high)) => Ok(Interval {
            low: value(low)?,
            high: value(high)?,
        }),
        None => Err(Fault::Workload),
    }
}

impl Workload {
    /// The workload of a text: a line `fields KIND ..`, lines `e LOW-HIGH ..` and lines `k VALUE ..`.
    pub(crate) fn read(alloc: Global, text: &str) -> Result<Workload, Fault> {
        let mut workload = Workload {
            kinds: Kinds::new(alloc),
            elements: Vec::new(alloc),
            keys: Vec::new(alloc),
        };
        for line in text.lines() {
            workload.read_line(alloc, line)?;
        }
        Ok(workload)
    }

    fn read_line(&mut self, alloc: Global, line: &str) -> Result<(), Fault> {
        let mut words = line.split_whitespace();
        match words.next() {
            Some("fields") => {
                for word in words {
                    self.kinds.push(kind_of(word)?)?;
                }
                Ok(())
            }
            Some("e") => Ok(self.elements.push(element(alloc, words)?)?),
            Some("k") => Ok(self.keys.push(key(alloc, words)?)?),
            _ => Err(Fault::Workload),
        }
    }
}

/// The element of these intervals.
fn element(alloc: Global, words: SplitWhitespace) -> Result<NewElement, Fault> {
    let mut parts = Parts::new(alloc);
    for word in words {
        parts.push(interval(word)?)?;
    }
    Ok(NewElement {
        parts,
        expiry: None,
        comment: Comment::new(alloc),
    })
}

/// The key of these values.
fn key(alloc: Global, words: SplitWhitespace) -> Result<Key, Fault> {
    let mut key = Key::new(alloc);
    for word in words {
        key.push(value(word)?)?;
    }
    Ok(key)
}
