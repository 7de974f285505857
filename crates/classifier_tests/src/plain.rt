use pipapo_image::{Added, ChangeError};
use set_model::{Found, Interval, Memory, Why};
use std::alloc::Global;

/// An element as its intervals.
#[derive(Drop)]
pub(crate) struct PlainElement {
    pub(crate) id: u64,
    pub(crate) parts: Vec<Interval>,
    pub(crate) expiry: Option<u64>,
}

impl PlainElement {
    pub(crate) fn is_live(&self, now: u64) -> bool {
        match self.expiry {
            Some(moment) => now < moment,
            None => true,
        }
    }

    pub(crate) fn holds(&self, key: &[u128]) -> bool {
        self.parts
            .iter()
            .zip(key.iter())
            .all(|(part, value)| part.low <= *value && *value <= part.high)
    }
}

/// A set as the plain list of its elements, in order of insertion.
#[derive(Drop)]
pub(crate) struct PlainSet {
    pub(crate) elements: Vec<PlainElement>,
    pub(crate) next: u64,
    pub(crate) alloc: Global,
}

impl PlainSet {
    pub(crate) fn new(alloc: Global) -> PlainSet {
        PlainSet {
            elements: Vec::new(alloc),
            next: 0,
            alloc,
        }
    }

    /// The place of the first element that is live and holds the key.
    pub(crate) fn place(&self, key: &[u128], now: u64) -> Option<usize> {
        for (i, element) in self.elements.iter().enumerate() {
            if element.is_live(now) && element.holds(key) {
                return Some(i);
            }
        }
        None
    }

    /// The interval of field `f` of the element at a place.
    pub(crate) fn part(&self, place: usize, f: usize) -> Option<Interval> {
        match self.elements.get(place) {
            Some(element) => element.parts.get(f).copied(),
            None => None,
        }
    }

    /// The first element that is live and holds the key.
    pub(crate) fn find(&self, key: &[u128], now: u64) -> Option<Found> {
        let place = self.place(key, now)?;
        let element = self.elements.get(place)?;
        Some(Found {
            place: place as u64,
            id: element.id,
        })
    }

    /// Adds an element, or renews it, or reports which element is in the way.
    pub(crate) fn add(
        &mut self,
        parts: &[Interval],
        expiry: Option<u64>,
        now: u64,
    ) -> Result<Added, ChangeError> {
        let lows = lows(self.alloc, parts)?;
        if let Some(place) = self.place(lows.as_slice(), now) {
            return self.add_again(place, parts, expiry);
        }
        let highs = highs(self.alloc, parts)?;
        if let Some(found) = self.find(highs.as_slice(), now) {
            return Err(ChangeError::Refused(Why::Overlap { id: found.id }));
        }
        self.push(parts, expiry)
    }

    pub(crate) fn add_again(
        &mut self,
        place: usize,
        parts: &[Interval],
        expiry: Option<u64>,
    ) -> Result<Added, ChangeError> {
        let Some(element) = self.elements.get_mut(place) else {
            return Err(ChangeError::Refused(Why::Full));
        };
        let id = element.id;
        if element.parts.as_slice() != parts {
            return Err(ChangeError::Refused(Why::Overlap { id }));
        }
        if expiry.is_none() {
            return Ok(Added::Already { id });
        }
        element.expiry = expiry;
        Ok(Added::Renewed { id })
    }

    pub(crate) fn push(
        &mut self,
        parts: &[Interval],
        expiry: Option<u64>,
    ) -> Result<Added, ChangeError> {
        let id = self.next;
        if id == u64::MAX {
            return Err(ChangeError::Refused(Why::Full));
        }
        let parts = copied(self.alloc, parts)?;
        append(&mut self.elements, PlainElement { id, parts, expiry })?;
        self.next = id + 1;
        Ok(Added::New { id })
    }
}

fn append(elements: &mut Vec<PlainElement>, element: PlainElement) -> Result<(), Memory> {
    elements.push(element)?;
    Ok(())
}

fn copied(alloc: Global, parts: &[Interval]) -> Result<Vec<Interval>, Memory> {
    Ok(Vec::from_slice(alloc, parts)?)
}

pub(crate) fn lows(alloc: Global, parts: &[Interval]) -> Result<Vec<u128>, Memory> {
    let mut key = Vec::new(alloc);
    for part in parts {
        key.push(part.low)?;
    }
    Ok(key)
}

fn highs(alloc: Global, parts: &[Interval]) -> Result<Vec<u128>, Memory> {
    let mut key = Vec::new(alloc);
    for part in parts {
        key.push(part.high)?;
    }
    Ok(key)
}
