ghost use Rattle.std.specs.Prelude.{◌≡◌, ◌<◌, true, ◌∷◌, length, IfOk, OnOk};
ghost use Rattle.set_model.specs.Key.{parts_hold, start_key};
ghost use Rattle.set_compare.specs.Search.{IsCut, IsSubtracted};

use set_model::{Interval, Key, Memory};
use std::alloc::Global;
use std::marker::Model;

/// The keys whose values are each in the interval of their field. Contracts see the intervals.
#[derive(Drop)]
pub(crate) struct Region {
    sides: Vec<Interval>,
}

impl Model for Region {
    ghost use Rattle.std.specs.Prelude.{List};
    ghost use Rattle.set_model.specs.declared.kind.Interval.{Interval};

    ghost Value = { List Interval };

    ghost view = { λ a. a.sides.items };
}

impl Region {
    /// The keys that an element of these intervals holds.
    pub(crate) fn of(alloc: Global, parts: &[Interval]) -> Result<Region, Memory>
        ensures { IfOk result (λ region. region ≡ parts.now) }
    {
        Ok(Region {
            sides: Vec::from_slice(alloc, parts)?,
        })
    }

    /// The least key: the lowest value of each field.
    pub(crate) fn least_key(&self, alloc: Global) -> Result<Key, Memory>
        ensures { IfOk result (λ key. key ≡ start_key self.now) }
    {
        let mut lows = Vec::with_capacity(alloc, self.sides.len())?;
        'sides: for side in &self.sides {
            lows.push(side.low)?;
        }
        Ok(Key::from_vec(lows))
    }

    /// Takes the keys with values of field `f` above `high` away, and returns them. `None` if there
    /// are none.
    fn cut_above(&mut self, alloc: Global, f: usize, high: u128) -> Result<Option<Region>, Memory>
        requires { f < length self.old }
        ensures { IfOk result (IsCut self.old f high self.new) }
    {
        let side = self.sides[f];
        if side.high <= high {
            return Ok(None);
        }
        let mut above = Vec::from_slice(alloc, self.sides.as_slice())?;
        above[f] = Interval {
            low: high + 1,
            high: side.high,
        };
        self.sides[f] = Interval {
            low: side.low,
            high,
        };
        Ok(Some(Region { sides: above }))
    }

    /// Adds to `rest` the keys of this region that the element doesn't hold, as at most one region
    /// per field. The element holds the region's least key, so in each field only values above the
    /// element's are left over.
    pub(crate) fn subtract(
        mut self,
        alloc: Global,
        element: &[Interval],
        rest: &mut Vec<Region>,
    ) -> Result<(), Memory>
        requires same { length self ≡ length element.now }
        requires proper { parts_hold self (start_key self) ≡ true }
        requires starts { parts_hold element.now (start_key self) ≡ true }
        ensures { OnOk result (IsSubtracted element.now (self ∷ rest.old.items) rest.new.items) }
    {
        'fields: for f in 0..element.len() {
            match self.cut_above(alloc, f, element[f].high)? {
                Some(above) => rest.push(above)?,
                None => {}
            }
        }
        Ok(())
    }
}
