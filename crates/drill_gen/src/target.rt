ghost use Rattle.std.specs.Prelude.{◌≡◌, IfOk};
ghost use Rattle.drill_gen.specs.Drill.{after_draws};

use crate::draws::Draws;
use set_model::{Comment, Interval, Key, Memory, NewElement, Parts, Step, Verb};
use std::alloc::Global;

/// A range of values: a lowest one and so many after it, as far as the kind has them.
#[derive(Clone, Copy)]
pub struct Range {
    /// The lowest value.
    pub low: u32,
    /// How many values follow it, unless the kind has fewer.
    pub span: u16,
    /// The greatest value of the kind.
    pub greatest: u32,
}

impl Range {
    ghost use Rattle.drill_gen.specs.Drawing.{range_interval, value_at};

    fn interval(&self) -> Interval
        ensures { result ≡ range_interval self.now }
    {
        let low = u128::from(self.low);
        Interval {
            low,
            high: (low + u128::from(self.span)).min(u128::from(self.greatest)),
        }
    }

    /// The value `offset` after the lowest one, with the offset taken modulo the number of values.
    fn value(&self, offset: u16) -> u128
        ensures { result ≡ value_at self.now offset }
    {
        let interval = self.interval();
        let behind = u32::from(offset) % (u32::from(self.span) + 1);
        (interval.low + u128::from(behind)).min(interval.high)
    }
}

/// An element of the workload, with packets in it.
#[derive(Clone, Copy)]
pub struct Target {
    /// The values of its first field.
    pub addresses: Range,
    /// The values of its second field.
    pub ports: Range,
}

impl Target {
    ghost use Rattle.drill_gen.specs.Drawing.{target_from, parts_of, addition_of, key_of};

    /// The element from the next four numbers.
    pub fn draw(draws: &mut Draws) -> Target
        ensures next { draws.new.state ≡ after_draws draws.old.state 4 }
        ensures drawn { result ≡ target_from draws.old.state }
    {
        let address = draws.address();
        let spans = draws.draw();
        let port = draws.draw();
        Target {
            addresses: Range {
                low: address,
                span: spans % 256,
                greatest: 4_294_967_295,
            },
            ports: Range {
                low: u32::from(port),
                span: spans / 256 % 16,
                greatest: 65_535,
            },
        }
    }

    fn parts(&self, alloc: Global) -> Result<Parts, Memory>
        ensures { IfOk result (λ parts. parts ≡ parts_of self.now) }
    {
        let mut parts = Parts::new(alloc);
        parts.push(self.addresses.interval())?;
        parts.push(self.ports.interval())?;
        Ok(parts)
    }

    /// The step that adds the element; its line is this.
    pub fn addition(&self, alloc: Global, line: u64) -> Result<Step, Memory>
        ensures { IfOk result (λ step. step ≡ addition_of self.now line) }
    {
        Ok(Step::Change {
            line,
            set: 0,
            verb: Verb::Add,
            element: NewElement {
                parts: self.parts(alloc)?,
                expiry: None,
                comment: Comment::new(alloc),
            },
            now: 0,
        })
    }

    /// The key with both values `offset` after their lowest ones.
    pub fn key(&self, alloc: Global, offset: u16) -> Result<Key, Memory>
        ensures { IfOk result (λ key. key ≡ key_of self.now offset) }
    {
        let mut key = Key::new(alloc);
        key.push(self.addresses.value(offset))?;
        key.push(self.ports.value(offset))?;
        Ok(key)
    }
}
