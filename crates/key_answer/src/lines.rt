//! The lines that added the elements of a script's sets.
ghost use Rattle.std.specs.Prelude.{◌≡◌, ◌∷◌, ◌++◌, ◌==◌, ◌<◌, List, [], false, length, take, IfOk, OnOk, ℕ};
ghost use Rattle.key_answer.specs.Origin.{lines_of};
ghost use Rattle.key_answer.specs.Tracing.{IsNoted};

use set_model::Memory;
use std::alloc::Global;
use std::marker::Model;

/// For each set, the lines of the additions that made its elements, by the ids of the elements.
#[derive(Drop)]
pub struct Lines {
    sets: Vec<Vec<u64>>,
}

impl Model for Lines {
    ghost use Rattle.std.specs.Prelude.{List, ℕ, map};

    ghost Value = { List (List ℕ) };

    ghost view = { λ a. map (λ v. v.items) a.sets.items };
}

/// Puts a line at the place of an id. The lines from there on were of a transaction that was taken back.
fn put_line(lines: &mut Vec<u64>, line: u64, id: u64) -> Result<(), Memory>
    ensures { OnOk result (lines.new.items ≡ take id lines.old.items ++ line ∷ []) }
{
    lines.truncate(id as usize);
    lines.push(line)?;
    Ok(())
}

impl Lines {
    /// No lines, for so many sets.
    pub(crate) fn new(alloc: Global, count: u64) -> Result<Lines, Memory>
        ensures one_each { IfOk result (λ lines. length lines ≡ count) }
        ensures none { IfOk result (λ lines. (set : ℕ) → lines_of lines set ≡ []) }
    {
        let mut sets = Vec::new(alloc);
        'sets: for _set in 0..count {
            sets.push(Vec::new(alloc))?;
        }
        Ok(Lines { sets })
    }

    /// Notes the line of an addition to a set, if it made an element.
    pub(crate) fn note(&mut self, set: u32, line: u64, made: Option<u64>) -> Result<(), Memory>
        ensures { OnOk result (IsNoted set line made self.old self.new) }
    {
        let place = set as usize;
        match made {
            Some(id) if place < self.sets.len() => put_line(&mut self.sets[place], line, id),
            _ => Ok(()),
        }
    }

    /// The lines of a set, by the ids of its elements. There are none if there is no such set.
    pub fn of(&self, set: u32) -> &[u64]
        ensures { result.now ≡ lines_of self.now set }
    {
        match self.sets.get(set as usize) {
            Some(lines) => lines.as_slice(),
            None => &[],
        }
    }
}
