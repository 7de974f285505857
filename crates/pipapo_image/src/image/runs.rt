ghost use Rattle.std.specs.Prelude.{◌≡◌, ◌+◌, ◌≤◌, ◌<◌, suc, ℕ, true, List, All, length, take, IfOk};
ghost use Rattle.set_model.specs.declared.kind.Kind.{Kind};
ghost use Rattle.set_model.specs.declared.element.Element.{Element};
ghost use Rattle.set_model.specs.Key.{parts_fit};
ghost use Rattle.set_model.specs.SetState.{field_rules};
ghost use Rattle.set_tables.specs.Tables.{split, field_spans, last_ends};
ghost use Rattle.pipapo_image.specs.Index.Standing.{AreMapsOf};
ghost use Rattle.pipapo_image.specs.Index.Runs.{AreRuns};

use crate::image::SetImage;
use crate::index::place::rules_before;
use mapping_table::{EndTable, MapTable};
use set_model::Memory;
use set_tables::Span;
use std::alloc::Global;

/// How many of a field's rules lead to rules of the next field below `first`. Rule `first` is the
/// first rule of an element there. The spans have the order of the rules to which they lead.
fn rules_below(map: &MapTable, first: u32) -> u32
    ensures { (kinds : List Kind) (es : List Element) (f place : ℕ) → map.now.items ≡ field_spans kinds f es → All (λ e. 1 ≤ length (split kinds (suc f) e)) es
        → first ≡ length (field_rules kinds (suc f) (take place es)) → result ≡ length (field_rules kinds f (take place es)) }
{
    let mut low = 0;
    let mut high = map.len();
    'halves: while low < high {
        let middle = low + (high - low) / 2;
        let span = map.at(middle);
        if span.first < first {
            low = middle + 1;
        } else {
            high = middle;
        }
    }
    low
}

/// How many of the first field's rules belong to the elements before a place. It is found in the
/// ends, and then in the mappings from the last to the first.
fn first_rules(maps: &[MapTable], ends: &EndTable, place: u64) -> u32
    ensures { (kinds : List Kind) (es : List Element) → AreMapsOf kinds es maps.now → ends.now.items ≡ last_ends kinds es → All (λ e. parts_fit kinds e.parts ≡ true) es
        → result ≡ length (field_rules kinds 0 (take place es)) }
{
    let mut first = rules_before(ends, place);
    let mut f = maps.len();
    'maps: while f > 0 {
        f -= 1;
        first = rules_below(&maps[f], first);
    }
    first
}

impl SetImage {
    /// The places of the rules of the element at place `i` in each field. A search finds them in
    /// the first field, and the mappings lead to them in the others.
    pub(crate) fn runs(&self, alloc: Global, i: u64) -> Result<Vec<Span>, Memory>
        requires { i < length self.now.elements }
        ensures { IfOk result (λ runs. AreRuns self.now.kinds self.now.elements i runs.items (length self.now.kinds)) }
    {
        let _elements = self.elements.len();
        let maps = self.index.maps.as_slice();
        let first = first_rules(maps, &self.index.ends, i);
        let end = first_rules(maps, &self.index.ends, i + 1);
        let mut run = Span {
            first,
            count: end - first,
        };
        let mut runs = Vec::new(alloc);
        runs.push(run)?;
        'maps: for f in 0..maps.len() {
            run = *maps[f].at(run.first);
            runs.push(run)?;
        }
        Ok(runs)
    }
}
