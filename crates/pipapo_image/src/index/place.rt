ghost use Rattle.std.specs.Prelude.{◌≡◌, ◌-◌, ◌≤◌, ◌<◌, List, length, take};
ghost use Rattle.set_model.specs.declared.kind.Kind.{Kind};
ghost use Rattle.set_model.specs.declared.element.Element.{Element};
ghost use Rattle.set_model.specs.SetState.{field_rules};
ghost use Rattle.set_tables.specs.Tables.{last_ends};

use mapping_table::EndTable;

/// The number of the last field's rules that belong to the elements before a place. The ends have
/// the order of the places.
pub(crate) fn rules_before(ends: &EndTable, place: u64) -> u32
    ensures within { result ≤ length ends.now.items }
    ensures rules { (kinds : List Kind) (es : List Element) → ends.now.items ≡ last_ends kinds es → result ≡ length (field_rules kinds (length kinds - 1) (take place es)) }
{
    let mut low = 0;
    let mut high = ends.len();
    'halves: while low < high {
        let middle = low + (high - low) / 2;
        let end = ends.at(middle);
        if end.place < place {
            low = middle + 1;
        } else {
            high = middle;
        }
    }
    low
}
