//! Which elements hold a key, or some fields of it.
ghost use Rattle.std.specs.Prelude.{◌≡◌, ◌+◌, ◌-◌, ◌<◌, ◌^◌, ◌&&◌, max, if◌then◌else◌, length, option_map};
ghost use Rattle.std.specs.List.{find};
ghost use Rattle.set_model.specs.Expiry.{live};
ghost use Rattle.set_model.specs.Key.{contains as has_value};
ghost use Rattle.set_model.specs.SetState.{answers as answers_key, holds as holds_all};
ghost use Rattle.key_match.specs.Holders.{holds_field as has_field, field_count as fields_held, field_holders, live_elements, holds_many as has_many, most_fields as most_held, nearest as nearest_of, first_holder as first_holder_of};

use expiry_scan::TimedElements;
use set_model::{Element, Interval, is_live};

/// Whether an interval holds a value.
fn contains(part: &Interval, value: u128) -> bool
    ensures { result ≡ has_value part.now value }
{
    part.low <= value && value <= part.high
}

/// Whether an element's interval of a field holds a value.
pub(crate) fn holds_field(element: &Element, field: usize, value: u128) -> bool
    ensures { result ≡ has_field element.now (field, value) }
{
    match element.parts.as_slice().get(field) {
        None => false,
        Some(part) => contains(part, value),
    }
}

/// Whether an element holds a key.
fn holds(element: &Element, key: &[u128]) -> bool
    ensures { result ≡ holds_all element.now key.now }
{
    element
        .parts
        .as_slice()
        .iter()
        .zip(key.iter())
        .all(|(part, value)| contains(part, *value))
}

/// Whether an element is live at a moment and holds a key.
pub(crate) fn answers(element: &Element, key: &[u128], now: u64) -> bool
    ensures { result ≡ answers_key key.now now element.now }
{
    is_live(element.expiry, now) && holds(element, key)
}

/// A count, after one more thing that counts or doesn't.
fn counted(count: u64, is: bool) -> u64
    requires { count < 2 ^ 64 - 1 }
    ensures { result ≡ if is then count + 1 else count }
{
    if is { count + 1 } else { count }
}

/// How many fields of a key an element holds.
fn field_count(key: &[u128], element: &Element) -> u64
    ensures { result ≡ fields_held key.now element.now }
{
    let mut count = 0;
    'fields: for (field, value) in key.iter().enumerate() {
        count = counted(count, holds_field(element, field, *value));
    }
    count
}

/// How many elements are live at a moment.
pub(crate) fn count_live(elements: &TimedElements, now: u64) -> u64
    ensures { result ≡ length (live_elements now elements.now) }
{
    let mut count = 0;
    'elements: for i in 0..elements.len() {
        count = counted(count, is_live(elements.at(i).expiry, now));
    }
    count
}

/// Whether an element is live at a moment and its interval of a field holds a value.
fn holds_live(element: &Element, field: usize, value: u128, now: u64) -> bool
    ensures { result ≡ (live element.now now && has_field element.now (field, value)) }
{
    is_live(element.expiry, now) && holds_field(element, field, value)
}

/// How many live elements hold a value in a field.
pub(crate) fn count_holders(elements: &TimedElements, field: usize, value: u128, now: u64) -> u64
    ensures { result ≡ length (field_holders now (field, value) elements.now) }
{
    let mut count = 0;
    'elements: for i in 0..elements.len() {
        count = counted(count, holds_live(elements.at(i), field, value, now));
    }
    count
}

/// The greater of a count and the number of fields that an element holds, if it is live.
fn raised(most: u64, element: &Element, key: &[u128], now: u64) -> u64
    ensures { result ≡ if live element.now now then max most (fields_held key.now element.now) else most }
{
    if is_live(element.expiry, now) {
        most.max(field_count(key, element))
    } else {
        most
    }
}

/// The most fields of a key that a live element holds.
fn most_fields(elements: &TimedElements, key: &[u128], now: u64) -> u64
    ensures { result ≡ most_held key.now now elements.now }
{
    let mut most = 0;
    'elements: for i in 0..elements.len() {
        most = raised(most, elements.at(i), key, now);
    }
    most
}

/// Whether an element is live at a moment and holds so many fields of a key.
fn holds_many(element: &Element, key: &[u128], now: u64, count: u64) -> bool
    ensures { result ≡ has_many key.now now count element.now }
{
    is_live(element.expiry, now) && field_count(key, element) == count
}

/// The first live element that holds so many fields of a key.
fn first_with<'a>(
    elements: &'a TimedElements,
    key: &[u128],
    now: u64,
    count: u64,
) -> Option<&'a Element>
    ensures { option_map (λ e. e.now) result ≡ find (has_many key.now now count) elements.now }
{
    'elements: for i in 0..elements.len() {
        let element = elements.at(i);
        if holds_many(element, key, now, count) {
            return Some(element);
        }
    }
    None
}

/// The first of the live elements that hold the most fields of a key, if they hold any.
pub(crate) fn nearest<'a>(
    elements: &'a TimedElements,
    key: &[u128],
    now: u64,
) -> Option<&'a Element>
    ensures { option_map (λ e. e.now) result ≡ nearest_of key.now now elements.now }
{
    let most = most_fields(elements, key, now);
    if most == 0 {
        return None;
    }
    first_with(elements, key, now, most)
}

/// The first element, live or not, that holds a key.
pub(crate) fn first_holder<'a>(elements: &'a TimedElements, key: &[u128]) -> Option<&'a Element>
    ensures { option_map (λ e. e.now) result ≡ first_holder_of key.now elements.now }
{
    'elements: for i in 0..elements.len() {
        let element = elements.at(i);
        if holds(element, key) {
            return Some(element);
        }
    }
    None
}
