ghost use Rattle.std.specs.Prelude.{◌≡◌, [], IfOk, None};
ghost use Rattle.set_compare.specs.Missing.{IsFirstMissing};
ghost use Rattle.set_compare.specs.Search.{IsSearched, live_regions};

use crate::search::Search;
use pipapo_image::{Scratch, SetImage};
use set_model::{Found, Key, Memory, is_live};
use std::alloc::Global;

/// A key that one set finds and another doesn't.
#[derive(Drop)]
pub struct Lack {
    /// One value per field.
    pub key: Key,
    /// The place and the id of the first live element that holds the key.
    pub found: Found,
}

/// The least key that `held` finds at the moment `at` and that `other` doesn't find at
/// `other_at`, both in milliseconds. `None` if there is no such key. Keys are compared field by
/// field, the first field first.
///
/// # Errors
/// `Memory` if memory runs out.
pub fn first_missing(
    alloc: Global,
    held: &SetImage,
    at: u64,
    other: &SetImage,
    other_at: u64,
    scratch: &mut Scratch,
) -> Result<Option<Lack>, Memory>
    requires { held.now.kinds ≡ other.now.kinds }
    ensures { IfOk result (IsFirstMissing held.now at other.now other_at) }
{
    let least = least_missing(alloc, held, at, other, other_at, scratch)?;
    match least {
        Some(key) => match held.find(&key, at, scratch) {
            Some(found) => Ok(Some(Lack { key, found })),
            None => unreachable!(),
        },
        None => Ok(None),
    }
}

/// The least key that is missing.
fn least_missing(
    alloc: Global,
    held: &SetImage,
    at: u64,
    other: &SetImage,
    other_at: u64,
    scratch: &mut Scratch,
) -> Result<Option<Key>, Memory>
    requires { held.now.kinds ≡ other.now.kinds }
    ensures { IfOk result (λ least. IsSearched other.now other_at None (live_regions held.now.elements at) least []) }
{
    let mut search = Search::new(alloc);
    let elements = held.elements();
    'elements: for i in 0..elements.len() {
        let element = elements.at(i);
        if is_live(element.expiry, at) {
            search.look_up(alloc, element.parts.as_slice(), other, other_at, scratch)?;
        }
    }
    Ok(search.into_least())
}
