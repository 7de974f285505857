//! A script that was run to its end, and its sets there.
ghost use Rattle.std.specs.Prelude.{◌≡◌, ◌<◌, length, IfSome};
ghost use Rattle.compare_answer.specs.Compared.{same_name, place_in as place_of_name};

use key_answer::Trace;
use pipapo_image::SetImage;
use set_model::SetDecl;
use text_pieces::family_word;

/// A script that was run to its end.
#[derive(Drop)]
pub(crate) struct Finished<'a> {
    /// The name of its file.
    pub(crate) file: &'a [u8],
    /// Its last moment, in milliseconds.
    pub(crate) at: u64,
    /// Its run.
    pub(crate) trace: Trace,
}

/// A set at a script's end.
#[derive(Drop)]
pub(crate) struct Compared<'a> {
    /// The name of the script's file.
    pub(crate) file: &'a [u8],
    /// The set as the script declares it.
    pub(crate) declared: &'a SetDecl,
    /// What it holds.
    pub(crate) image: &'a SetImage,
    /// The script's last moment, in milliseconds.
    pub(crate) at: u64,
    /// The lines that added its elements, by the ids of the elements.
    pub(crate) lines: &'a [u64],
}

/// Whether two sets have the same family, table and name.
fn has_same_name(one: &SetDecl, other: &SetDecl) -> bool
    ensures { result ≡ same_name one.now other.now }
{
    family_word(one.family) == family_word(other.family)
        && one.table.as_slice() == other.table.as_slice()
        && one.name.as_slice() == other.name.as_slice()
}

/// The place of the set with this set's name, if there is one.
pub(crate) fn place_in(schema: &[SetDecl], set: &SetDecl) -> Option<usize>
    ensures place { result ≡ place_of_name schema.now set.now }
    ensures within { IfSome result (λ i. i < length schema.now) }
{
    schema.iter().position(|other| has_same_name(set, other))
}
