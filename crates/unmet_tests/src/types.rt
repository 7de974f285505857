//! Sets and their types as text.
ghost use Rattle.std.specs.Prelude.{◌≡◌, ◌++◌, OnOk, take, flat_map, slice_get};
ghost use Rattle.set_model.specs.Text.{set_text};
ghost use Rattle.unmet_tests.specs.UnmetText.{first_types, kind_word as word_of_kind, kinds_text, most_types, next_kind, next_type, type_text, types_text};

use set_model::{Kind, Memory, SetDecl};
use text_pieces::Piece::{Set, Word};
use text_pieces::{append, append_pieces};

/// The most types of keys that a line names.
const MOST_TYPES: usize = 3;

/// The name of a kind in nft(8).
fn kind_word(kind: Kind) -> &'static [u8]
    ensures { result.now ≡ word_of_kind kind }
{
    match kind {
        Kind::Ipv4 => b"ipv4_addr",
        Kind::Ipv6 => b"ipv6_addr",
        Kind::Ether => b"ether_addr",
        Kind::Proto => b"inet_proto",
        Kind::Service => b"inet_service",
        Kind::Mark => b"mark",
    }
}

fn append_next_kinds(kinds: &[Kind], out: &mut Vec<u8>) -> Result<(), Memory>
    ensures { OnOk result (out.new.items ≡ out.old.items ++ flat_map next_kind kinds.now) }
{
    for kind in kinds {
        append_pieces(&[Word(b" . "), Word(kind_word(*kind))], out)?;
    }
    Ok(())
}

/// Appends kinds, with ` . ` between them.
#[tactic(auto, using(std::proofs::Common::append_assoc))]
fn append_kinds(kinds: &[Kind], out: &mut Vec<u8>) -> Result<(), Memory>
    ensures { OnOk result (out.new.items ≡ out.old.items ++ kinds_text kinds.now) }
{
    match kinds {
        [] => Ok(()),
        [first, others @ ..] => {
            append(kind_word(*first), out)?;
            append_next_kinds(others, out)
        }
    }
}

/// Appends the type of a set.
pub fn append_type(schema: &[SetDecl], set: u32, out: &mut Vec<u8>) -> Result<(), Memory>
    ensures { OnOk result (out.new.items ≡ out.old.items ++ type_text (slice_get schema.now set)) }
{
    match schema.get(set as usize) {
        None => Ok(()),
        Some(decl) => append_kinds(decl.kinds.as_slice(), out),
    }
}

/// Appends the place of a set: its family, its table and its name.
pub fn append_set(schema: &[SetDecl], set: u32, out: &mut Vec<u8>) -> Result<(), Memory>
    ensures { OnOk result (out.new.items ≡ out.old.items ++ set_text (slice_get schema.now set)) }
{
    match schema.get(set as usize) {
        None => Ok(()),
        Some(decl) => append_pieces(&[Set(decl)], out),
    }
}

#[tactic(auto, using(std::proofs::Common::append_assoc))]
fn append_next_type(schema: &[SetDecl], set: u32, out: &mut Vec<u8>) -> Result<(), Memory>
    ensures { OnOk result (out.new.items ≡ out.old.items ++ next_type schema.now set) }
{
    append(b", ", out)?;
    append_type(schema, set, out)
}

fn append_next_types(schema: &[SetDecl], types: &[u32], out: &mut Vec<u8>) -> Result<(), Memory>
    ensures { OnOk result (out.new.items ≡ out.old.items ++ flat_map (next_type schema.now) types.now) }
{
    for set in types {
        match append_next_type(schema, *set, out) {
            Ok(()) => {}
            Err(_) => return Err(Memory),
        }
    }
    Ok(())
}

/// Appends the types of sets, with `, ` between them.
#[tactic(auto, using(std::proofs::Common::append_assoc))]
fn append_types(schema: &[SetDecl], types: &[u32], out: &mut Vec<u8>) -> Result<(), Memory>
    ensures { OnOk result (out.new.items ≡ out.old.items ++ types_text schema.now types.now) }
{
    match types {
        [] => Ok(()),
        [first, others @ ..] => {
            append_type(schema, *first, out)?;
            append_next_types(schema, others, out)
        }
    }
}

/// The first types, as many as a line names.
fn first_of(types: &[u32]) -> &[u32]
    ensures { result.now ≡ take most_types types.now }
{
    &types[..types.len().min(MOST_TYPES)]
}

/// Appends the first types, and dots if there are more.
#[tactic(auto, using(std::proofs::Common::append_assoc))]
pub fn append_first_types(
    schema: &[SetDecl],
    types: &[u32],
    out: &mut Vec<u8>,
) -> Result<(), Memory>
    ensures { OnOk result (out.new.items ≡ out.old.items ++ first_types schema.now types.now) }
{
    append_types(schema, first_of(types), out)?;
    append(
        if MOST_TYPES < types.len() {
            b", .."
        } else {
            b""
        },
        out,
    )
}
