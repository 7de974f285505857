//! The declared sets as C has them.
ghost use Rattle.std.specs.Prelude.{◌≡◌, ◌<◌, ◌≤◌, true, not, nat_eq, nat_lt, length, map, All, IfOk};
ghost use Rattle.std.specs.List.{list_all, prefix_len};
ghost use Rattle.set_space.specs.Open.{CanBeBuilt};
ghost use Rattle.c_handles.specs.Shapes.{kind_numbered, family_numbered, describes_set as the_set_test, describe_sets as the_test, name_in, most_of as the_most_of, described};

use set_model::{Family, Kind, Kinds, Memory, Name, Schema, SetDecl};
use std::alloc::Global;

/// A set: the kind of each field, and how many fields there are; the family of its table; whether a shared key refuses an
/// addition; how many elements it may have (0 for as many as there is room for); and the names of its table and its own,
/// each up to its first zero byte.
#[repr(C)]
#[derive(Clone, Copy)]
pub struct SetShape {
    pub kinds: [u32; 16],
    pub fields: u32,
    pub family: u32,
    pub disjoint: u32,
    pub size: u32,
    pub table: [u8; 64],
    pub name: [u8; 64],
}

fn are_kinds(numbers: &[u32]) -> bool
    ensures { result ≡ list_all (λ number. nat_lt number 6) numbers.now }
{
    numbers.iter().all(|number| *number < 6)
}

/// Whether a struct describes a set: it has 1 to 16 fields, each of a kind, and a family.
fn describes_set(shape: &SetShape) -> bool
    ensures { result ≡ the_set_test shape.now }
{
    if shape.fields == 0 || 16 < shape.fields || 6 <= shape.family {
        return false;
    }
    are_kinds(&shape.kinds[..shape.fields as usize])
}

fn each_describes(shapes: &[SetShape]) -> bool
    ensures { result ≡ list_all the_set_test shapes.now }
{
    shapes.iter().all(|shape| describes_set(shape))
}

/// Whether each struct describes a set, and each set has a number.
pub(crate) fn describe_sets(shapes: &[SetShape]) -> bool
    ensures { result ≡ the_test shapes.now }
{
    if (1 << 32) < shapes.len() as u64 {
        return false;
    }
    each_describes(shapes)
}

fn kind_of(number: u32) -> Kind
    requires { number < 6 }
    ensures { result ≡ kind_numbered number }
{
    match number {
        0 => Kind::Ipv4,
        1 => Kind::Ipv6,
        2 => Kind::Ether,
        3 => Kind::Proto,
        4 => Kind::Service,
        5 => Kind::Mark,
        _ => unreachable!(),
    }
}

fn family_of(number: u32) -> Family
    requires { number < 6 }
    ensures { result ≡ family_numbered number }
{
    match number {
        0 => Family::Ip,
        1 => Family::Ip6,
        2 => Family::Inet,
        3 => Family::Arp,
        4 => Family::Bridge,
        5 => Family::Netdev,
        _ => unreachable!(),
    }
}

fn kinds_of(alloc: Global, numbers: &[u32]) -> Result<Kinds, Memory>
    requires { list_all (λ number. nat_lt number 6) numbers.now ≡ true }
    ensures { IfOk result (λ kinds. kinds ≡ map kind_numbered numbers.now) }
{
    let mut kinds = Kinds::new(alloc);
    'fields: for number in numbers {
        kinds.push(kind_of(*number))?;
    }
    Ok(kinds)
}

/// How many bytes come before the first zero.
fn name_length(bytes: &[u8]) -> usize
    ensures run { result ≡ prefix_len (λ byte. not (nat_eq byte 0)) bytes.now }
    ensures within { result ≤ length bytes.now }
{
    bytes.iter().take_while(|byte| **byte != 0).count()
}

/// The bytes before the first zero.
fn name_of(alloc: Global, bytes: &[u8]) -> Result<Name, Memory>
    ensures { IfOk result (λ name. name ≡ name_in bytes.now) }
{
    let name = Vec::from_slice(alloc, &bytes[..name_length(bytes)])?;
    Ok(Name::from_vec(name))
}

fn most_of(size: u32) -> Option<u32>
    ensures { result ≡ the_most_of size }
{
    if size == 0 { None } else { Some(size) }
}

fn declared(alloc: Global, shape: &SetShape) -> Result<SetDecl, Memory>
    requires { the_set_test shape.now ≡ true }
    ensures built { IfOk result CanBeBuilt }
    ensures set { IfOk result (λ set. set ≡ described shape.now) }
{
    Ok(SetDecl {
        family: family_of(shape.family),
        table: name_of(alloc, &shape.table)?,
        name: name_of(alloc, &shape.name)?,
        kinds: kinds_of(alloc, &shape.kinds[..shape.fields as usize])?,
        interval: true,
        timed: true,
        disjoint: shape.disjoint != 0,
        timeout: None,
        size: most_of(shape.size),
    })
}

/// The declared sets.
pub(crate) fn schema_of(alloc: Global, shapes: &[SetShape]) -> Result<Schema, Memory>
    requires { list_all the_set_test shapes.now ≡ true }
    ensures built { IfOk result (All CanBeBuilt) }
    ensures sets { IfOk result (λ schema. schema ≡ map described shapes.now) }
{
    let mut schema = Schema::new(alloc);
    'sets: for shape in shapes {
        schema.push(declared(alloc, shape)?)?;
    }
    Ok(schema)
}
