//! The declared sets as structs of C.
ghost use Rattle.std.specs.Prelude.{◌≡◌, ◌<◌, ◌≤◌, true, not, nat_eq, length, map, take, Some, IfOk, IfErr};
ghost use Rattle.std.specs.List.{list_all};
ghost use Rattle.c_handles.specs.Causes.{IsRefusal};
ghost use Rattle.c_handles.specs.Shapes.{kind_numbered, family_numbered, name_in, most_of};
ghost use Rattle.c_handles.specs.Describing.{HasDescribed, RefusesDescription, declared_by, can_declare, takes_name as the_name_test, takes_number as the_number_test};

use crate::declared_set::DeclaredSet;
use crate::fault::{DONE, Fault};
use crate::front::write_front;
use crate::handle::Handle;
use crate::object::Object;
use gen_publish::Control;
use set_model::{Family, Kind, SetDecl};
use std::alloc::Global;

fn kind_number(kind: Kind) -> u32
    ensures { kind_numbered result ≡ kind }
{
    match kind {
        Kind::Ipv4 => 0,
        Kind::Ipv6 => 1,
        Kind::Ether => 2,
        Kind::Proto => 3,
        Kind::Service => 4,
        Kind::Mark => 5,
    }
}

fn family_number(family: Family) -> u32
    ensures { family_numbered result ≡ family }
{
    match family {
        Family::Ip => 0,
        Family::Ip6 => 1,
        Family::Inet => 2,
        Family::Arp => 3,
        Family::Bridge => 4,
        Family::Netdev => 5,
    }
}

/// The numbers of the kinds, and zeros after them.
fn kind_numbers(kinds: &[Kind]) -> [u32; 16]
    requires { length kinds.now ≤ 16 }
    ensures { map kind_numbered (take (length kinds.now) result) ≡ kinds.now }
{
    let mut numbers = [0u32; 16];
    'fields: for i in 0..kinds.len() {
        numbers[i] = kind_number(kinds[i]);
    }
    numbers
}

fn has_no_zero(name: &[u8]) -> bool
    ensures { result ≡ list_all (λ byte. not (nat_eq byte 0)) name.now }
{
    name.iter().all(|byte| *byte != 0)
}

/// Whether the struct has room for a name.
fn takes_name(name: &[u8]) -> bool
    ensures { result ≡ the_name_test name.now }
{
    name.len() <= 128 && has_no_zero(name)
}

/// A name, and zeros after it.
fn name_bytes(name: &[u8]) -> [u8; 128]
    requires { the_name_test name.now ≡ true }
    ensures { name_in result ≡ name.now }
{
    let mut bytes = [0u8; 128];
    write_front(&mut bytes, name);
    bytes
}

/// Whether a number isn't zero, which stands for none.
fn takes_number(number: Option<u64>) -> bool
    ensures { result ≡ the_number_test number }
{
    match number {
        Some(number) => 0 < number,
        None => true,
    }
}

/// The size of a set, and 0 for none.
fn size_number(size: Option<u32>) -> u32
    requires { the_number_test size ≡ true }
    ensures { most_of result ≡ size }
{
    size.unwrap_or(0)
}

/// The life of an element, and 0 for no end.
fn timeout_number(timeout: Option<u64>) -> u64
    requires { the_number_test timeout ≡ true }
    ensures { most_of result ≡ timeout }
{
    timeout.unwrap_or(0)
}

/// Whether a size isn't zero.
fn takes_size(size: Option<u32>) -> bool
    ensures { result ≡ the_number_test size }
{
    match size {
        Some(size) => 0 < size,
        None => true,
    }
}

/// Whether a struct can be a declared set.
fn is_declarable(set: &SetDecl) -> bool
    ensures { result ≡ can_declare set.now }
{
    set.kinds.len() <= 16
        && takes_size(set.size)
        && takes_number(set.timeout)
        && takes_name(set.table.as_slice())
        && takes_name(set.name.as_slice())
}

fn shape_of(set: &SetDecl) -> DeclaredSet
    requires { can_declare set.now ≡ true }
    ensures { declared_by result ≡ set.now }
{
    DeclaredSet {
        kinds: kind_numbers(set.kinds.as_slice()),
        fields: set.kinds.len() as u32,
        family: family_number(set.family),
        interval: u32::from(set.interval),
        timed: u32::from(set.timed),
        disjoint: u32::from(set.disjoint),
        size: size_number(set.size),
        timeout: timeout_number(set.timeout),
        table: name_bytes(set.table.as_slice()),
        name: name_bytes(set.name.as_slice()),
    }
}

fn shape_at(control: &Control, set: u32) -> Result<DeclaredSet, Fault>
    ensures ok { IfOk result (HasDescribed (Some (Object.Control control.now)) set) }
    ensures refused { IfErr result (RefusesDescription set (Object.Control control.now)) }
{
    let place = u64::from(set);
    if control.schema().len() <= place {
        return Err(Fault::Set);
    }
    let declared = control.schema().at(place);
    if !is_declarable(declared) {
        return Err(Fault::Room);
    }
    Ok(shape_of(declared))
}

fn shape_in(object: &Object, set: u32) -> Result<DeclaredSet, Fault>
    ensures ok { IfOk result (HasDescribed (Some object.now) set) }
    ensures refused { IfErr result (RefusesDescription set object.now) }
{
    match object {
        Object::Control(control) => shape_at(control, set),
        Object::Reader(_) | Object::Elements(_) => Err(Fault::Handle),
    }
}

/// `shape` gets what a control's set was declared as.
pub fn describe(alloc: Global, control: &mut Handle, set: u32, shape: &mut DeclaredSet) -> u32
    ensures same { control.new.held ≡ control.old.held }
    ensures done { result ≡ 0 → HasDescribed control.old.held set shape.new }
    ensures unchanged { 0 < result → shape.new ≡ shape.old }
    ensures refused { 0 < result → IsRefusal (RefusesDescription set) control.old.held result }
{
    let Some(boxed) = control.take(alloc) else {
        return Fault::Empty.code();
    };
    let outcome = shape_in(&boxed, set);
    control.put(boxed);
    match outcome {
        Ok(made) => {
            *shape = made;
            DONE
        }
        Err(fault) => fault.code(),
    }
}
