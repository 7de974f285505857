ghost use Rattle.std.specs.Prelude.{◌≡◌, ◌<◌, ◌≤◌, ◌*◌, length, sum_by};
ghost use Rattle.set_script.specs.Names.{first_of, add_of, flush_of, family_of, type_word_of, kind_of, key_bytes, has_room, kind_behind, item_of, flag_of, is_policy, option_of};

use crate::draft::{Declaration, Options};
use set_model::{Family, Kind};

/// The first word of a statement.
#[derive(Clone, Copy, Debug, PartialEq, Eq)]
pub enum FirstWord {
    Add,
    Table,
    Create,
    Delete,
    Destroy,
    Flush,
    At,
    Commit,
    Abort,
    Round,
}

/// What a statement adds.
#[derive(Clone, Copy, Debug, PartialEq, Eq)]
pub enum AddWord {
    Table,
    Set,
    Element,
}

/// What a statement flushes.
#[derive(Clone, Copy, Debug, PartialEq, Eq)]
pub enum FlushWord {
    Set,
    Ruleset,
}

/// The first word of the type of a set.
#[derive(Clone, Copy, Debug, PartialEq, Eq)]
pub enum TypeWord {
    /// `type`, and names of kinds.
    Names,
    /// `typeof`, and expressions.
    Expressions,
}

/// The first word of an item of a set, after its type.
#[derive(Clone, Copy, Debug, PartialEq, Eq)]
pub enum ItemWord {
    Flags,
    Timeout,
    Size,
    GcInterval,
    Policy,
    Comment,
    Elements,
}

/// A flag of a set.
#[derive(Clone, Copy, Debug, PartialEq, Eq)]
pub enum Flag {
    Interval,
    Timeout,
    Disjoint,
}

/// The first word of an option of an element.
#[derive(Clone, Copy, Debug, PartialEq, Eq)]
pub enum OptionWord {
    Timeout,
    Expires,
    Comment,
}

/// The statement that a word begins.
pub fn first_word_of(text: &[u8]) -> Option<FirstWord>
    ensures { result ≡ first_of text.now }
{
    if text == b"add".as_slice() {
        Some(FirstWord::Add)
    } else if text == b"table".as_slice() {
        Some(FirstWord::Table)
    } else if text == b"create".as_slice() {
        Some(FirstWord::Create)
    } else if text == b"delete".as_slice() {
        Some(FirstWord::Delete)
    } else if text == b"destroy".as_slice() {
        Some(FirstWord::Destroy)
    } else if text == b"flush".as_slice() {
        Some(FirstWord::Flush)
    } else if text == b"at".as_slice() {
        Some(FirstWord::At)
    } else if text == b"commit".as_slice() {
        Some(FirstWord::Commit)
    } else if text == b"abort".as_slice() {
        Some(FirstWord::Abort)
    } else if text == b"round".as_slice() {
        Some(FirstWord::Round)
    } else {
        None
    }
}

/// What a word after `add` adds.
pub fn add_word_of(text: &[u8]) -> Option<AddWord>
    ensures { result ≡ add_of text.now }
{
    if text == b"table".as_slice() {
        Some(AddWord::Table)
    } else if text == b"set".as_slice() {
        Some(AddWord::Set)
    } else if text == b"element".as_slice() {
        Some(AddWord::Element)
    } else {
        None
    }
}

/// What a word after `flush` flushes: a set, or the ruleset if the statement is the first.
pub fn flush_word_of(begun: bool, text: &[u8]) -> Option<FlushWord>
    ensures { result ≡ flush_of begun text.now }
{
    if text == b"set".as_slice() {
        Some(FlushWord::Set)
    } else if text == b"ruleset".as_slice() && !begun {
        Some(FlushWord::Ruleset)
    } else {
        None
    }
}

/// The family that a word names.
pub fn read_family(text: &[u8]) -> Option<Family>
    ensures { result ≡ family_of text.now }
{
    if text == b"ip".as_slice() {
        Some(Family::Ip)
    } else if text == b"ip6".as_slice() {
        Some(Family::Ip6)
    } else if text == b"inet".as_slice() {
        Some(Family::Inet)
    } else if text == b"arp".as_slice() {
        Some(Family::Arp)
    } else if text == b"bridge".as_slice() {
        Some(Family::Bridge)
    } else if text == b"netdev".as_slice() {
        Some(Family::Netdev)
    } else {
        None
    }
}

/// The type of a set that a word begins.
pub fn read_type_word(text: &[u8]) -> Option<TypeWord>
    ensures { result ≡ type_word_of text.now }
{
    if text == b"type".as_slice() {
        Some(TypeWord::Names)
    } else if text == b"typeof".as_slice() {
        Some(TypeWord::Expressions)
    } else {
        None
    }
}

fn read_kind(text: &[u8]) -> Option<Kind>
    ensures { result ≡ kind_of text.now }
{
    if text == b"ipv4_addr".as_slice() {
        Some(Kind::Ipv4)
    } else if text == b"ipv6_addr".as_slice() {
        Some(Kind::Ipv6)
    } else if text == b"ether_addr".as_slice() {
        Some(Kind::Ether)
    } else if text == b"inet_proto".as_slice() {
        Some(Kind::Proto)
    } else if text == b"inet_service".as_slice() {
        Some(Kind::Service)
    } else if text == b"mark".as_slice() {
        Some(Kind::Mark)
    } else {
        None
    }
}

/// The bytes that a value of a kind takes in a key.
fn bytes_in_key(kind: Kind) -> u64
    ensures bytes { result ≡ key_bytes kind }
    ensures few { result ≤ 16 }
{
    match kind {
        Kind::Ipv4 => 4,
        Kind::Ipv6 => 16,
        Kind::Ether => 8,
        Kind::Proto => 4,
        Kind::Service => 4,
        Kind::Mark => 4,
    }
}

fn all_bytes(kinds: &[Kind]) -> u64
    requires { length kinds.now < 16 }
    ensures sum { result ≡ sum_by key_bytes kinds.now }
    ensures few { result ≤ 16 * length kinds.now }
{
    let mut sum = 0u64;
    for kind in kinds {
        sum += bytes_in_key(*kind);
    }
    sum
}

/// Whether the key has room for a kind after these.
pub fn has_room_for(kinds: &[Kind], kind: Kind) -> bool
    ensures { result ≡ has_room kinds.now kind }
{
    kinds.len() < 16 && all_bytes(kinds) + bytes_in_key(kind) <= 64
}

/// The kind that a word names, if the key has room for it after these.
pub fn read_kind_behind(kinds: &[Kind], text: &[u8]) -> Option<Kind>
    ensures { result ≡ kind_behind kinds.now (kind_of text.now) }
{
    match read_kind(text) {
        Some(kind) if has_room_for(kinds, kind) => Some(kind),
        _ => None,
    }
}

/// The item of a set that a word begins. The item hasn't been read yet, and `elements` hasn't either.
pub fn item_word_of(b: &Declaration, text: &[u8]) -> Option<ItemWord>
    ensures { result ≡ item_of b.now text.now }
{
    if b.elements {
        None
    } else if text == b"flags".as_slice() && !b.flags {
        Some(ItemWord::Flags)
    } else if text == b"timeout".as_slice() && b.decl.timeout.is_none() {
        Some(ItemWord::Timeout)
    } else if text == b"size".as_slice() && b.decl.size.is_none() {
        Some(ItemWord::Size)
    } else if text == b"gc-interval".as_slice() && !b.gc_interval {
        Some(ItemWord::GcInterval)
    } else if text == b"policy".as_slice() && !b.policy {
        Some(ItemWord::Policy)
    } else if text == b"comment".as_slice() && !b.comment {
        Some(ItemWord::Comment)
    } else if text == b"elements".as_slice() {
        Some(ItemWord::Elements)
    } else {
        None
    }
}

/// The flag that a word names. The flag hasn't been read yet.
pub fn flag_of_word(b: &Declaration, text: &[u8]) -> Option<Flag>
    ensures { result ≡ flag_of b.now text.now }
{
    if text == b"interval".as_slice() && !b.decl.interval {
        Some(Flag::Interval)
    } else if text == b"timeout".as_slice() && !b.timeout_flag {
        Some(Flag::Timeout)
    } else if text == b"disjoint".as_slice() && !b.decl.disjoint {
        Some(Flag::Disjoint)
    } else {
        None
    }
}

/// Whether a word is one of a set's policies.
pub fn is_a_policy(text: &[u8]) -> bool
    ensures { result ≡ is_policy text.now }
{
    text == b"performance".as_slice() || text == b"memory".as_slice()
}

/// The option of an element that a word begins. The option hasn't been read yet. A time is an option
/// only if the set is `timed`.
pub fn option_word_of(timed: bool, o: &Options, text: &[u8]) -> Option<OptionWord>
    ensures { result ≡ option_of timed o.now text.now }
{
    if text == b"timeout".as_slice() && timed && o.timeout.is_none() {
        Some(OptionWord::Timeout)
    } else if text == b"expires".as_slice() && timed && o.expires.is_none() {
        Some(OptionWord::Expires)
    } else if text == b"comment".as_slice() && o.comment.is_none() {
        Some(OptionWord::Comment)
    } else {
        None
    }
}
