ghost use Rattle.std.specs.Prelude.{◌≡◌, ◌*◌, ◌/◌, ◌%◌, ◌+◌, ◌<◌, [], ◌∷◌, length, map, All, IfOk, OnOk};
ghost use Rattle.std.specs.List.{range_with_len};
ghost use Rattle.set_model.specs.Runnable.{IsRunnable, IsFitting};
ghost use Rattle.drill_gen.specs.Drill.{after_draws, drill_set as declared_set, drill_script, drill_keys};
ghost use Rattle.drill_gen.specs.Drawing.{target_at, addition_at, one_transaction, near_from, any_from, packet_from, packet_draws, drawn_packet};

use crate::draws::Draws;
use crate::target::Target;
use set_model::{
    Family, Key, Keys, Kind, Kinds, Memory, Name, Packet, Packets, Schema, Script, Sections,
    SetDecl, Step, Steps,
};
use std::alloc::Global;

/// The set `ip drill s` of addresses and ports.
fn drill_set(alloc: Global) -> Result<SetDecl, Memory>
    ensures { IfOk result (λ decl. decl ≡ declared_set) }
{
    let mut kinds = Kinds::new(alloc);
    kinds.push(Kind::Ipv4)?;
    kinds.push(Kind::Service)?;
    Ok(SetDecl {
        family: Family::Ip,
        table: Name::from_vec(Vec::from_slice(alloc, b"drill")?),
        name: Name::from_vec(Vec::from_slice(alloc, b"s")?),
        kinds,
        interval: true,
        timed: false,
        disjoint: false,
        timeout: None,
        size: None,
    })
}

/// The next `count` elements, and the steps that add them.
fn elements(alloc: Global, draws: &mut Draws, count: u32) -> Result<(Vec<Target>, Steps), Memory>
    ensures next { OnOk result (draws.new.state ≡ after_draws draws.old.state (4 * count)) }
    ensures targets { IfOk result (λ r. r.0.items ≡ map (target_at draws.old.state) (range_with_len 0 count)) }
    ensures steps { IfOk result (λ r. r.1 ≡ map (addition_at draws.old.state) (range_with_len 0 count)) }
{
    let mut targets = Vec::new(alloc);
    let mut steps = Steps::new(alloc);
    for i in 0..count {
        let target = Target::draw(draws);
        steps.push(target.addition(alloc, u64::from(i) + 1)?)?;
        targets.push(target)?;
    }
    Ok((targets, steps))
}

/// A key in one of the elements, from the next two numbers.
fn near_key(alloc: Global, draws: &mut Draws, targets: &[Target]) -> Result<Key, Memory>
    requires { 0 < length targets.now }
    ensures next { draws.new.state ≡ after_draws draws.old.state 2 }
    ensures key { IfOk result (λ key. key ≡ near_from targets.now draws.old.state) }
{
    let place = usize::from(draws.draw()) % targets.len();
    let offset = draws.draw();
    targets[place].key(alloc, offset)
}

/// Any key, from the next three numbers.
fn any_key(alloc: Global, draws: &mut Draws) -> Result<Key, Memory>
    ensures next { draws.new.state ≡ after_draws draws.old.state 3 }
    ensures key { IfOk result (λ key. key ≡ any_from draws.old.state) }
{
    let address = draws.address();
    let port = draws.draw();
    let mut key = Key::new(alloc);
    key.push(u128::from(address))?;
    key.push(u128::from(port))?;
    Ok(key)
}

/// Packet `p`. An even one is in an element.
fn packet(alloc: Global, draws: &mut Draws, targets: &[Target], p: usize) -> Result<Packet, Memory>
    requires { 0 < length targets.now }
    ensures next { OnOk result (draws.new.state ≡ after_draws draws.old.state (packet_draws p)) }
    ensures packet { IfOk result (λ packet. packet ≡ packet_from targets.now draws.old.state p) }
{
    let key = if p % 2 == 0 {
        near_key(alloc, draws, targets)?
    } else {
        any_key(alloc, draws)?
    };
    Ok(Packet {
        set: 0,
        key,
        now: 0,
    })
}

/// As many packets as elements.
fn packets(alloc: Global, draws: &mut Draws, targets: &[Target]) -> Result<Packets, Memory>
    ensures { IfOk result (λ packets. packets ≡ map (drawn_packet targets.now draws.old.state) (range_with_len 0 (length targets.now))) }
{
    let mut packets = Packets::new(alloc);
    for p in 0..targets.len() {
        packets.push(packet(alloc, draws, targets, p)?)?;
    }
    Ok(packets)
}

/// The script of one transaction on the set, with a commit at its end.
fn script(alloc: Global, mut steps: Steps) -> Result<Script, Memory>
    ensures { IfOk result (λ script. script ≡ one_transaction steps) }
{
    steps.push(Step::Commit { now: 0 })?;
    let mut schema = Schema::new(alloc);
    schema.push(drill_set(alloc)?)?;
    let mut sections = Sections::new(alloc);
    sections.push(steps)?;
    Ok(Script {
        schema,
        sections,
        last: 0,
    })
}

fn one_section(alloc: Global, packets: Packets) -> Result<Keys, Memory>
    ensures { IfOk result (λ keys. keys ≡ packets ∷ []) }
{
    let mut keys = Keys::new(alloc);
    keys.push(packets)?;
    Ok(keys)
}

/// The workload of a seed, all at moment 0. A script adds `count` elements to the set `ip drill s` in
/// one transaction, and one key section has as many packets. The same seed gives the same workload.
pub fn generate(alloc: Global, seed: u64, count: u32) -> Result<(Script, Keys), Memory>
    ensures drawn { IfOk result (λ r. (r.0 ≡ drill_script seed count) × (r.1 ≡ drill_keys seed count)) }
    ensures runnable { IfOk result (λ r. IsRunnable r.0) }
    ensures fitting { IfOk result (λ r. All (All (IsFitting r.0.schema)) r.1) }
{
    let mut draws = Draws::new(seed);
    let (targets, steps) = elements(alloc, &mut draws, count)?;
    let packets = packets(alloc, &mut draws, targets.as_slice())?;
    Ok((script(alloc, steps)?, one_section(alloc, packets)?))
}
