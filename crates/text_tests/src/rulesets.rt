//! Rulesets: what is kept of them, what is noted, and why they are refused.
use crate::cases::{assert_told, line_of, reason_word, told_refusal};
use ruleset_sets::{RoleToken, Ruleset, SkipReason, Skipped, read_ruleset};
use set_model::{Memory, Script};
use set_script::ScriptError;
use std::alloc::Global;
use text_pieces::{Piece, append_pieces};

/// The bytes of a token.
fn bytes_of<'a>(text: &'a [u8], token: &RoleToken) -> &'a [u8] {
    let from = text.len().min(token.from as usize);
    let size = (text.len() - from).min(token.size as usize);
    &text[from..from + size]
}

fn why_word(why: SkipReason) -> &'static [u8] {
    match why {
        SkipReason::NoSet => b" skipped",
        SkipReason::UnknownType(_) => b" unknown type ",
        SkipReason::UnknownExpression(_) => b" unknown expression ",
        SkipReason::AutoMerge(_) => b" merges ",
        SkipReason::CatchAll(_) => b" catch-all ",
        SkipReason::Stateful(_) => b" state ",
        SkipReason::Unclosed => b" unclosed",
        SkipReason::HoldsItem => b" holds an item",
        SkipReason::DroppedPart => b" dropped",
    }
}

/// Appends a line, the first two words of an item or a part, and why it isn't kept, with the token that is the reason.
fn append_skip(text: &[u8], skip: &Skipped, told: &mut Vec<u8>) -> Result<(), Memory> {
    append_pieces(
        &[
            Piece::Word(b", "),
            Piece::Number(skip.at.line),
            Piece::Word(b" "),
            Piece::Word(bytes_of(text, &skip.at)),
        ],
        told,
    )?;
    if let Some(name) = &skip.name {
        append_pieces(
            &[Piece::Word(b" "), Piece::Word(bytes_of(text, name))],
            told,
        )?;
    }
    append_pieces(&[Piece::Word(why_word(skip.why))], told)?;
    match skip.why.token() {
        Some(token) => append_pieces(&[Piece::Word(bytes_of(text, &token))], told),
        None => Ok(()),
    }
}

/// How many sets and steps a script has.
fn append_counts(script: &Script, told: &mut Vec<u8>) -> Result<(), Memory> {
    let mut count = 0u64;
    for steps in script.sections.as_slice() {
        count = count.saturating_add(steps.len());
    }
    append_pieces(
        &[
            Piece::Number(script.schema.len()),
            Piece::Word(b" sets "),
            Piece::Number(count),
            Piece::Word(b" steps"),
        ],
        told,
    )
}

fn told_sets(alloc: Global, text: &[u8], ruleset: &Ruleset) -> Result<Vec<u8>, Memory> {
    let mut told = line_of(alloc, &[])?;
    append_counts(&ruleset.script, &mut told)?;
    for skip in ruleset.skips.as_slice() {
        append_skip(text, skip, &mut told)?;
    }
    Ok(told)
}

fn told_ruleset(alloc: Global, text: &[u8]) -> Result<Vec<u8>, Memory> {
    match read_ruleset(alloc, text) {
        Ok(ruleset) => told_sets(alloc, text, &ruleset),
        Err(ScriptError::Bad { line, reason }) => told_refusal(alloc, line, reason_word(reason)),
        Err(ScriptError::Memory) => Err(Memory),
    }
}

/// A ruleset as nft 1.0.6 printed it. The last step commits.
const LISTED: &[u8] = b"\
    table inet filter {\n\
    \tflags dormant\n\
    \tcomment \"my table\"\n\
    \n\
    \tcounter c1 {\n\
    \t\tpackets 3 bytes 4\n\
    \t}\n\
    \n\
    \tquota q1 {\n\
    \t\tover 25 mbytes\n\
    \t}\n\
    \n\
    \tlimit l1 {\n\
    \t\trate 400/minute\n\
    \t}\n\
    \n\
    \tct helper ftp-std {\n\
    \t\ttype \"ftp\" protocol tcp\n\
    \t\tl3proto inet\n\
    \t}\n\
    \n\
    \tct timeout customt {\n\
    \t\tprotocol tcp\n\
    \t\tl3proto ip\n\
    \t\tpolicy = { established : 120, close : 20 }\n\
    \t}\n\
    \n\
    \tset blocked {\n\
    \t\ttype ipv4_addr\n\
    \t\tflags interval\n\
    \t\tauto-merge\n\
    \t\telements = { 10.0.0.0/8, 192.0.2.1 }\n\
    \t}\n\
    \n\
    \tset dyn {\n\
    \t\ttype ipv4_addr\n\
    \t\tsize 65535\n\
    \t\tflags dynamic,timeout\n\
    \t\tcounter\n\
    \t\ttimeout 1h\n\
    \t}\n\
    \n\
    \tset dyn2 {\n\
    \t\ttype ipv4_addr . inet_service\n\
    \t\tsize 65535\n\
    \t\tflags dynamic\n\
    \t\telements = { 1.2.3.4 . 80 }\n\
    \t}\n\
    \n\
    \tset const {\n\
    \t\ttype ipv4_addr\n\
    \t\tflags constant\n\
    \t\telements = { 1.1.1.1, 2.2.2.2 }\n\
    \t}\n\
    \n\
    \tset constint {\n\
    \t\ttype ipv4_addr\n\
    \t\tflags constant,interval\n\
    \t\telements = { 1.1.1.1-1.1.1.9 comment \"a { b\", 2.2.2.2 }\n\
    \t}\n\
    \n\
    \tset cnt {\n\
    \t\ttype inet_service\n\
    \t\tcounter\n\
    \t\telements = { 22 counter packets 5 bytes 6 comment \"ssh\", 80 counter packets 0 bytes 0 }\n\
    \t}\n\
    \n\
    \tset ifs {\n\
    \t\ttype ifname\n\
    \t\telements = { \"eth0\" }\n\
    \t}\n\
    \n\
    \tset met {\n\
    \t\ttype ipv4_addr\n\
    \t\tsize 128\n\
    \t\tflags dynamic,timeout\n\
    \t\tlimit rate 10/second\n\
    \t\ttimeout 1m\n\
    \t}\n\
    \n\
    \tset quo {\n\
    \t\ttype ipv4_addr\n\
    \t\tflags dynamic\n\
    \t\tquota over 10 mbytes\n\
    \t}\n\
    \n\
    \tset cc {\n\
    \t\ttype ipv4_addr\n\
    \t\tsize 65535\n\
    \t\tflags dynamic\n\
    \t\tct count over 20\n\
    \t}\n\
    \n\
    \tset ca {\n\
    \t\ttype ipv4_addr\n\
    \t\tflags interval\n\
    \t\telements = { 10.0.0.0/8, * }\n\
    \t}\n\
    \n\
    \tset to {\n\
    \t\ttypeof ip saddr . tcp dport\n\
    \t\tflags interval\n\
    \t\telements = { 10.0.0.0/8 . 80 }\n\
    \t}\n\
    \n\
    \tset con {\n\
    \t\ttype ipv4_addr . inet_service\n\
    \t\tflags interval\n\
    \t\telements = { 10.0.0.5 . 1024,\n\
    \t\t\t     192.168.1.0-192.168.2.1 . 2048 }\n\
    \t}\n\
    \n\
    \tmap m {\n\
    \t\ttype inet_service : verdict\n\
    \t\telements = { 22 : accept, 80 : drop }\n\
    \t}\n\
    \n\
    \tchain input {\n\
    \t\ttype filter hook input priority filter; policy drop;\n\
    \t\tct state established accept\n\
    \t\tlog prefix \"a } b { \" drop\n\
    \t\tip saddr { 10.0.0.1, 10.0.0.2 } tcp dport { 22, 80 } accept comment \"x } y\"\n\
    \t\tip saddr @dyn accept\n\
    \t\tupdate @dyn { ip saddr }\n\
    \t\tmeta mark & 0x000000ff != 0x00000001 counter packets 0 bytes 0 drop\n\
    \t}\n\
    }\n\
    |7 sets 11 steps, 2 flags dormant skipped, 3 comment \"my table\" skipped, 5 counter c1 skipped, 9 quota q1 skipped, 13 limit l1 skipped, 17 ct helper skipped, 22 ct timeout skipped, 28 set blocked merges auto-merge, 38 dynamic dropped, 39 counter dropped, 46 dynamic dropped, 52 constant dropped, 58 constant dropped, 64 counter dropped, 68 set ifs unknown type ifname, 73 set met state limit, 81 set quo state quota, 87 set cc state ct, 94 set ca catch-all *, 113 map m skipped, 118 chain input skipped~\
";

/// Rulesets in the forms of fail2ban, firewalld and kube-proxy, of a server, and of a script that blocks countries. The
/// last one has every form of a rule on sets.
const WRITTEN: &[u8] = b"\
    table inet f2b-table {\n\
    \tset addr-set-sshd {\n\
    \t\ttype ipv4_addr\n\
    \t\telements = { 192.0.2.5, 198.51.100.7 }\n\
    \t}\n\
    \n\
    \tchain f2b-chain {\n\
    \t\ttype filter hook input priority filter - 1; policy accept;\n\
    \t\ttcp dport { 22 } ip saddr @addr-set-sshd reject with icmp port-unreachable\n\
    \t}\n\
    }\n\
    |1 sets 3 steps, 7 chain f2b-chain skipped~\
    table inet firewalld {\n\
    \tct helper helper-netbios-ns-udp {\n\
    \t\ttype \"netbios-ns\" protocol udp\n\
    \t\tl3proto ip\n\
    \t}\n\
    \n\
    \tset drop4 {\n\
    \t\ttype ipv4_addr\n\
    \t\tflags interval\n\
    \t\telements = { 203.0.113.0/24 }\n\
    \t}\n\
    \n\
    \tchain filter_PREROUTING {\n\
    \t\ttype filter hook prerouting priority filter + 10; policy accept;\n\
    \t\ticmpv6 type { nd-router-advert, nd-neighbor-solicit } accept\n\
    \t\tmeta nfproto ipv6 fib saddr . mark . iif oif missing drop\n\
    \t}\n\
    \n\
    \tchain filter_INPUT {\n\
    \t\tct state { established, related } accept\n\
    \t\tiifname \"lo\" accept\n\
    \t\treject with icmpx admin-prohibited\n\
    \t}\n\
    }\n\
    |1 sets 2 steps, 2 ct helper skipped, 13 chain filter_PREROUTING skipped, 19 chain filter_INPUT skipped~\
    table ip kube-proxy {\n\
    \tcomment \"rules for kube-proxy\"\n\
    \n\
    \tset cluster-ips {\n\
    \t\ttype ipv4_addr\n\
    \t\tcomment \"Active ClusterIPs\"\n\
    \t\telements = { 10.96.0.1, 10.96.0.10 }\n\
    \t}\n\
    \n\
    \tmap service-ips {\n\
    \t\ttype ipv4_addr . inet_proto . inet_service : verdict\n\
    \t\tcomment \"ClusterIP, ExternalIP and LoadBalancer IP traffic\"\n\
    \t\telements = { 10.96.0.1 . tcp . 443 : goto service-2QRHZV4L-default/kubernetes/tcp/https }\n\
    \t}\n\
    \n\
    \tchain mark-for-masquerade {\n\
    \t\tmeta mark set meta mark ^ 0x00004000\n\
    \t}\n\
    }\n\
    |1 sets 3 steps, 2 comment \"rules for kube-proxy\" skipped, 10 map service-ips skipped, 16 chain mark-for-masquerade skipped~\
    #!/usr/sbin/nft -f\n\
    flush ruleset\n\
    define lan = 192.168.0.0/16\n\
    table inet server {\n\
    \tset admins { type ipv4_addr . inet_service; flags interval; elements = { 10.0.0.0/8 . 22, 192.0.2.1 . 22 } }\n\
    \tchain input {\n\
    \t\ttype filter hook input priority 0; policy drop;\n\
    \t\tip saddr . tcp dport @admins accept comment \"} in a string\"\n\
    \t\t# } in a comment\n\
    \t\ttcp dport vmap { 80 : accept, 443 : accept }\n\
    \t}\n\
    }\n\
    |1 sets 3 steps, 3 define lan skipped, 6 chain input skipped~\
    add table inet geo\n\
    add set inet geo cn4 { type ipv4_addr; flags interval; }\n\
    add chain inet geo input { type filter hook input priority -10; policy accept; }\n\
    add element inet geo cn4 { 1.0.1.0/24, 1.0.2.0/23 }\n\
    add rule inet geo input ip saddr @cn4 counter drop\n\
    insert rule inet geo input iif lo accept\n\
    delete table ip old\n\
    |1 sets 3 steps, 3 add chain skipped, 5 add rule skipped, 6 insert rule skipped, 7 delete table skipped~\
    table inet t {\n\
    set a { typeof ct original ip saddr . th dport; elements = { 192.0.2.1 . 22 } }\n\
    set b { typeof ip saddr . iifname; }\n\
    set c { typeof @th,0,16; }\n\
    set d { typeof ip saddr; ct count over 20; }\n\
    set e { typeof ct count; }\n\
    }\n\
    |1 sets 2 steps, 3 set b unknown expression iifname, 4 set c unknown expression @, 5 set d state ct, 6 set e unknown expression count~\
    table ip t {\n\
    set s { type ipv4_addr; timeout 1h; }\n\
    chain c {\n\
    set update ip saddr @s\n\
    set add ip saddr @s\n\
    add @s { ip saddr }; update @s { ip saddr timeout 5s }\n\
    delete @s { ip saddr }\n\
    meta mark set 5\n\
    ct mark set ct mark\n\
    ip saddr { 1.2.3.4, 5.6.7.8 }\n\
    meta mark set ip saddr map { 1.2.3.4 : 1 }\n\
    }\n\
    }\n\
    |1 sets 0 steps, 3 chain c skipped~\
";

/// Rulesets that are refused: the line and the reason.
const REFUSED: &[u8] = b"\
    add set inet geo cn4 { type ipv4_addr; flags interval; auto-merge; }\n\
    add element inet geo cn4 { 1.0.1.0/24 }\n\
    |2 set~\
    table ip t {\n\
    chain c {\n\
    \tdrop\n\
    |2 statement~\
    table ip t {\n\
    set s { type mark }\n\
    |3 end~\
    {\"nftables\": [{\"set\": {\"family\": \"ip\"}}]}|1 statement~\
    table ip t {\n\
    chain c { }\n\
    }\n\
    }\n\
    |4 statement~\
    add chain ip t c { type filter\n\
    add set ip t s { type mark }\n\
    |1 statement~\
    table ip t {\n\
    chain c {\n\
    log prefix \"}\n\
    }\n\
    }\n\
    |3 character~\
    table ip t {\n\
    set s {\n\
    type mark\n\
    flags dynamic timeout\n\
    }\n\
    }\n\
    |4 left out~\
    table ip t {\n\
    set s {\n\
    type mark\n\
    elements = { 5 counter packets 1 bytes 2 }\n\
    }\n\
    set s { type mark }\n\
    }\n\
    |6 set~\
    table ip t {\n\
    set s {\n\
    type mark\n\
    elements = { 5, , 6 }\n\
    }\n\
    }\n\
    |4 statement~\
    table ip t {\n\
    chain c {\n\
    drop\n\
    set s { type mark }\n\
    }\n\
    }\n\
    |4 statement~\
    table ip t {\n\
    chain c {\n\
    set s {\n\
    type mark\n\
    }\n\
    }\n\
    |3 statement~\
    table ip t {\n\
    ct helper h {\n\
    type \"ftp\" protocol tcp; set set { type mark }\n\
    }\n\
    }\n\
    |3 statement~\
    table ip t {\n\
    set a {\n\
    type mark\n\
    auto-merge\n\
    set b { type mark }\n\
    }\n\
    }\n\
    |5 statement~\
    table ip t {\n\
    map m {\n\
    type mark : mark\n\
    chain c { drop; }\n\
    }\n\
    }\n\
    |4 statement~\
    add set ip t s { type mark; }\n\
    add chain ip t c {\n\
    drop\n\
    add element ip t s { 5 }\n\
    }\n\
    |4 statement~\
    add chain ip t c { add set ip t s { type mark; } }\n\
    |1 statement~\
    add set ip t s { type mark; }\n\
    table ip t {\n\
    chain c { drop; }\n\
    add element ip t s { 5 }\n\
    }\n\
    |4 statement~\
";

#[test]
fn rulesets(rt: HostRuntime) {
    assert_told(&rt, rt.alloc(), LISTED, 1, told_ruleset);
    assert_told(&rt, rt.alloc(), WRITTEN, 7, told_ruleset);
    assert_told(&rt, rt.alloc(), REFUSED, 18, told_ruleset);
}
