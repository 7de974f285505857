//! Explains a word at the place of a type.
use crate::expressions::explain_expression;
use crate::fault::Fault;
use field_advice::{
    Wanted, begins_with_replaced, has_further_replaced, is_typeof, tell_replaced, type_meant,
};
use set_model::Memory;
use token_notes::{Explained, LONG_KEY, is_one_of};

pub(crate) const TYPES: [&[u8]; 6] = [
    b"ipv4_addr",
    b"ipv6_addr",
    b"ether_addr",
    b"inet_proto",
    b"inet_service",
    b"mark",
];

/// Explains a word at the place of a type.
pub(crate) fn explain_type(said: &mut Explained, fault: Fault<'_>) -> Result<(), Memory> {
    if is_typeof(fault.around.part) {
        return explain_expression(said, fault.around.part, fault.token);
    }
    if is_one_of(fault.token, &TYPES) {
        return said.say(b" makes the key too long", LONG_KEY);
    }
    let line = fault.around.rest_from(fault.at);
    let is_meant = type_meant(fault.token).is_some();
    let is_replaced = begins_with_replaced(line, Wanted::Types);
    if is_replaced && (!is_meant || has_further_replaced(line, Wanted::Types)) {
        said.wrong.say(b" isn't a type")?;
        return tell_replaced(said, line, Wanted::Types);
    }
    if fault.token.contains(&b'.') {
        return said.say(
            b" isn't a type",
            b"write '.' with blanks around it between types, as: ipv4_addr . inet_service",
        );
    }
    if let Some(kind) = type_meant(fault.token) {
        return said.ask(b" isn't a supported type", kind);
    }
    said.suggest(
        b" isn't a supported type",
        fault.token,
        &TYPES,
        b"the types are ipv4_addr, ipv6_addr, ether_addr, inet_proto, inet_service and mark",
    )
}
