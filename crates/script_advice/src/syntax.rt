//! Explains a token that can't come at its place of a script: what may come there.
use crate::around::Level;
use crate::expressions::{explain_unfinished, is_expression_word, lacks_words};
use crate::fault::Fault;
use crate::lists::explain_in_list;
use crate::sets::{SET_NAME, explain_no_name};
use crate::shell::{explain_end, for_command, names_a_shell};
use crate::times::{explain_time, explain_unit, is_apart};
use crate::types::TYPES;
use crate::values::explain_all;
use field_advice::{add_set, explain_family, family_meant, is_typeof, set_named};
use set_model::Memory;
use text_pieces::Piece;
use token_forms::{Reason, is_a_name};
use token_notes::{
    Explained, SIZE, TextKind, after_words, explain_plainly, first_line, is_family, is_one_of,
    last_word, shortened, without_blanks, word_at,
};

/// The words that begin a statement.
const STATEMENTS: [&[u8]; 10] = [
    b"add", b"create", b"delete", b"destroy", b"flush", b"table", b"at", b"commit", b"abort",
    b"round",
];

/// The words that begin an item of a set.
const ITEMS: [&[u8]; 8] = [
    b"type",
    b"flags",
    b"timeout",
    b"size",
    b"gc-interval",
    b"policy",
    b"comment",
    b"elements",
];

const FLAGS: [&[u8]; 3] = [b"interval", b"timeout", b"disjoint"];

const TABLE_NAME: &[u8] = b"a table is named by [FAMILY] TABLE; a name begins with a letter or '_'";

const END_STATEMENT: &[u8] = b"end the statement before it, with ';' or a new line";

const END_ITEM: &[u8] = b"end the item before it, with ';' or a new line";

/// The longest values of a line that a note repeats.
const LONGEST_VALUES: usize = 100;

/// What to do with a token after a statement that is whole.
fn for_extra(token: &[u8]) -> &'static [u8] {
    match token {
        b"," | b"{" =>
            b"write one list, with one pair of braces around all elements, as: { 80, 443 }",
        b"if" => b"leave it out, and write 'destroy element' in place of 'delete element'",
        word if is_one_of(word, &STATEMENTS) => END_STATEMENT,
        _ => b"leave it out, or begin a new line with it",
    }
}

/// What to do with a token after the name with which a statement ends.
fn for_name_end(token: &[u8], help: &'static [u8]) -> &'static [u8] {
    if is_one_of(token, &STATEMENTS) {
        END_STATEMENT
    } else {
        help
    }
}

/// What to do in place of a word that begins a statement in other languages.
fn for_other_verb(word: &[u8]) -> Option<&'static [u8]> {
    match word {
        b"list" | b"show" | b"print" => {
            Some(b"leave the statement out: 'pipapo list FILE' prints the sets of a script")
        }
        b"get" | b"test" | b"lookup" => {
            Some(b"leave the statement out: 'pipapo get FILE ip t p 80' looks a key up")
        }
        b"update" | b"replace" => Some(
            b"write 'add' in place of it; to change an element, write 'delete element' and then 'add element'",
        ),
        b"rollback" | b"revert" | b"undo" => Some(b"did you mean 'abort'?"),
        b"apply" | b"save" | b"end" => Some(b"did you mean 'commit'?"),
        b"wait" | b"sleep" | b"time" => {
            Some(b"write 'at' and the moment of what follows in milliseconds, as: at 5000")
        }
        _ => None,
    }
}

/// Explains a line that has no statement, but a set and values, as a key file has it.
fn explain_key_line(said: &mut Explained, fault: Fault<'_>) -> Result<(), Memory> {
    let line = fault.around.rest_from(fault.at);
    let place = set_named(line, 0);
    let values = without_blanks(after_words(line, 3));
    said.wrong.say(b" can't begin a statement")?;
    if values.first() == Some(&b'{') {
        return said.help.say(b"write 'add element' before it");
    }
    let has_several = values.contains(&b'{')
        || first_line(fault.around.behind(fault.at)).contains(&b',');
    if values.is_empty() || has_several || values.len() > LONGEST_VALUES {
        return said.help.say(
            b"to add an element, write: add element [FAMILY] TABLE SET { VALUES }; a line of a key file isn't part of a script",
        );
    }
    add_set(said, b"to add it, write: add element ", place, b" { ")?;
    said.tell(
        &[],
        &[
            Piece::Word(values),
            Piece::Word(
                b" }; to look it up, write the line into a key file, which 'run' takes after the script",
            ),
        ],
    )
}

/// Explains the first token of a statement.
fn explain_first(said: &mut Explained, fault: Fault<'_>) -> Result<(), Memory> {
    if let Some(help) = for_command(fault.token) {
        return said.say(b" can't begin a statement", help);
    }
    match fault.token {
        b"set" => said.say(
            b" can't begin a statement",
            b"write it into the braces of a table, or as: add set [FAMILY] TABLE SET { .. }",
        ),
        b"element" => said.say(
            b" can't begin a statement",
            b"write 'add', 'create', 'delete' or 'destroy' before it",
        ),
        b"{" => said.say(
            b" can't begin a statement",
            b"write it in the line of what it opens, as: table ip t {",
        ),
        b"remove" | b"rm" => said.say(b" can't begin a statement", b"did you mean 'delete'?"),
        b"insert" | b"append" | b"new" => {
            said.say(b" can't begin a statement", b"did you mean 'add'?")
        }
        b"begin" | b"start" => said.say(
            b" can't begin a statement",
            b"leave the statement out: a transaction begins by itself, and ends with 'commit' or 'abort'",
        ),
        word if is_family(word) => explain_key_line(said, fault),
        word if for_other_verb(word).is_some() => said.say(
            b" can't begin a statement",
            for_other_verb(word).unwrap_or(b""),
        ),
        word => said.suggest(
            b" can't begin a statement",
            word,
            &STATEMENTS,
            if names_a_shell(fault.around.before(fault.at)) {
                b"leave out the lines of the shell: a script has only statements, without 'nft'"
            } else {
                b"a statement begins with add, create, delete, destroy, flush, table, at, commit, abort or round"
            },
        ),
    }
}

/// Whether a word begins with a digit, as most values do.
fn begins_with_digit(word: &[u8]) -> bool {
    matches!(word, [b'0'..=b'9', ..])
}

/// What to do at the end of a line after a name, if the next line begins with the `{` that belongs there.
fn for_brace(fault: Fault<'_>, help: &'static [u8]) -> &'static [u8] {
    if word_at(fault.around.behind(fault.at), 0) == b"{".as_slice() {
        b"write the '{' of the next line in this one, right after the name"
    } else {
        help
    }
}

/// What to do with a verb on elements that something else follows.
fn for_verb(verb: &[u8]) -> &'static [u8] {
    match verb {
        b"create" =>
            b"write 'element', the set, and the elements in braces, as: create element ip t p { 80, 443 }",
        b"delete" =>
            b"write 'delete element' to remove some elements, or 'flush set' to remove all elements of a set",
        _ =>
            b"write 'destroy element' to remove some elements, or 'flush set' to remove all elements of a set",
    }
}

/// Explains the second token of a statement.
fn explain_second(said: &mut Explained, fault: Fault<'_>) -> Result<(), Memory> {
    let word = fault.token;
    match word_at(fault.around.part, 0) {
        b"add" if begins_with_digit(word_at(fault.around.behind(fault.at), 1)) => said.say(
            b" can't follow 'add'",
            b"write 'element', the set, and the elements in braces, as: add element ip t p { 80, 443 }",
        ),
        b"add" => said.suggest(
            b" can't follow 'add'",
            word,
            &[b"table", b"set", b"element"],
            b"'add' is followed by table, set or element",
        ),
        b"flush" if word == b"ruleset".as_slice() => said.say(
            b" can't be flushed here",
            b"'flush ruleset' can only be the first statement",
        ),
        b"flush" if word == b"table".as_slice() => said.say(
            b" can't follow 'flush'",
            b"leave the statement out: it removes rules, and a script has none",
        ),
        b"flush" if word == b"element".as_slice() => said.say(
            b" can't follow 'flush'",
            b"write 'delete element' to remove some elements, or 'flush set' to remove all",
        ),
        b"flush" if is_family(word) => said.say(b" can't follow 'flush'", b"write 'set' before it"),
        b"flush" => said.suggest(
            b" can't follow 'flush'",
            word,
            &[b"set"],
            b"'flush' is followed by set and the name of a set",
        ),
        b"at" => said.say(
            b" isn't a moment",
            b"'at' is followed by a number of milliseconds",
        ),
        b"table" => said.say(b" isn't the name of a table", TABLE_NAME),
        b"commit" | b"abort" | b"round" | b"}" => { explain_end(said, fault, for_extra(word)) }
        verb => said.suggest(
            match verb {
                b"create" => b" can't follow 'create'",
                b"delete" => b" can't follow 'delete'",
                _ => b" can't follow 'destroy'",
            },
            word,
            &[b"element"],
            for_verb(verb),
        ),
    }
}

/// Explains a token after the place of a table or a set has begun.
fn explain_place(said: &mut Explained, fault: Fault<'_>) -> Result<(), Memory> {
    let part = fault.around.part;
    let is_block = word_at(part, 0) == b"table".as_slice();
    let is_table = word_at(part, 1) == b"table".as_slice();
    let first = if is_block { 1 } else { 2 };
    let place = set_named(part, first);
    let begun = word_at(part, first);
    let is_whole = if is_block || is_table {
        !place.table.is_empty()
    } else {
        !place.name.is_empty()
    };
    let is_before_brace = word_at(fault.around.behind(fault.at), 1) == b"{".as_slice();
    let is_family_meant = is_before_brace || family_meant(begun).is_some();
    if is_whole && is_family_meant && !is_family(begun) && is_a_name(fault.token) {
        return explain_family(said, begun);
    }
    match word_at(part, 0) {
        b"at" => return explain_end(said, fault, END_STATEMENT),
        _ if place.table.is_empty() && (is_block || is_table) => {
            return said.say(b" isn't the name of a table", TABLE_NAME);
        }
        _ if place.table.is_empty() => {
            return said.say(b" isn't the name of a table", SET_NAME);
        }
        _ => {}
    }
    if is_table && fault.token == b"{".as_slice() {
        return said.say(
            b" can't follow 'add table'",
            b"write 'table' in place of 'add table'",
        );
    }
    if is_table {
        return explain_end(
            said,
            fault,
            for_name_end(
                fault.token,
                b"leave it out: 'add table' ends with the table's name",
            ),
        );
    }
    if is_block {
        return said.say(
            b" can't follow the table's name",
            for_brace(fault, b"write '{' after it, or 'add table' before it"),
        );
    }
    if place.name.is_empty() {
        return explain_no_name(said, fault, place.table);
    }
    match word_at(part, 0) {
        b"flush" if fault.token == b"{".as_slice() => said.say(
            b" can't follow the set's name",
            b"'flush set' removes all elements: write 'delete element' to remove some",
        ),
        b"flush" => explain_end(
            said,
            fault,
            for_name_end(
                fault.token,
                b"leave it out: 'flush set' ends with the set's name",
            ),
        ),
        _ if word_at(part, 1) == b"element".as_slice() => said.say(
            b" can't follow the set's name",
            b"write the elements in braces after it, as: { 80, 443 }",
        ),
        _ => said.say(
            b" can't follow the set's name",
            for_brace(fault, b"write '{' after the set's name"),
        ),
    }
}

/// Explains a token that nft(8) reads here and this program doesn't.
pub(crate) fn explain_left_out(said: &mut Explained, fault: Fault<'_>) -> Result<(), Memory> {
    let verb = word_at(fault.around.part, 0);
    match fault.token {
        b"*" => explain_all(said, fault),
        b"set" if verb == b"create".as_slice() => {
            said.say(
                b" can't follow 'create'",
                b"write 'add set' to declare a set",
            )
        }
        b"table" if verb == b"create".as_slice() => said.say(
            b" can't follow 'create'",
            b"write 'add table' to declare a table",
        ),
        b"set" => said.say(
            b" can't be deleted",
            b"leave the statement out, or write 'flush set' to remove the elements of a set that is declared",
        ),
        b"table" => said.say(
            b" can't be deleted",
            b"leave the statement out: a script begins without sets; later 'flush set' removes a set's elements",
        ),
        word => explain_plainly(said, TextKind::Script, Reason::LeftOut, word),
    }
}

/// Explains a word that begins a statement and comes within braces, which are still open.
pub(crate) fn explain_open(said: &mut Explained, fault: Fault<'_>) -> Result<(), Memory> {
    said.tell(
        &[Piece::Word(match fault.around.level {
            Level::Elements => b" can't come in a list",
            Level::Set => b" can't come in a set",
            _ => b" can't come in a table",
        })],
        &[
            Piece::Word(b"close the '{' of line "),
            Piece::Number(fault.around.open_line()),
            Piece::Word(b" with '}' first"),
        ],
    )
}

/// Whether a word begins a statement or a set, and comes in a set or a list.
pub(crate) fn is_in_open(fault: Fault<'_>) -> bool {
    let begins = is_one_of(fault.token, &STATEMENTS) || fault.token == b"set".as_slice();
    match fault.around.level {
        Level::Elements => begins,
        Level::Set => begins && fault.around.part.is_empty(),
        Level::Table => { fault.around.part.is_empty() && is_one_of(fault.token, &STATEMENTS[2..]) }
        Level::Statement => false,
    }
}

fn explain_in_statement(said: &mut Explained, fault: Fault<'_>) -> Result<(), Memory> {
    if fault.token == b"}".as_slice() {
        return said.say(
            b" closes no '{'",
            b"remove it, or add the '{' that is missing before it",
        );
    }
    if fault.around.part.is_empty() {
        return explain_first(said, fault);
    }
    if word_at(fault.around.part, 0) == b"}".as_slice() {
        return explain_end(said, fault, for_extra(fault.token));
    }
    if word_at(fault.around.part, 1).is_empty() {
        return explain_second(said, fault);
    }
    explain_place(said, fault)
}

/// Explains a token in the braces of a table.
fn explain_in_table(said: &mut Explained, fault: Fault<'_>) -> Result<(), Memory> {
    let part = fault.around.part;
    match word_at(part, 0) {
        b"" if is_one_of(fault.token, &[b"add", b"create"]) => said.tell(
            &[Piece::Word(b" can't come in a table")],
            &[
                Piece::Word(b"write 'set' alone, or close the '{' of line "),
                Piece::Number(fault.around.open_line()),
                Piece::Word(b" with '}' first"),
            ],
        ),
        b"" => said.suggest(
            b" can't come in a table",
            fault.token,
            &[b"set"],
            b"a table's braces hold sets: set NAME { .. }",
        ),
        b"}" => explain_end(said, fault, END_STATEMENT),
        _ if word_at(part, 1).is_empty() => said.say(
            b" isn't the name of a set",
            b"a name begins with a letter or '_'",
        ),
        _ => said.say(
            b" can't follow the set's name",
            for_brace(fault, b"write '{' after the set's name"),
        ),
    }
}

/// Explains the first token of a set's item.
fn explain_item(said: &mut Explained, fault: Fault<'_>) -> Result<(), Memory> {
    let set = fault.set();
    let word = fault.token;
    if set.type_item().is_empty() {
        return said.suggest(
            b" can't come before the set's type",
            word,
            &[b"type", b"typeof"],
            b"write the type first, as: type ipv4_addr . inet_service",
        );
    }
    if is_one_of(word, &FLAGS) && !is_one_of(word, &ITEMS) {
        return said.say(
            b" isn't an item of a set",
            b"write 'flags' before it, as: flags interval",
        );
    }
    if !is_one_of(word, &ITEMS) {
        return said.suggest(
            b" isn't an item of a set",
            word,
            &ITEMS,
            b"the items are type, flags, timeout, size, gc-interval, policy, comment and elements",
        );
    }
    if word == b"flags".as_slice() {
        return said.say(
            b" is given twice",
            b"write one item with ',' between its flags, as: flags interval, timeout",
        );
    }
    if set.item(word).is_empty() {
        return said.say(b" can't come after the elements", b"write 'elements' last");
    }
    said.say(b" is given twice", b"leave one of the two out")
}

/// Whether a token comes in the item `typeof` of a set, before the end of an expression.
fn is_unfinished(fault: Fault<'_>) -> bool {
    is_typeof(fault.around.part) && lacks_words(fault.around.part)
}

/// Explains a token after the word of an item.
fn explain_in_item(said: &mut Explained, fault: Fault<'_>) -> Result<(), Memory> {
    let part = fault.around.part;
    let word = fault.token;
    let last = last_word(part);
    if is_apart(part, word) {
        return explain_unit(said, last, word);
    }
    let item = word_at(part, 0);
    match item {
        _ if word == b"=".as_slice() && item != b"elements".as_slice() => said.say(
            b" can't come in this item",
            b"leave it out: only 'elements' has a '=' after it",
        ),
        b"size" if word == b",".as_slice() => said.say(
            b" can't come in a number",
            b"write the digits alone, as 65536",
        ),
        b"flags" if last == b"timeout".as_slice() && matches!(word, [b'0'..=b'9', ..]) => {
            said.tell(
                &[Piece::Word(b" can't follow a flag")],
                &[
                    Piece::Word(b"write the time as an item of its own: "),
                    Piece::Word(shortened(part)),
                    Piece::Word(b"; timeout "),
                    Piece::Word(shortened(word)),
                ],
            )
        }
        b"type" if last == b"type".as_slice() || last == b".".as_slice() => said.say(
            b" isn't a type",
            b"a type is expected, as ipv4_addr",
        ),
        b"type" if word == b":".as_slice() => said.say(
            b" makes a map of the set",
            b"write one '.' between types; there are no maps",
        ),
        b"type" if is_one_of(word, &[b",", b"/"]) || is_one_of(word, &TYPES) => said.say(
            b" can't follow a type",
            b"write ' . ' between types",
        ),
        _ if is_unfinished(fault) => explain_unfinished(said, part),
        b"typeof" if is_one_of(word, &[b",", b"/"]) || is_expression_word(word) => said.say(
            b" can't follow a whole expression",
            b"write ' . ' between expressions",
        ),
        b"flags" if is_one_of(last, &[b"flags", b","]) && is_one_of(word, &FLAGS) => said.say(
            b" is given twice",
            b"leave one of the two out",
        ),
        b"flags" if is_one_of(last, &[b"flags", b","]) => said.suggest(
            b" isn't a flag",
            word,
            &FLAGS,
            b"the flags are interval, timeout and disjoint",
        ),
        b"flags" if is_one_of(word, &FLAGS) => said.say(
            b" can't follow a flag without ','",
            b"write ',' between flags",
        ),
        b"policy" if last == b"policy".as_slice() => said.suggest(
            b" isn't a policy",
            word,
            &[b"performance", b"memory"],
            b"the policies are performance and memory",
        ),
        b"comment" if last == b"comment".as_slice() => explain_comment(said, fault),
        b"timeout" | b"gc-interval" if is_one_of(last, &[b"timeout", b"gc-interval"]) => {
            explain_time(said, word)
        }
        b"size" if last == b"size".as_slice() => said.say(b" isn't a size", SIZE),
        b"elements" if last == b"elements".as_slice() => said.say(
            b" can't follow 'elements'",
            b"write '=' after 'elements'",
        ),
        b"elements" => said.say(
            b" can't follow '='",
            b"write the elements in braces, as: elements = { 10.0.0.1, 10.0.0.2 }",
        ),
        _ => explain_end(said, fault, END_ITEM),
    }
}

/// Explains a token in the place of a comment's string.
pub(crate) fn explain_comment(said: &mut Explained, fault: Fault<'_>) -> Result<(), Memory> {
    if is_one_of(fault.token, &[b"", b",", b";", b"}"]) {
        return said.say(
            b" can't follow 'comment'",
            b"write the comment in quotes, as: comment \"web\"",
        );
    }
    said.tell(
        &[Piece::Word(b" isn't in quotes")],
        &[
            Piece::Word(b"quote the comment: comment \""),
            Piece::Word(shortened(fault.around.rest_from(fault.at))),
            Piece::Word(b"\""),
        ],
    )
}

/// Whether a token is a `/` between the types of a set.
pub(crate) fn is_between_types(fault: Fault<'_>) -> bool {
    fault.token == b"/".as_slice()
        && fault.around.level == Level::Set
        && is_one_of(word_at(fault.around.part, 0), &[b"type", b"typeof"])
}

/// Whether a token is a string outside of lists and comments.
fn is_in_quotes(fault: Fault<'_>) -> bool {
    let is_comment = fault.around.level == Level::Set
        && word_at(fault.around.part, 0) == b"comment".as_slice();
    fault.token.starts_with(b"\"") && fault.around.level != Level::Elements && !is_comment
}

/// Explains a token that can't come at its place.
pub(crate) fn explain_syntax(said: &mut Explained, fault: Fault<'_>) -> Result<(), Memory> {
    if is_in_quotes(fault) {
        return said.say(
            b" is a string, and can't come here",
            b"leave out the quotes: only comments have them",
        );
    }
    match fault.around.level {
        Level::Statement => explain_in_statement(said, fault),
        Level::Table => explain_in_table(said, fault),
        Level::Set if fault.around.part.is_empty() => explain_item(said, fault),
        Level::Set => explain_in_item(said, fault),
        Level::Elements => explain_in_list(said, fault),
    }
}

/// Explains the end of a script that ends too early.
pub(crate) fn explain_text_end(said: &mut Explained, fault: Fault<'_>) -> Result<(), Memory> {
    let line = fault.around.open_line();
    match fault.around.level {
        Level::Statement => explain_in_statement(said, fault),
        Level::Set if is_unfinished(fault) => explain_unfinished(said, fault.around.part),
        level => said.tell(
            &[
                Piece::Word(b" leaves the '{' of line "),
                Piece::Number(line),
                Piece::Word(b" open"),
            ],
            &[Piece::Word(match level {
                Level::Elements => b"write '}' after the last element",
                Level::Set => b"write '}' after the last item of the set",
                _ => b"write '}' after the last set of the table",
            })],
        ),
    }
}
