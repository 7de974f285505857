//! Roles of tokens.
ghost use Rattle.std.specs.Prelude.{◌≡◌, is_some};
ghost use Rattle.set_script.specs.Names.{kind_of};
ghost use Rattle.token_forms.specs.View.{lexeme_of};
ghost use Rattle.ruleset_sets.specs.Roles.{statement_word, set_word, word_role, mark_role, faulty_role, role_of};
ghost use Rattle.ruleset_sets.specs.Roles as roles;

use token_forms::{Seen, TokenKind, is_a_name};

/// What a token is to a ruleset.
#[derive(Clone, Copy, Debug)]
pub enum Role {
    /// A line feed.
    LineFeed,
    /// `;`.
    Semicolon,
    /// `{`.
    OpenBrace,
    /// `}`.
    CloseBrace,
    /// `,`.
    Comma,
    /// `*`, the catch-all element.
    Star,
    /// A quote that begins no string, or a control character. No script has it, so it is never skipped.
    Unread,
    /// A string, `=`, or another byte that begins no token of a script.
    Other,
    /// The end of the text.
    End,
    /// `table`.
    Table,
    /// `set`.
    Set,
    /// `element`.
    Element,
    /// `ruleset`.
    Ruleset,
    /// `map`, `chain` or `flowtable`.
    Block,
    /// `add`.
    Add,
    /// `create`, `delete` or `destroy`.
    Change,
    /// `flush`.
    Flush,
    /// `at`, `commit`, `abort` or `round`.
    Turn,
    /// `type`.
    TypeItem,
    /// `flags`.
    FlagsItem,
    /// `constant`.
    Constant,
    /// `dynamic`.
    Dynamic,
    /// `counter`.
    Counter,
    /// `last`.
    Last,
    /// `packets`, `bytes` or `used`.
    Count,
    /// `typeof`.
    Typeof,
    /// `auto-merge`.
    AutoMerge,
    /// `quota`, `limit` or `ct`.
    Stateful,
    /// A type that a set may have.
    Kind,
    /// `.`.
    Dot,
    /// Any other word.
    Word,
}

impl Role {
    /// Whether it ends an item outside braces: a line feed or a `;`.
    pub fn is_separator(self) -> bool
        ensures { result ≡ roles.is_separator self }
    {
        matches!(self, Role::LineFeed | Role::Semicolon)
    }

    /// Whether it is `{`.
    pub fn opens(self) -> bool
        ensures { result ≡ roles.opens self }
    {
        matches!(self, Role::OpenBrace)
    }

    /// Whether it is `}`.
    pub fn closes(self) -> bool
        ensures { result ≡ roles.closes self }
    {
        matches!(self, Role::CloseBrace)
    }

    /// Whether it is the end of the text.
    pub fn is_end(self) -> bool
        ensures { result ≡ roles.is_end self }
    {
        matches!(self, Role::End)
    }

    /// Whether it is a token that is never skipped.
    pub fn is_unread(self) -> bool
        ensures { result ≡ roles.is_unread self }
    {
        matches!(self, Role::Unread)
    }

    /// Whether it is a line feed.
    pub fn is_line_feed(self) -> bool
        ensures { result ≡ roles.is_line_feed self }
    {
        matches!(self, Role::LineFeed)
    }

    /// Whether it is `,`.
    pub fn is_comma(self) -> bool
        ensures { result ≡ roles.is_comma self }
    {
        matches!(self, Role::Comma)
    }

    /// Whether it is `table`.
    pub fn is_table(self) -> bool
        ensures { result ≡ roles.is_table self }
    {
        matches!(self, Role::Table)
    }

    /// Whether it is `set`.
    pub fn is_set(self) -> bool
        ensures { result ≡ roles.is_set self }
    {
        matches!(self, Role::Set)
    }

    /// Whether it is `element`.
    pub fn is_element(self) -> bool
        ensures { result ≡ roles.is_element self }
    {
        matches!(self, Role::Element)
    }

    /// Whether it is `ruleset`.
    pub fn is_ruleset(self) -> bool
        ensures { result ≡ roles.is_ruleset self }
    {
        matches!(self, Role::Ruleset)
    }

    /// Whether it is `map`, `chain` or `flowtable`.
    pub fn is_block(self) -> bool
        ensures { result ≡ roles.is_block self }
    {
        matches!(self, Role::Block)
    }

    /// Whether it is `type`.
    pub fn is_type(self) -> bool
        ensures { result ≡ roles.is_type self }
    {
        matches!(self, Role::TypeItem)
    }

    /// Whether it is `typeof`.
    pub fn is_typeof(self) -> bool
        ensures { result ≡ roles.is_typeof self }
    {
        matches!(self, Role::Typeof)
    }

    /// Whether it is `flags`.
    pub fn is_flags(self) -> bool
        ensures { result ≡ roles.is_flags self }
    {
        matches!(self, Role::FlagsItem)
    }

    /// Whether it is `constant`.
    pub fn is_constant(self) -> bool
        ensures { result ≡ roles.is_constant self }
    {
        matches!(self, Role::Constant)
    }

    /// Whether it is `dynamic`.
    pub fn is_dynamic(self) -> bool
        ensures { result ≡ roles.is_dynamic self }
    {
        matches!(self, Role::Dynamic)
    }

    /// Whether it is `counter`.
    pub fn is_counter(self) -> bool
        ensures { result ≡ roles.is_counter self }
    {
        matches!(self, Role::Counter)
    }

    /// Whether it is `last`.
    pub fn is_last(self) -> bool
        ensures { result ≡ roles.is_last self }
    {
        matches!(self, Role::Last)
    }

    /// Whether it is `packets`, `bytes` or `used`.
    pub fn is_count(self) -> bool
        ensures { result ≡ roles.is_count self }
    {
        matches!(self, Role::Count)
    }

    /// Whether it is a word without a meaning of its own.
    pub fn is_plain_word(self) -> bool
        ensures { result ≡ roles.is_plain_word self }
    {
        matches!(self, Role::Word)
    }

    /// Whether it is `.`.
    pub fn is_dot(self) -> bool
        ensures { result ≡ roles.is_dot self }
    {
        matches!(self, Role::Dot)
    }

    /// Whether it is a known type, or the `.` between two types.
    pub fn is_type_part(self) -> bool
        ensures { result ≡ roles.is_type_part self }
    {
        matches!(self, Role::Kind | Role::Dot)
    }

    /// Whether it isn't a word.
    pub fn is_no_word(self) -> bool
        ensures { result ≡ roles.is_no_word self }
    {
        matches!(
            self,
            Role::LineFeed
                | Role::Semicolon
                | Role::OpenBrace
                | Role::CloseBrace
                | Role::Comma
                | Role::Star
                | Role::Unread
                | Role::Other
                | Role::End
        )
    }
}

/// The role of a word that begins a statement, or follows its first word.
fn statement_word_of(text: &[u8]) -> Option<Role>
    ensures { result ≡ statement_word text.now }
{
    if text == b"table".as_slice() {
        Some(Role::Table)
    } else if text == b"set".as_slice() {
        Some(Role::Set)
    } else if text == b"element".as_slice() {
        Some(Role::Element)
    } else if text == b"ruleset".as_slice() {
        Some(Role::Ruleset)
    } else if text == b"map".as_slice()
        || text == b"chain".as_slice()
        || text == b"flowtable".as_slice()
    {
        Some(Role::Block)
    } else if text == b"add".as_slice() {
        Some(Role::Add)
    } else if text == b"create".as_slice()
        || text == b"delete".as_slice()
        || text == b"destroy".as_slice()
    {
        Some(Role::Change)
    } else if text == b"flush".as_slice() {
        Some(Role::Flush)
    } else if text == b"at".as_slice()
        || text == b"commit".as_slice()
        || text == b"abort".as_slice()
        || text == b"round".as_slice()
    {
        Some(Role::Turn)
    } else {
        None
    }
}

/// Whether a word is a type that a set may have.
fn is_a_kind(text: &[u8]) -> bool
    ensures { result ≡ is_some (kind_of text.now) }
{
    text == b"ipv4_addr".as_slice()
        || text == b"ipv6_addr".as_slice()
        || text == b"ether_addr".as_slice()
        || text == b"inet_proto".as_slice()
        || text == b"inet_service".as_slice()
        || text == b"mark".as_slice()
}

/// The role of a word of a set or of an element.
fn set_word_of(text: &[u8]) -> Option<Role>
    ensures { result ≡ set_word text.now }
{
    if text == b"type".as_slice() {
        Some(Role::TypeItem)
    } else if text == b"flags".as_slice() {
        Some(Role::FlagsItem)
    } else if text == b"constant".as_slice() {
        Some(Role::Constant)
    } else if text == b"dynamic".as_slice() {
        Some(Role::Dynamic)
    } else if text == b"counter".as_slice() {
        Some(Role::Counter)
    } else if text == b"last".as_slice() {
        Some(Role::Last)
    } else if text == b"packets".as_slice()
        || text == b"bytes".as_slice()
        || text == b"used".as_slice()
    {
        Some(Role::Count)
    } else if text == b"typeof".as_slice() {
        Some(Role::Typeof)
    } else if text == b"auto-merge".as_slice() {
        Some(Role::AutoMerge)
    } else if text == b"quota".as_slice()
        || text == b"limit".as_slice()
        || text == b"ct".as_slice()
    {
        Some(Role::Stateful)
    } else if is_a_kind(text) {
        Some(Role::Kind)
    } else {
        None
    }
}

/// The role of a word that is a name.
fn name_role(text: &[u8]) -> Role
    ensures { result ≡ roles.or_word (roles.either_role (statement_word text.now) (set_word text.now)) }
{
    match statement_word_of(text) {
        Some(role) => role,
        None => match set_word_of(text) {
            Some(role) => role,
            None => Role::Word,
        },
    }
}

fn role_of_word(text: &[u8]) -> Role
    ensures { result ≡ word_role text.now }
{
    if text == b".".as_slice() {
        Role::Dot
    } else if is_a_name(text) {
        name_role(text)
    } else {
        Role::Word
    }
}

fn role_of_mark(text: &[u8]) -> Role
    ensures { result ≡ mark_role text.now }
{
    if text == b"{".as_slice() {
        Role::OpenBrace
    } else if text == b"}".as_slice() {
        Role::CloseBrace
    } else if text == b",".as_slice() {
        Role::Comma
    } else if text == b";".as_slice() {
        Role::Semicolon
    } else if text == b"*".as_slice() {
        Role::Star
    } else {
        Role::Other
    }
}

fn role_of_faulty(text: &[u8]) -> Role
    ensures { result ≡ faulty_role text.now }
{
    match text {
        [first, ..] if *first == b'"' || *first < 32 => Role::Unread,
        _ => Role::Other,
    }
}

/// The role of a token.
pub fn role_of_token(t: &Seen) -> Role
    ensures { result ≡ role_of (lexeme_of t.now) }
{
    match t.kind {
        TokenKind::Break => Role::LineFeed,
        TokenKind::Mark => role_of_mark(t.bytes),
        TokenKind::Text => Role::Other,
        TokenKind::Word => role_of_word(t.bytes),
        TokenKind::Faulty => role_of_faulty(t.bytes),
        TokenKind::End => Role::End,
    }
}
