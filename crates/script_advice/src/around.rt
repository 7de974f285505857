//! Finds what surrounds a token of a script: its braces, its statement, its set, and the words before it.
use field_advice::{SetWords, is_same, set_named};
use set_model::Memory;
use token_forms::{Token, Tokens};
use token_notes::{bytes_of, is_separator, item_of, without_blanks_behind, word_at};

/// The innermost braces around a token.
#[derive(Clone, Copy, Debug, PartialEq, Eq)]
pub(crate) enum Level {
    /// It is outside of braces, in a statement.
    Statement,
    /// A table's, which hold sets.
    Table,
    /// A set's, which hold its items.
    Set,
    /// A list's, which hold elements.
    Elements,
}

/// A set that is declared, or whose elements are changed.
#[derive(Clone, Copy)]
pub(crate) struct SetText<'a> {
    pub(crate) words: SetWords<'a>,
    /// The line of its `{`.
    pub(crate) line: u64,
    from: usize,
    /// What its braces hold. A set whose elements are changed has none.
    items: &'a [u8],
}

/// What surrounds a token of a script. All texts are parts of the script.
#[derive(Clone, Copy)]
pub(crate) struct Around<'a> {
    text: &'a [u8],
    pub(crate) level: Level,
    is_in_table: bool,
    is_in_set: bool,
    /// The lines of the `{` of the table and of the list.
    table_line: u64,
    list_line: u64,
    /// The statement before its first `{`.
    pub(crate) statement: &'a [u8],
    pub(crate) set: SetText<'a>,
    from: usize,
    /// The statement, the set's head, the item or the element up to the token. After a `}` it begins
    /// with that.
    pub(crate) part: &'a [u8],
    /// The number of the last `at`.
    pub(crate) moment: &'a [u8],
    /// Whether there was a `commit`, an `abort` or a `round`.
    pub(crate) is_late: bool,
}

impl<'a> SetText<'a> {
    /// A set whose braces begin at this place.
    fn new(words: SetWords<'a>, line: u64, from: u64) -> SetText<'a> {
        SetText {
            words,
            line,
            from: from as usize,
            items: b"",
        }
    }

    /// The set with its items up to a place.
    fn up_to(self, text: &'a [u8], at: u64) -> SetText<'a> {
        SetText {
            items: text.get(self.from..at as usize).unwrap_or(b""),
            ..self
        }
    }

    /// The item with the types, or with the expressions, of the fields. It is empty if there is none.
    pub(crate) fn type_item(self) -> &'a [u8] {
        let types = self.item(b"type");
        if types.is_empty() {
            self.item(b"typeof")
        } else {
            types
        }
    }

    /// The item that begins with this word. It is empty if there is none.
    pub(crate) fn item(self, word: &[u8]) -> &'a [u8] {
        item_of(self.items, word)
    }
}

impl<'a> Around<'a> {
    /// What surrounds the first token.
    fn new(text: &'a [u8]) -> Around<'a> {
        let none = SetWords {
            family: b"",
            table: b"",
            name: b"",
        };
        Around {
            text,
            level: Level::Statement,
            is_in_table: false,
            is_in_set: false,
            table_line: 0,
            list_line: 0,
            statement: b"",
            set: SetText::new(none, 0, 0),
            from: 0,
            part: b"",
            moment: b"",
            is_late: false,
        }
    }

    /// After one more token of the statement, the item or the element.
    fn joined(self, token: Token) -> Around<'a> {
        let from = if self.part.is_empty() {
            token.from as usize
        } else {
            self.from
        };
        Around {
            from,
            part: self.text.get(from..token.to as usize).unwrap_or(b""),
            ..self
        }
    }

    /// After a separator.
    fn separated(self) -> Around<'a> {
        let is_statement = self.level == Level::Statement;
        match word_at(self.part, 0) {
            b"at" if is_statement => Around {
                moment: word_at(self.part, 1),
                part: b"",
                ..self
            },
            b"commit" | b"abort" | b"round" if is_statement => Around {
                is_late: true,
                part: b"",
                ..self
            },
            _ => Around { part: b"", ..self },
        }
    }

    /// In the braces of a set.
    fn in_set(self, words: SetWords<'a>, token: Token) -> Around<'a> {
        Around {
            level: Level::Set,
            set: SetText::new(words, token.line, token.to),
            part: b"",
            ..self
        }
    }

    /// In the braces of a list.
    fn in_list(self, token: Token) -> Around<'a> {
        Around {
            level: Level::Elements,
            list_line: token.line,
            part: b"",
            ..self
        }
    }

    /// After the first `{` of a statement.
    fn first_opened(self, token: Token) -> Around<'a> {
        let begun = Around {
            statement: self.part,
            is_in_table: false,
            is_in_set: false,
            ..self
        };
        if word_at(self.part, 0) == b"table".as_slice() {
            return Around {
                level: Level::Table,
                is_in_table: true,
                table_line: token.line,
                part: b"",
                ..begun
            };
        }
        let words = set_named(self.part, 2);
        if word_at(self.part, 1) == b"set".as_slice() {
            return begun.in_set(words, token);
        }
        Around {
            set: SetText::new(words, token.line, token.to),
            ..begun.in_list(token)
        }
    }

    /// After a `{`.
    fn opened(self, token: Token) -> Around<'a> {
        match self.level {
            Level::Statement => self.first_opened(token),
            Level::Table => self.in_set(
                SetWords {
                    name: word_at(self.part, 1),
                    ..set_named(self.statement, 1)
                },
                token,
            ),
            Level::Set | Level::Elements => Around {
                is_in_set: true,
                ..self.in_list(token)
            },
        }
    }

    /// After a `}`.
    fn closed(self, token: Token) -> Around<'a> {
        let ended = Around { part: b"", ..self }.joined(token);
        match self.level {
            Level::Elements if self.is_in_set => Around {
                level: Level::Set,
                ..ended
            },
            Level::Set => Around {
                level: if self.is_in_table {
                    Level::Table
                } else {
                    Level::Statement
                },
                set: self.set.up_to(self.text, token.from),
                ..ended
            },
            _ => Around {
                level: Level::Statement,
                ..ended
            },
        }
    }

    /// What surrounds the token after this one.
    fn after(self, token: Token) -> Around<'a> {
        let bytes = bytes_of(self.text, token);
        let is_in_list = self.level == Level::Elements;
        match bytes {
            b"{" => self.opened(token),
            b"}" => self.closed(token),
            b"," if is_in_list => Around { part: b"", ..self },
            _ if !is_separator(token.kind, bytes) => self.joined(token),
            _ if is_in_list => self,
            _ => self.separated(),
        }
    }

    /// The bytes before a place.
    pub(crate) fn before(&self, at: u64) -> &'a [u8] {
        self.text.get(..at as usize).unwrap_or(b"")
    }

    /// The bytes from a place on.
    pub(crate) fn behind(&self, at: u64) -> &'a [u8] {
        self.text.get(at as usize..).unwrap_or(b"")
    }

    /// The bytes from a place up to the end of its statement, item or element: a `,`, `;`, `}` or line feed.
    pub(crate) fn rest_from(&self, at: u64) -> &'a [u8] {
        let rest = self.behind(at);
        let end = rest
            .iter()
            .position(|byte| matches!(*byte, b',' | b';' | b'}' | b'\n'));
        without_blanks_behind(match end {
            Some(end) => &rest[..end],
            None => rest,
        })
    }

    /// The line of the innermost open `{`.
    pub(crate) fn open_line(&self) -> u64 {
        match self.level {
            Level::Statement => 0,
            Level::Table => self.table_line,
            Level::Set => self.set.line,
            Level::Elements => self.list_line,
        }
    }

    /// The set whose items or elements these are, up to a place of the script. It is as one of these
    /// sets if it was declared before.
    pub(crate) fn declared(&self, at: u64, sets: &[SetText<'a>]) -> SetText<'a> {
        let is_inside = self.level == Level::Set || self.is_in_set;
        if is_inside {
            return self.set.up_to(self.text, at);
        }
        declared_as(sets, self.set.words).unwrap_or(self.set)
    }
}

/// The set of this family, table and name.
pub(crate) fn declared_as<'a>(sets: &[SetText<'a>], words: SetWords<'_>) -> Option<SetText<'a>> {
    for set in sets {
        if is_same(set.words, words) {
            return Some(*set);
        }
    }
    None
}

/// What surrounds the token at a place of a script. Adds the sets that are declared before it.
pub(crate) fn around_of<'a>(
    text: &'a [u8],
    at: u64,
    sets: &mut Vec<SetText<'a>>,
) -> Result<Around<'a>, Memory> {
    let mut around = Around::new(text);
    for token in Tokens::new(text) {
        if token.from >= at {
            return Ok(around);
        }
        let next = around.after(token);
        let is_end = around.level == Level::Set && bytes_of(text, token) == b"}".as_slice();
        if is_end && sets.push(next.set).is_err() {
            return Err(Memory);
        }
        around = next;
    }
    Ok(around)
}
