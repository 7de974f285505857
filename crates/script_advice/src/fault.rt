//! A bad token of a script, and what surrounds it.
use crate::around::{Around, SetText, declared_as};
use field_advice::SetWords;

/// A bad token of a script, and what surrounds it.
#[derive(Clone, Copy)]
pub(crate) struct Fault<'a> {
    /// The place of the token.
    pub(crate) at: u64,
    /// The token's bytes in its line. A line feed and the end of the text have none.
    pub(crate) token: &'a [u8],
    pub(crate) around: Around<'a>,
    /// The sets that are declared before the token.
    pub(crate) sets: &'a [SetText<'a>],
}

impl<'a> Fault<'a> {
    /// The set whose items or elements surround the token, as it is declared.
    pub(crate) fn set(&self) -> SetText<'a> {
        self.around.declared(self.at, self.sets)
    }

    /// The declaration of a set before the token.
    pub(crate) fn declared_as(&self, words: SetWords<'_>) -> Option<SetText<'a>> {
        declared_as(self.sets, words)
    }
}
