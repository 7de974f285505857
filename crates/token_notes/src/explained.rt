//! What a note says of a bad token, in two parts that grow together.
use crate::near::nearest;
use crate::note::Note;
use crate::words::is_one_of;
use set_model::Memory;
use std::alloc::Global;
use text_pieces::{Piece, append_pieces};

/// What is wrong with a token or a word, and what to do.
#[derive(Drop)]
pub struct Explained {
    /// Where the texts get their memory.
    pub alloc: Global,
    /// What is wrong, in one line without its end.
    pub wrong: Note,
    /// What to do, in one line without its end.
    pub help: Note,
}

impl Note {
    /// Adds pieces of text, one after another.
    ///
    /// # Errors
    ///
    /// `Memory` if memory runs out.
    pub fn pieces(&mut self, alloc: Global, pieces: &[Piece]) -> Result<(), Memory> {
        let mut text = Vec::new(alloc);
        append_pieces(pieces, &mut text)?;
        self.say(&text)
    }
}

impl Explained {
    /// Nothing is said yet. It takes no memory.
    pub fn new(alloc: Global) -> Explained {
        Explained {
            alloc,
            wrong: Note::new(alloc),
            help: Note::new(alloc),
        }
    }

    /// Says what is wrong, after the token, and what to do.
    ///
    /// # Errors
    ///
    /// `Memory` if memory runs out.
    pub fn say(&mut self, wrong: &[u8], help: &[u8]) -> Result<(), Memory> {
        self.wrong.say(wrong)?;
        self.help.say(help)
    }

    /// Says what is wrong, after the token, and what to do, each in pieces.
    ///
    /// # Errors
    ///
    /// `Memory` if memory runs out.
    pub fn tell(&mut self, wrong: &[Piece], help: &[Piece]) -> Result<(), Memory> {
        self.wrong.pieces(self.alloc, wrong)?;
        self.help.pieces(self.alloc, help)
    }

    /// Says what is wrong, and which word was probably meant.
    ///
    /// # Errors
    ///
    /// `Memory` if memory runs out.
    pub fn ask(&mut self, wrong: &[u8], meant: &[u8]) -> Result<(), Memory> {
        self.tell(
            &[Piece::Word(wrong)],
            &[
                Piece::Word(b"did you mean '"),
                Piece::Word(meant),
                Piece::Word(b"'?"),
            ],
        )
    }

    /// Says what is wrong, and which of these words was probably meant. If none is near, or if the word is
    /// one of them, says what may come there.
    ///
    /// # Errors
    ///
    /// `Memory` if memory runs out.
    pub fn suggest(
        &mut self,
        wrong: &[u8],
        word: &[u8],
        words: &[&[u8]],
        help: &[u8],
    ) -> Result<(), Memory> {
        if is_one_of(word, words) {
            return self.say(wrong, help);
        }
        match nearest(self.alloc, word, words)? {
            Some(other) => self.ask(wrong, other),
            None => self.say(wrong, help),
        }
    }
}
