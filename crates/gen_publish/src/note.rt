//! Notes that one thread hands to another.
use crate::berth::Berth;
use std::marker::Model;

/// The generations that its giver had seen. It takes no memory.
#[derive(Drop)]
pub struct Note {
    pub(crate) inner: gen_slots::Note<Berth>,
}

impl Model for Note {
    ghost use Rattle.gen_publish.specs.Publish.{Noted};

    ghost Value = { Noted };

    ghost view = { λ n. record { of = n.inner.of; list = n.inner.list } };
}
