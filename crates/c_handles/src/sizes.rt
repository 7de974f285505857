//! How many bytes the structs have that C and Rattle both read. `tests/c/layout.py` compares them with those of `pipapo.h`.
use crate::answer::Answer;
use crate::declared_set::DeclaredSet;
use crate::element_shape::ElementShape;
use crate::handle::Handle;
use crate::script_fault::ScriptFault;
use crate::shapes::SetShape;
use std::mem::size_of;

const _: () = prove!(size_of::<Handle>() == 8);

const _: () = prove!(size_of::<SetShape>() == 208);

const _: () = prove!(size_of::<Answer>() == 16);

const _: () = prove!(size_of::<ScriptFault>() == 40);

const _: () = prove!(size_of::<ElementShape>() == 32);

const _: () = prove!(size_of::<DeclaredSet>() == 352);
