ghost use Rattle.std.specs.Prelude.{◌<◌};

use crate::random::Random;
use set_model::Memory;
use std::alloc::Global;

/// A script that is being written.
#[derive(Drop)]
pub(crate) struct Draft {
    text: String,
    random: Random,
    alloc: Global,
}

/// The fields of a set, its flags and its elements in a script.
#[derive(Clone, Copy)]
struct Shape {
    /// Which of the kinds its fields have: field f has kind `first_kind` + f, modulo 6.
    first_kind: u64,
    fields: u64,
    timed: bool,
    disjoint: bool,
}

impl Draft {
    fn put(&mut self, piece: &str) -> Result<(), Memory> {
        self.text.push_str(piece)?;
        Ok(())
    }

    fn put_number(&mut self, front: &str, n: u64) -> Result<(), Memory> {
        self.put(front)?;
        let digits = format!(in self.alloc; "{n}")?;
        self.put(digits.as_str())
    }

    /// An interval of the kind of this number.
    fn put_interval(&mut self, kind: u64) -> Result<(), Memory> {
        let n = self.random.two_digits();
        let more = self.random.below(100);
        match kind {
            0 => self.put_address(n),
            1 => self.put_long_address(n),
            2 => self.put_station(n),
            3 => self.put_protocol(n),
            4 => {
                let low = n * 100;
                self.put_number("", low)?;
                self.put_number("-", low + more)
            }
            _ => {
                self.put_number("0x", n)?;
                self.put_number("-0x1", n)
            }
        }
    }

    fn put_address(&mut self, n: u64) -> Result<(), Memory> {
        match self.random.below(3) {
            0 => self.put_number("10.0.0.", n),
            1 => {
                self.put_number("10.", n)?;
                self.put(".0.0/16")
            }
            _ => {
                self.put_number("10.0.1.", n)?;
                self.put_number("-10.0.1.1", n)
            }
        }
    }

    fn put_long_address(&mut self, n: u64) -> Result<(), Memory> {
        match self.random.below(3) {
            0 => self.put_number("2001:db8::", n),
            1 => {
                self.put_number("2001:db8:", n)?;
                self.put("::/48")
            }
            _ => {
                self.put_number("2001:db8:1::", n)?;
                self.put_number("-2001:db8:1::1", n)
            }
        }
    }

    fn put_station(&mut self, n: u64) -> Result<(), Memory> {
        self.put_number("0:0:5e:0:53:", n)?;
        self.put_number("-00:00:5e:00:54:", n)
    }

    fn put_protocol(&mut self, n: u64) -> Result<(), Memory> {
        match self.random.below(3) {
            0 => self.put("tcp"),
            1 => self.put_number("", n),
            _ => {
                self.put_number("", n)?;
                self.put_number("-1", n)
            }
        }
    }

    fn put_kind(&mut self, kind: u64) -> Result<(), Memory> {
        match kind {
            0 => self.put("ipv4_addr"),
            1 => self.put("ipv6_addr"),
            2 => self.put("ether_addr"),
            3 => self.put("inet_proto"),
            4 => self.put("inet_service"),
            _ => self.put("mark"),
        }
    }

    fn put_type(&mut self, shape: Shape) -> Result<(), Memory> {
        self.put("type ")?;
        for field in 0..shape.fields {
            if field > 0 {
                self.put(" . ")?;
            }
            self.put_kind(shape.first_kind.wrapping_add(field) % 6)?;
        }
        self.put(" ; ")
    }

    /// The items of a set after its type.
    fn put_items(&mut self, shape: Shape) -> Result<(), Memory> {
        self.put("flags interval")?;
        if shape.disjoint {
            self.put(",disjoint")?;
        }
        if shape.timed {
            self.put(",timeout")?;
            if self.random.once_in(2) {
                let seconds = self.random_time();
                self.put_number(" ; timeout ", seconds)?;
            }
        }
        if self.random.once_in(3) {
            self.put(" ; size 1000")?;
        }
        if self.random.once_in(3) {
            self.put(" ; policy memory ; gc-interval 10s ; comment \"a set\"")?;
        }
        self.put(" ; }\n")
    }

    /// Seconds of a life that doesn't end before the script does.
    fn random_time(&mut self) -> u64 {
        1_000 + self.random.below(1_000_000)
    }

    fn put_place(&mut self, verb: &str, set: u32) -> Result<(), Memory> {
        self.put(verb)?;
        self.put(if set % 3 == 0 { " inet" } else { " ip6" })?;
        self.put_number(" t", u64::from(set % 2))?;
        self.put_number(" s", u64::from(set))
    }

    fn put_options(&mut self, shape: Shape) -> Result<(), Memory> {
        if shape.timed && self.random.once_in(2) {
            let seconds = self.random_time();
            self.put_number(" timeout ", seconds)?;
            if self.random.once_in(2) {
                self.put_number(" expires ", seconds / 2 + 500)?;
            }
        } else if shape.timed && self.random.once_in(4) {
            self.put(" timeout never")?;
        }
        if self.random.once_in(3) {
            self.put(" comment \"one of \u{fc}\"")?;
        }
        Ok(())
    }

    fn put_element(&mut self, shape: Shape) -> Result<(), Memory> {
        for field in 0..shape.fields {
            if field > 0 {
                self.put(" . ")?;
            }
            self.put_interval(shape.first_kind.wrapping_add(field) % 6)?;
        }
        self.put_options(shape)
    }

    fn put_elements(&mut self, set: u32, shape: Shape) -> Result<(), Memory> {
        self.put_place("add element", set)?;
        self.put(" { ")?;
        for element in 0..self.random.below(12) {
            if element > 0 {
                self.put(",\n  ")?;
            }
            self.put_element(shape)?;
        }
        self.put(" }\n")
    }

    fn shape(&mut self) -> Shape {
        Shape {
            first_kind: self.random.below(6),
            fields: 1 + self.random.below(3),
            timed: self.random.once_in(2),
            disjoint: self.random.once_in(3),
        }
    }

    fn put_set(&mut self, set: u32, shape: Shape) -> Result<(), Memory> {
        self.put_place("add set", set)?;
        self.put(" { ")?;
        self.put_type(shape)?;
        self.put_items(shape)
    }

    fn put_sets(&mut self) -> Result<(), Memory> {
        for set in 0..self.random.below(5) as u32 {
            let shape = self.shape();
            self.put_set(set, shape)?;
            self.put_elements(set, shape)?;
        }
        self.put("at 250000\n")
    }
}

/// A script of up to four sets, in two tables of two families, with up to eleven elements each. Elements that
/// overlap may be among them.
pub(crate) fn script(alloc: Global, seed: u64) -> Result<String, Memory> {
    let mut draft = Draft {
        text: String::new(alloc),
        random: Random::new(seed.wrapping_mul(0x9E37_79B9_7F4A_7C15)),
        alloc,
    };
    draft.put_sets()?;
    let Draft { text, .. } = draft;
    Ok(text)
}
