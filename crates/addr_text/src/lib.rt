//! Reads and writes addresses, ports, protocols, marks, intervals and times as text.
//!
//!     text                       kind      means                              written back
//!     10.0.0.5                   Ipv4      167772165                          10.0.0.5
//!     192.168.1.0-192.168.2.1    Ipv4      3232235776 up to 3232236033        192.168.1.0-192.168.2.1
//!     192.168.1.7/24             Ipv4      3232235776 up to 3232236031        192.168.1.0/24
//!     2048                       Service   2048                               2048
//!     1h30m                      a time    5,400,000 ms                       1h30m
//!     90                         a time    90,000 ms                          1m30s
//!
//! [`read_value`], [`read_interval`] and [`read_time`] accept exactly the texts of docs/formats.md, and
//! each text means one thing. So `10.0.0.05` is refused, since an octet has no leading zero. A prefix
//! drops its host bits, as the third line shows.
//!
//! [`write_value`], [`write_interval`] and [`write_time`] append the text of a value, an interval and a
//! time. Reading this text gives the same thing again, as long as a time is no longer than the longest
//! that is read. If memory runs out, a writer leaves the text as it was.
//!
//! **Definitions:** `specs/Values.antt`, `Intervals.antt`, `Times.antt`, `Numbers.antt` and
//! `Protocols.antt` say what each text means. `ValuesRead.antt`, `IntervalsRead.antt` and
//! `TimesRead.antt` compute the same. `Written.antt` is what is written. **Theory:** docs/formats.md,
//! "Values, intervals and times (`addr_text`)".
#![tactic(auto)]

mod append;
mod interval;
mod interval_text;
mod number;
mod protocol;
mod time;
mod time_text;
mod value;
mod value_text;

pub use interval::{interval_of_law, one_interval_law, read_interval};
pub use interval_text::{block_law, write_interval, written_interval_law};
pub use protocol::protocol_names_law;
pub use time::{one_time_law, read_time, time_of_law};
pub use time_text::{write_time, written_time_law};
pub use value::{BadValue, one_value_law, read_number, read_value, value_bits_law, value_of_law};
pub use value_text::{write_value, written_value_law};
