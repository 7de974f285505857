//! The texts that the program prints about itself.

/// The page of `--version`: the name and the version.
pub const VERSION: &str = "pipapo 0.2.0\n";

/// The page of `help`: all commands, options and statuses.
pub const PROGRAM: &str = "\
pipapo runs nftables set scripts and looks packets up in the sets.

usage: pipapo run SCRIPT KEYS [--threads N] [--keep-going] [--sets] [--elements]
       pipapo list SCRIPT [--keep-going] [--sets] [--json]
       pipapo dump SCRIPT [--keep-going] [--sets]
       pipapo drill SEED COUNT [--threads N]
       pipapo judge SCRIPT RULES KEYS [--threads N] [--keep-going] [--sets]
       pipapo judge SCRIPT RULES PLAN PCAP [--threads N] [--keep-going] [--sets]
       pipapo capture SCRIPT PLAN PCAP [--threads N] [--keep-going] [--sets] [--elements]
       pipapo desk SCRIPT [--keep-going] [--sets]
       pipapo get [--at MOMENT] [--keep-going] [--sets] SCRIPT [FAMILY] TABLE SET VALUE . VALUE ..
       pipapo explain SCRIPT KEYS [--keep-going] [--sets]
       pipapo compare SCRIPT1 SCRIPT2 [--keep-going] [--sets]
       pipapo stat SCRIPT [--keep-going] [--sets]
       pipapo sets RULESET
       pipapo help [COMMAND], pipapo [COMMAND] --help, pipapo [COMMAND] -h
       pipapo --version, pipapo -V

commands:
  to ask about sets:
    get      runs SCRIPT, and prints the element that holds a key, with the line that added it
    explain  runs SCRIPT, and prints which elements hold each packet's key, or come nearest
    compare  runs two scripts, and prints for each set whether they decide alike on every key
    stat     runs SCRIPT, and prints how large its sets and their tables are
  to run a script:
    run      runs SCRIPT beside the packets of KEYS, and writes the transcript
    judge    as run or capture, but each packet is judged by the chains of RULES
    capture  as run, but the packets are those that PLAN takes from the capture PCAP
    desk     runs the sections of SCRIPT by several control threads, and lists the result
    drill    runs a workload drawn from SEED, and writes one line on it
  to convert a script:
    list     runs SCRIPT, and lists its last generation as a script
    dump     runs SCRIPT, and writes the tables of its last generation
    sets     writes the sets of RULESET as a script, and names what it skips

SCRIPT is in a subset of the language of nft(8), and KEYS has a packet's key in each line.
RULES has chains of rules over the sets, PLAN says which fields of a frame are the keys of a
set, and PCAP is a capture in pcap or pcapng. RULESET is a ruleset as nft(8) lists it, or a
file for nft(8). One of them may be -, the standard input.

options, in any order among the names:
  --threads N    packet threads beside the control: 1 to 16, and else 1
  --keep-going   a refused change is skipped, and doesn't fail its transaction
  --sets         each script is a ruleset: its sets are read, and the rest is named
  --elements     a packet's line in a run or a capture has the element that was found
  --json         list writes the sets as JSON, which nft -j -f loads
  --at MOMENT    the moment of a get, in milliseconds; the options of get come before SCRIPT
A value may also follow its option in one word, as --threads=4.

statuses:
  0   the whole output was written, and no change was refused
  1   the whole output was written, and a change was refused, or a get or an explain found no
      element, or a compare found a difference, or a compare or sets left a set out
  2   the words are no command
  3   the script isn't in its grammar, or the sets of a ruleset aren't
  4   the key file isn't in its grammar
  5   a file can't be opened or read
  6   the standard output failed
  7   out of memory
  8   a file has more than 67,108,864 bytes
  9   the rules file isn't in its grammar
  10  the capture isn't in its form
  11  the plan isn't in its grammar
  12  the script has too many sections for a desk
  13  the words of a get are no key
";

/// The page of `run`.
pub const RUN: &str = "\
usage: pipapo run SCRIPT KEYS [--threads N] [--keep-going] [--sets] [--elements]

Runs SCRIPT beside the packets of the key file KEYS, and writes the transcript: what became
of every transaction, each refused change with its line, and a verdict for each packet. One
of both names may be -, the standard input.

An example, to be pasted into a shell:

  echo 'add set ip t web { type ipv4_addr . inet_service; flags interval; }
  add element ip t web { 192.0.2.0/24 . 80-443 }' > web.nft
  echo 'ip t web 192.0.2.7 . 443
  ip t web 192.0.2.7 . 22' > web.keys
  pipapo run web.nft web.keys

It prints the commit, and a line for each packet. The first packet gets element 0:

  commit generation 1 purged 0
  packet 0 thread 0 generation 1 element 0
  packet 1 thread 0 generation 1 none

purged is the number of elements that the commit left out because they had expired. With
--elements the first packet's line ends with the element, and the line that added it:

  packet 0 thread 0 generation 1 element 0 { 192.0.2.0/24 . 80-443 } line 2

options, in any order among the names:
  --threads N    packet threads beside the control: 1 to 16, and else 1
  --keep-going   a refused change is skipped, and doesn't fail its transaction
  --sets         each script is a ruleset: its sets are read, and the rest is named
  --elements     a packet's line has the element that was found, and the line that added it

statuses: 0 done, 1 done with a refused change, 3 SCRIPT isn't in its grammar, 4 KEYS isn't,
5 a file can't be read, 6 the standard output failed, 7 out of memory, 8 a file is too large
";

/// The page of `list`.
pub const LIST: &str = "\
usage: pipapo list SCRIPT [--keep-going] [--sets] [--json]

Runs SCRIPT, and writes what became of its transactions as comments, and then the sets of the
last generation as a script. SCRIPT may be -, the standard input.

options, before or after the name:
  --keep-going   a refused change is skipped, and doesn't fail its transaction
  --sets         each script is a ruleset: its sets are read, and the rest is named
  --json         the sets are written as JSON, which nft -j -f loads, and no comments

statuses: 0 done, 1 done with a refused change, 3 SCRIPT isn't in its grammar, 5 it can't be
read, 6 the standard output failed, 7 out of memory, 8 SCRIPT is too large
";

/// The page of `dump`.
pub const DUMP: &str = "\
usage: pipapo dump SCRIPT [--keep-going] [--sets]

Runs SCRIPT, and writes what became of its transactions as comments, and then the tables of
the last generation: rows of bits, mappings and ends. SCRIPT may be -, the standard input.

options, before or after the name:
  --keep-going   a refused change is skipped, and doesn't fail its transaction
  --sets         each script is a ruleset: its sets are read, and the rest is named

statuses: 0 done, 1 done with a refused change, 3 SCRIPT isn't in its grammar, 5 it can't be
read, 6 the standard output failed, 7 out of memory, 8 SCRIPT is too large
";

/// The page of `drill`.
pub const DRILL: &str = "\
usage: pipapo drill SEED COUNT [--threads N]

Makes COUNT elements (1 to 20000) and as many packets from SEED (0 to 18446744073709551615),
looks the packets up, and writes one line on it: the same for every number of threads.

options, in any order among the numbers:
  --threads N    packet threads: 1 to 16, and else 1

statuses: 0 done, 6 the standard output failed, 7 out of memory
";

/// The page of `judge`.
pub const JUDGE: &str = "\
usage: pipapo judge SCRIPT RULES KEYS [--threads N] [--keep-going] [--sets]
       pipapo judge SCRIPT RULES PLAN PCAP [--threads N] [--keep-going] [--sets]

Runs SCRIPT beside packets, and writes the transcript, in which each packet has the rule of the
rules file RULES that decides on it, or RULES' policy. The packets are those of the key file
KEYS, or those that PLAN takes from the capture PCAP, as in capture. One of the names may be -,
the standard input.

RULES has one to four chains, each in braces, and then the policy. A rule has up to four tests, and
then accept, drop, return or jump CHAIN. A test is in or out, and the family, table and name of a
set: in if the set has an element for the packet, out if it has none. A packet meets neither if the
types of the set aren't those of the packet's own set; the standard error names each test that no
packet can meet for this reason. A jump leads to an earlier chain. Every packet begins at the last
chain:

  chain block { in ip t bad drop }
  chain main { jump block; in ip t ok out ip t late accept }
  policy drop

options, in any order among the names:
  --threads N    packet threads beside the control: 1 to 16, and else 1
  --keep-going   a refused change is skipped, and doesn't fail its transaction
  --sets         each script is a ruleset: its sets are read, and the rest is named

statuses: 0 done, 1 done with a refused change, 3 SCRIPT isn't in its grammar, 4 KEYS isn't,
9 RULES isn't, 11 PLAN isn't, 10 PCAP isn't in its form, 5 a file can't be read, 6 the standard
output failed, 7 out of memory, 8 a file is too large
";

/// The page of `capture`.
pub const CAPTURE: &str = "\
usage: pipapo capture SCRIPT PLAN PCAP [--threads N] [--keep-going] [--sets] [--elements]

Runs SCRIPT beside packets of the capture PCAP, and writes the transcript. PCAP is a file of
pcap or pcapng, with frames of Ethernet, raw IP or Linux's cooked capture; each line of PLAN
names a set and the fields of a frame that are its key. One of the three names may be -, the
standard input.

options, in any order among the names:
  --threads N    packet threads beside the control: 1 to 16, and else 1
  --keep-going   a refused change is skipped, and doesn't fail its transaction
  --sets         each script is a ruleset: its sets are read, and the rest is named
  --elements     a packet's line has the element that was found, and the line that added it

statuses: 0 done, 1 done with a refused change, 3 SCRIPT isn't in its grammar, 11 PLAN isn't,
10 PCAP isn't in its form, 5 a file can't be read, 6 the standard output failed, 7 out of
memory, 8 a file is too large
";

/// The page of `desk`.
pub const DESK: &str = "\
usage: pipapo desk SCRIPT [--keep-going] [--sets]

Runs the first section of SCRIPT alone, and then each of the others, 16 at most, by a control
thread of its own: all submit their transactions to one control, and one that was prepared
against an older generation is submitted again. Writes what became of the transactions, in the
order in which they were done, as comments, and then the sets of the last generation as a
script. In a comment the word clerk is a control thread, with its number: clerk 2 runs the third
section. SCRIPT may be -, the standard input.

options, before or after the name:
  --keep-going   a refused change is skipped, and doesn't fail its transaction
  --sets         each script is a ruleset: its sets are read, and the rest is named

statuses: 0 done, 1 done with a refused change, 3 SCRIPT isn't in its grammar, 12 it has more
than 17 sections, 5 it can't be read, 6 the standard output failed, 7 out of memory, 8 SCRIPT
is too large
";

/// The page of `get`.
pub const GET: &str = "\
usage: pipapo get [--at MOMENT] [--keep-going] [--sets] SCRIPT [FAMILY] TABLE SET VALUE . VALUE ..

Runs SCRIPT, and looks a key up in the last generation of its set. The words after SCRIPT are
one line of a key file, without braces. They may be one word in quotes. Prints the earliest live
element that holds the key, as list writes it, and the line that added it; or none. Refused changes
come first, as comments. SCRIPT may be -, the standard input.

An example, for the set allowed of the table ip filter:

  pipapo get allow.nft ip filter allowed 192.0.2.7 . 443

options, before SCRIPT:
  --at MOMENT    the moment of the lookup in milliseconds, at most 1000000000000000; without it
                 the script's last moment
  --keep-going   a refused change is skipped, and doesn't fail its transaction
  --sets         each script is a ruleset: its sets are read, and the rest is named

statuses: 0 an element holds the key and no change was refused, 1 no element does or a change
was refused, 3 SCRIPT isn't in its grammar, 13 the words are no key, 5 SCRIPT can't be read, 6 the
standard output failed, 7 out of memory, 8 SCRIPT is too large
";

/// The page of `explain`.
pub const EXPLAIN: &str = "\
usage: pipapo explain SCRIPT KEYS [--keep-going] [--sets]

Runs SCRIPT, and explains the answer to each packet of the key file KEYS. A packet is looked up at
its own moment, in the last generation of its section. The answer is the earliest live element that
holds the key. Prints it with its line and the time until it expires. Then come the later elements
that hold the key: the first eight, and how many more there are.

If no live element holds the key, prints how many live elements hold each value of the key. Then
comes the nearest element, the earliest of those that hold the most values, and the values that it
doesn't hold. If an expired element holds the key, it is named with the moment of its expiry. Refused
changes come before all packets, as comments. One of both names may be -, the standard input.

An example, to be pasted into a shell:

  echo 'add set ip t web { type ipv4_addr . inet_service; flags interval; }
  add element ip t web { 192.0.2.0/24 . 80-443 }' > web.nft
  echo 'ip t web 192.0.2.7 . 443
  ip t web 192.0.2.7 . 22' > web.keys
  pipapo explain web.nft web.keys

It prints:

  ip t web 192.0.2.7 . 443
      element 0: 192.0.2.0/24 . 80-443 (line 2)
  ip t web 192.0.2.7 . 22
      no element
      192.0.2.7 is in 1 of 1 element, 22 in 0
      nearest: element 0: 192.0.2.0/24 . 80-443 (line 2), but for 22

options, in any order among the names:
  --keep-going   a refused change is skipped, and doesn't fail its transaction
  --sets         each script is a ruleset: its sets are read, and the rest is named

statuses: 0 each packet has an element and no change was refused, 1 a packet has none or a change
was refused, 3 SCRIPT isn't in its grammar, 4 KEYS isn't, 5 a file can't be read, 6 the standard
output failed, 7 out of memory, 8 a file is too large
";

/// The page of `compare`.
pub const COMPARE: &str = "\
usage: pipapo compare SCRIPT1 SCRIPT2 [--keep-going] [--sets]

Runs both scripts, and compares their sets at their last generations and moments. Two sets of one
family, table and name are the same if for each key both have an element or neither does. Prints a
line for each set: same, or differs with the least key that only one of them has, the element that
holds it and its line. If each has a key that the other lacks, there are two lines. Then come the
sets that only one script has. Refused changes come first, as comments. One script may be -, the
standard input.

An element that expires after its script's last moment still counts. A change of a transaction
that fails doesn't: its script's sets are those of the generation before.

A set that --sets leaves out isn't compared, so the status is 1. The standard error names it.

options, before or after the names:
  --keep-going   a refused change is skipped, and doesn't fail its transaction
  --sets         each script is a ruleset: its sets are read, and the rest is named

statuses: 0 all sets are the same and no change was refused, 1 sets differ, a set was left out or a
change was refused, 3 a script isn't in its grammar, 5 a script can't be read, 6 the standard output
failed, 7 out of memory, 8 a script is too large
";

/// The page of `stat`.
pub const STAT: &str = "\
usage: pipapo stat SCRIPT [--keep-going] [--sets]

Runs SCRIPT, and writes what became of its transactions as comments, and then the figures of the
last generation. Each set has a line with its elements at the script's last moment: how many there
are, how many of them are expired and will leave with a commit, how many expire later, and the time
until the next of these does. Each field has a line with the bits of a group of its table, its rules
and the bytes of its buckets. The bytes of all fields of the set come last. SCRIPT may be -, the
standard input.

An example, to be pasted into a shell:

  echo 'add set ip t s { type ipv4_addr . inet_service; flags interval; }
  add element ip t s { 10.0.0.5 . 1024, 192.168.1.0-192.168.2.1 . 2048 }' > s.nft
  pipapo stat s.nft

It prints:

  # commit generation 1 purged 0
  set ip t s elements 2 expired 0 expiring 0 next none
  field 0 width 8 rules 3 bytes 8192
  field 1 width 8 rules 2 bytes 4096
  total bytes 12288

options, before or after the name:
  --keep-going   a refused change is skipped, and doesn't fail its transaction
  --sets         each script is a ruleset: its sets are read, and the rest is named

statuses: 0 done, 1 done with a refused change, 3 SCRIPT isn't in its grammar, 5 it can't be
read, 6 the standard output failed, 7 out of memory, 8 SCRIPT is too large
";

/// The page of `sets`.
pub const SETS: &str = "\
usage: pipapo sets RULESET

Writes the sets of RULESET as a script, with their elements. RULESET is what nft list ruleset, list
table, list sets or list set prints, or any file of tables and statements for nft(8). It may be -,
the standard input. In the output everything else is blank, so each set keeps its lines and columns.

What isn't kept is named on the standard error, with its place and the reason: chains, maps and all
other objects; statements on them; and sets that can't be read, as those with auto-merge. Counters
and the flags constant and dynamic are dropped from a set, since no verdict depends on them.

An example, to be pasted into a shell:

  nft list ruleset > rules.nft
  pipapo sets rules.nft > sets.nft
  pipapo get sets.nft inet filter blocked 192.0.2.7

statuses: 0 all sets were written, 1 a set was left out, 3 a brace isn't closed or a set isn't in its
grammar, 5 RULESET can't be read, 6 the standard output failed, 7 out of memory, 8 RULESET is too
large
";
