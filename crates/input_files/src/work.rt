ghost use Rattle.std.specs.Prelude.{◌≡◌, List, ℕ, [], IfOk, IfErr, OnOk};
ghost use Rattle.command_words.specs.Words.{IsCommand};
ghost use Rattle.command_words.specs.WordForms.{plain};
ghost use Rattle.input_files.specs.Inputs.{inputs, names_of};
ghost use Rattle.input_files.specs.Noted.{StopsTelling};
ghost use Rattle.input_files.specs.Reads.{HasRead};
ghost use Rattle.input_files.specs.Seen.{AreAllSkips, KeepsAll, ruleset_names, seen};
ghost use Rattle.input_files.specs.Works.{IsWork, IsDoable};

use crate::fault::FileFault;
use crate::files::{
    RulesFile, capture_of, keys_of, plan_of, rules_of, script_of, second_script_of,
};
use crate::rulesets::{SetsRead, sets_of};
use crate::seen::{Rulesets, Skips};
use command_words::{Command, Task};
use pcap_keys::{Frames, Plan};
use pip_base::{Notes, Shelf};
use ruleset_sets::Sieved;
use set_model::{Keys, Script};
use std::alloc::Global;

/// What a command works on: what its files mean, and the options of its words.
#[derive(Drop)]
pub enum Work<'a> {
    /// A run of a script beside packets, which so many packet threads look up.
    Run {
        script: Script,
        keys: Keys,
        threads: u32,
        /// Whether a refused change is skipped instead of failing its transaction. The same holds
        /// below.
        keep_going: bool,
    },
    /// A listing of the last generation.
    List {
        script: Script,
        keep_going: bool,
    },
    /// The tables of the last generation.
    Dump {
        script: Script,
        keep_going: bool,
    },
    /// The figures of the last generation.
    Stat {
        script: Script,
        keep_going: bool,
    },
    /// A generated run of so many elements and packets. So many packet threads look the packets up.
    Drill {
        seed: u64,
        count: u32,
        threads: u32,
    },
    /// A run of a script beside packets. So many packet threads look them up, and chains of rules judge
    /// them.
    Judge {
        script: Script,
        rules: RulesFile<'a>,
        keys: Keys,
        threads: u32,
        keep_going: bool,
    },
    /// A run of a script beside the packets that a plan takes from a capture's frames. So many packet
    /// threads look them up, and chains of rules judge them.
    JudgeCapture {
        script: Script,
        rules: RulesFile<'a>,
        plan: Plan,
        frames: Frames,
        threads: u32,
        keep_going: bool,
    },
    /// A run of a script beside the packets that a plan takes from a capture's frames. So many packet
    /// threads look them up.
    Capture {
        script: Script,
        plan: Plan,
        frames: Frames,
        threads: u32,
        keep_going: bool,
    },
    /// A run of a script by several control threads: one for each section after the first.
    Desk {
        script: Script,
        keep_going: bool,
    },
    /// The answer to a key in the last generation.
    Get {
        script: Script,
        /// The words of the key.
        key: &'a [String],
        /// The moment in milliseconds. Without one it is the script's last.
        moment: Option<u64>,
        keep_going: bool,
    },
    /// An explanation of the answers to packets.
    Explain {
        script: Script,
        keys: Keys,
        keep_going: bool,
    },
    /// A comparison of two scripts, each with the name of its file.
    Compare {
        first: &'a str,
        first_script: Script,
        second: &'a str,
        second_script: Script,
        keep_going: bool,
    },
    /// The sets of a ruleset.
    Sets {
        /// The name of its file, and its text.
        file: &'a str,
        whole: Vec<u8>,
        /// What is kept of it, which is a script, and the notes on the rest.
        sieved: Sieved,
    },
}

/// Reads the files of a command, in the order of its words. It opens a file only after the one before
/// is read and accepted. Of a ruleset it reads what is kept. The rest is added to `skipped`, which is empty
/// before. What is read of the first script is put into `script_text`.
///
/// # Errors
///
/// Why the first file that failed did so. A note about it is printed, unless memory runs out.
pub fn work_of<'a, F: Shelf, N: Notes>(
    alloc: Global,
    shelf: &mut F,
    notes: &mut N,
    rulesets: Rulesets<'_>,
    skipped: &mut Skips,
    script_text: &mut Vec<u8>,
    command: Command<'a>,
) -> Result<Work<'a>, FileFault<'a>>
    requires nothing { F.asked shelf.old ≡ [] }
    requires fresh { KeepsAll skipped.old }
    requires threads { (words : List (List ℕ)) × IsCommand words (plain command) }
    ensures work { IfOk result (IsWork (seen (ruleset_names rulesets.entry) (F.told shelf.old)) (plain command.entry)) }
    ensures doable { IfOk result IsDoable }
    ensures all { OnOk result (HasRead (record { told = seen (ruleset_names rulesets.entry) (F.told shelf.old); asked = F.asked shelf.new; faults_before = F.faults shelf.old; faults_now = F.faults shelf.new; picked_before = F.is_picked shelf.old; picked_now = F.is_picked shelf.new; left = F.left shelf.new }) (plain command.entry) × AreAllSkips (F.told shelf.old) (ruleset_names rulesets.entry) (names_of (inputs (plain command.entry))) skipped.new.lines.bytes.items skipped.new.leaves_sets_out) }
    ensures stops { IfErr result (StopsTelling (record { told = seen (ruleset_names rulesets.entry) (F.told shelf.old); asked = F.asked shelf.new; faults_before = F.faults shelf.old; faults_now = F.faults shelf.new; picked_before = F.is_picked shelf.old; picked_now = F.is_picked shelf.new; left = F.left shelf.new }) (plain command.entry) (N.told notes.old) (N.told notes.new)) }
    ensures silent { OnOk result (N.told notes.new ≡ N.told notes.old) }
{
    match command {
        Command::Script {
            script,
            task,
            keep_going,
        } => {
            let script = match script_of(
                alloc,
                shelf,
                notes,
                rulesets,
                skipped,
                script_text,
                script,
            ) {
                Ok(script) => script,
                Err(fault) => return Err(fault),
            };
            match task {
                Task::Run { keys, threads } => match keys_of(
                    alloc,
                    shelf,
                    notes,
                    rulesets,
                    skipped,
                    &script.schema,
                    keys,
                ) {
                    Ok(keys) => Ok(Work::Run {
                        script,
                        keys,
                        threads,
                        keep_going,
                    }),
                    Err(fault) => Err(fault),
                },
                Task::List => Ok(Work::List { script, keep_going }),
                Task::Dump => Ok(Work::Dump { script, keep_going }),
                Task::Stat => Ok(Work::Stat { script, keep_going }),
                Task::Desk => Ok(Work::Desk { script, keep_going }),
                Task::Get { key, moment } => Ok(Work::Get {
                    script,
                    key,
                    moment,
                    keep_going,
                }),
                Task::Judge {
                    rules,
                    keys,
                    threads,
                } => {
                    let file = match rules_of(
                        alloc,
                        shelf,
                        notes,
                        rulesets,
                        skipped,
                        &script.schema,
                        rules,
                    ) {
                        Ok(file) => file,
                        Err(fault) => return Err(fault),
                    };
                    match keys_of(alloc, shelf, notes, rulesets, skipped, &script.schema, keys) {
                        Ok(keys) => Ok(Work::Judge {
                            script,
                            rules: file,
                            keys,
                            threads,
                            keep_going,
                        }),
                        Err(fault) => Err(fault),
                    }
                }
                Task::Explain { keys } => {
                    match keys_of(alloc, shelf, notes, rulesets, skipped, &script.schema, keys) {
                        Ok(keys) => Ok(Work::Explain {
                            script,
                            keys,
                            keep_going,
                        }),
                        Err(fault) => Err(fault),
                    }
                }
                Task::Capture {
                    plan,
                    packets,
                    threads,
                } => {
                    let plan = match plan_of(
                        alloc,
                        shelf,
                        notes,
                        rulesets,
                        skipped,
                        &script.schema,
                        plan,
                    ) {
                        Ok(plan) => plan,
                        Err(fault) => return Err(fault),
                    };
                    match capture_of(alloc, shelf, notes, rulesets, skipped, packets) {
                        Ok(frames) => Ok(Work::Capture {
                            script,
                            plan,
                            frames,
                            threads,
                            keep_going,
                        }),
                        Err(fault) => Err(fault),
                    }
                }
                Task::JudgeCapture {
                    rules,
                    plan,
                    packets,
                    threads,
                } => {
                    let file = match rules_of(
                        alloc,
                        shelf,
                        notes,
                        rulesets,
                        skipped,
                        &script.schema,
                        rules,
                    ) {
                        Ok(file) => file,
                        Err(fault) => return Err(fault),
                    };
                    let plan = match plan_of(
                        alloc,
                        shelf,
                        notes,
                        rulesets,
                        skipped,
                        &script.schema,
                        plan,
                    ) {
                        Ok(plan) => plan,
                        Err(fault) => return Err(fault),
                    };
                    match capture_of(alloc, shelf, notes, rulesets, skipped, packets) {
                        Ok(frames) => Ok(Work::JudgeCapture {
                            script,
                            rules: file,
                            plan,
                            frames,
                            threads,
                            keep_going,
                        }),
                        Err(fault) => Err(fault),
                    }
                }
            }
        }
        Command::Drill {
            seed,
            count,
            threads,
        } => Ok(Work::Drill {
            seed,
            count,
            threads,
        }),
        Command::Compare {
            first,
            second,
            keep_going,
        } => {
            let first_script = match script_of(
                alloc,
                shelf,
                notes,
                rulesets,
                skipped,
                script_text,
                first,
            ) {
                Ok(script) => script,
                Err(fault) => return Err(fault),
            };
            match second_script_of(alloc, shelf, notes, rulesets, skipped, second) {
                Ok(second_script) => Ok(Work::Compare {
                    first,
                    first_script,
                    second,
                    second_script,
                    keep_going,
                }),
                Err(fault) => Err(fault),
            }
        }
        Command::Sets { file } => match sets_of(alloc, shelf, notes, rulesets, skipped, file) {
            Ok(SetsRead { whole, sieved }) => Ok(Work::Sets {
                file,
                whole,
                sieved,
            }),
            Err(fault) => Err(fault),
        },
    }
}
