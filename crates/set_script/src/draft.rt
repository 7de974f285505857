ghost use Rattle.std.specs.Prelude.{◌≡◌, ◌-◌, length, slice_get, OnOk, IfOk};
ghost use Rattle.set_model.specs.Runnable.{is_open};
ghost use Rattle.set_script.specs.Changes.{empty, declaration, with_commit, commit, abort, round, finished_script};

use crate::clock::{Moment, Time};
use crate::declared::Declared;
use set_model::{
    Comment, Family, Kinds, Listed, Memory, Name, Script, Sections, SetDecl, Step, Steps, Verb,
};
use std::alloc::Global;
use std::mem;

/// What has been read of a script.
#[derive(Drop)]
pub struct Draft {
    /// The declared sets.
    pub schema: Declared,
    /// The sections that have ended.
    pub sections: Sections,
    /// The steps of the section at this place.
    pub steps: Steps,
    /// The moment at this place.
    pub moment: Moment,
    /// Whether a statement has been read.
    pub begun: bool,
    /// Whether a `commit`, an `abort` or a `round` has been read. After it, no set may be declared.
    pub late: bool,
}

/// The set that the elements of a list change, and how.
#[derive(Drop)]
pub struct Target {
    /// The set's place among the declared sets.
    pub set: u32,
    /// How each element changes the set.
    pub verb: Verb,
    /// The moment of the changes.
    pub now: Moment,
}

/// A set that is being declared, and which of its items have been read.
#[derive(Drop)]
pub struct Declaration {
    /// The changes that its item `elements` makes.
    pub target: Target,
    /// The set as read so far.
    pub decl: SetDecl,
    /// Whether the item `flags` has been read.
    pub flags: bool,
    /// Whether the flag `timeout` has been read. The item `timeout` sets this flag, too.
    pub timeout_flag: bool,
    /// Whether the item `gc-interval` has been read.
    pub gc_interval: bool,
    /// Whether the item `policy` has been read.
    pub policy: bool,
    /// Whether the item `comment` has been read.
    pub comment: bool,
    /// Whether the item `elements` has been read. It is the last item.
    pub elements: bool,
}

/// The options that have been read of an element.
#[derive(Drop)]
pub struct Options {
    /// How long the element lives.
    pub timeout: Option<Time>,
    /// How long the element still lives.
    pub expires: Option<Time>,
    /// Its comment.
    pub comment: Option<Comment>,
}

/// Whether the last of these steps is a change, so that the section's transaction is open and has a
/// change.
fn has_open_change(steps: &[Step]) -> bool
    ensures { result ≡ is_open steps.now }
{
    match steps.last() {
        Some(Step::Change { .. } | Step::Flush { .. }) => true,
        Some(Step::Commit { .. } | Step::Abort) | None => false,
    }
}

/// Ends a section, and commits its open transaction if that has a change.
fn end_section(steps: &mut Steps, now: u64) -> Result<(), Memory>
    ensures { OnOk result (steps.new ≡ with_commit now steps.old) }
{
    if has_open_change(steps.as_slice()) {
        steps.push(Step::Commit { now })?;
    }
    Ok(())
}

impl Draft {
    /// A script of which nothing has been read.
    pub fn new(alloc: Global) -> Self
        ensures { result ≡ empty }
    {
        Draft {
            schema: Declared::new(alloc),
            sections: Listed::new(alloc),
            steps: Listed::new(alloc),
            moment: Moment::new(0),
            begun: false,
            late: false,
        }
    }

    /// Commits the open transaction, even if it has no change.
    pub fn commit(&mut self) -> Result<(), Memory>
        ensures { OnOk result (self.new ≡ commit self.old) }
    {
        let now = self.moment.ms();
        self.steps.push(Step::Commit { now })?;
        self.late = true;
        Ok(())
    }

    /// Drops the open changes.
    pub fn abort(&mut self) -> Result<(), Memory>
        ensures { OnOk result (self.new ≡ abort self.old) }
    {
        self.steps.push(Step::Abort)?;
        self.late = true;
        Ok(())
    }

    /// Ends the section, and begins the next one.
    pub fn round(&mut self, alloc: Global) -> Result<(), Memory>
        ensures { OnOk result (self.new ≡ round self.old) }
    {
        end_section(&mut self.steps, self.moment.ms())?;
        let steps = mem::replace(&mut self.steps, Listed::new(alloc));
        self.sections.push(steps)?;
        self.late = true;
        Ok(())
    }

    /// The script. Its last section ends here.
    pub fn finish(self) -> Result<Script, Memory>
        ensures { IfOk result (λ s. s ≡ finished_script self) }
    {
        let Draft {
            schema,
            mut sections,
            mut steps,
            moment,
            ..
        } = self;
        end_section(&mut steps, moment.ms())?;
        sections.push(steps)?;
        Ok(Script {
            schema: schema.into_schema(),
            sections,
            last: moment.ms(),
        })
    }
}

fn owned(alloc: Global, bytes: &[u8]) -> Result<Name, Memory>
    ensures { IfOk result (λ name. name ≡ bytes.now) }
{
    Ok(Listed::from_vec(Vec::from_slice(alloc, bytes)?))
}

/// Begins the declaration of a set whose kinds have been read.
pub fn begin_declaration(
    alloc: Global,
    d: &Draft,
    family: Family,
    table: &[u8],
    name: &[u8],
    kinds: Kinds,
) -> Result<Declaration, Memory>
    ensures { IfOk result (λ b. b ≡ declaration d.now family table.now name.now kinds) }
{
    Ok(Declaration {
        target: Target {
            set: d.schema.len(),
            verb: Verb::Add,
            now: d.moment,
        },
        decl: SetDecl {
            family,
            table: owned(alloc, table)?,
            name: owned(alloc, name)?,
            kinds,
            interval: false,
            timed: false,
            disjoint: false,
            timeout: None,
            size: None,
        },
        flags: false,
        timeout_flag: false,
        gc_interval: false,
        policy: false,
        comment: false,
        elements: false,
    })
}
