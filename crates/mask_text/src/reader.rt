//! A reader takes the lines of a text one by one.

ghost use Rattle.std.specs.Prelude.{◌≡◌, ℕ, ◌+◌, ◌<◌, ◌≤◌, ◌↔◌, [], true, false, nat_le, length, is_some, Some, None, IsTrue, IsSome, IfErr, OnOk};
ghost use Rattle.mask_circuit.specs.Netlist.{value_count, only_inputs};
ghost use Rattle.mask_circuit.specs.Labels.{is_name, is_taken, IsLabelled, with_plain_groups};
ghost use Rattle.mask_text.specs.Lines.{words, words_of, is_passed_over};
ghost use Rattle.mask_text.specs.Says.{line_of, HasNameInForm};
ghost use Rattle.mask_circuit.specs.Text.{End};
ghost use Rattle.mask_text.specs.declared.section.Section.TheVariants.{Plain, Ended};
ghost use Rattle.mask_text.specs.declared.errors.Stop.TheVariants.{NoMemory};
ghost use Rattle.mask_text.specs.Faults as faults;
ghost use Rattle.mask_text.specs.Readers.{draft_of, labelled_of, IsReading, GivesDraft, GivesStep};

use crate::errors::{Reason, Stop};
use crate::lines::bare;
use crate::names::name_of;
use crate::said::Said;
use crate::sayings::{is_passed_over, meaning};
use crate::section::Section;
use mask_circuit::{Builder, Gate, Group, Labelled, MAX_GROUPS, MAX_OUTPUTS, MAX_VALUES};
use std::alloc::Global;

/// The circuit and the groups that the lines so far stand for.
#[derive(Drop)]
pub struct Reader {
    section: Section,
    builder: Builder,
    inputs: Vec<Group>,
    outputs: Vec<Group>,
    // How many outputs the groups stand for.
    promised: u32,
}

#[tactic(auto, unfolding(mask_circuit::specs::Labels::is_taken))]
fn has_name(groups: &[Group], name: &[u8]) -> bool
    ensures { result ≡ is_taken name.now groups.now }
{
    groups
        .iter()
        .any(|group| group.name.as_str().as_bytes() == name)
}

#[tactic(auto, unfolding(crate::specs::Faults::are_below))]
fn are_below(gate: Gate, count: u32) -> bool
    ensures { result ≡ faults.are_below count gate }
{
    match gate {
        Gate::Zero | Gate::One => true,
        Gate::Xor(u, v) | Gate::And(u, v) => u < count && v < count,
        Gate::Not(u) | Gate::Ref(u) => u < count,
    }
}

fn fits(count: u32, more: u32, limit: u32) -> bool
    ensures { result ≡ nat_le (count + more) limit }
{
    u64::from(count) + u64::from(more) <= u64::from(limit)
}

impl Reader {
    /// A reader before the first line.
    pub fn new(alloc: Global) -> Reader
        ensures draft { draft_of result ≡ faults.at_start }
        ensures reading { IsReading result }
    {
        Reader {
            section: Section::Start,
            builder: Builder::new(alloc, 0).unwrap(),
            inputs: Vec::new(alloc),
            outputs: Vec::new(alloc),
            promised: 0,
        }
    }

    fn is_full(&self) -> bool
        requires { IsReading self.now }
        ensures { result ≡ faults.is_full (labelled_of self.now) }
    {
        self.promised <= self.builder.output_count()
    }

    // Whether the line may stand here.
    #[tactic(auto, unfolding(crate::specs::Faults::goes_on))]
    fn may_follow(&self, said: Said) -> bool
        requires { IsReading self.now }
        ensures { result ≡ is_some (faults.goes_on self.now.section (labelled_of self.now) (line_of said.entry)) }
    {
        match self.section {
            Section::Start => matches!(said, Said::First | Said::Second),
            Section::Size => matches!(said, Said::Inputs(_)),
            Section::Plain => match said {
                Said::Makes(_) => self.builder.output_count() == 0,
                Said::Out(_) | Said::End => true,
                _ => false,
            },
            Section::Named => match said {
                Said::Input(_, _) => !self.builder.has_gates() && self.outputs.is_empty(),
                Said::Makes(_) => self.outputs.is_empty(),
                Said::Output(_, _) | Said::End => self.is_full(),
                Said::Out(_) => !self.is_full(),
                _ => false,
            },
            Section::Ended => false,
        }
    }

    #[tactic(auto, unfolding(crate::specs::Faults::has_taken_name))]
    fn has_taken_name(&self, said: Said) -> bool
        ensures { result ≡ faults.has_taken_name (labelled_of self.now) (line_of said.entry) }
    {
        match said {
            Said::Input(name, _) => has_name(&self.inputs, name),
            Said::Output(name, _) => has_name(&self.outputs, name),
            _ => false,
        }
    }

    #[tactic(auto, unfolding(crate::specs::Faults::is_known))]
    fn is_known(&self, said: Said) -> bool
        ensures { result ≡ faults.is_known (labelled_of self.now) (line_of said.entry) }
    {
        match said {
            Said::Makes(gate) => are_below(gate, self.builder.values()),
            Said::Out(u) => u < self.builder.values(),
            _ => true,
        }
    }

    #[tactic(auto, unfolding(crate::specs::Faults::is_within))]
    fn is_within(&self, said: Said) -> bool
        requires { IsReading self.now }
        ensures { result ≡ faults.is_within (labelled_of self.now) (line_of said.entry) }
    {
        match said {
            Said::Inputs(n) => n <= MAX_VALUES,
            Said::Input(_, n) => {
                self.inputs.len() < MAX_GROUPS && fits(self.builder.inputs(), n, MAX_VALUES)
            }
            Said::Makes(_) => self.builder.values() < MAX_VALUES,
            Said::Output(_, n) => {
                self.outputs.len() < MAX_GROUPS && fits(self.promised, n, MAX_OUTPUTS)
            }
            Said::Out(_) => self.builder.output_count() < MAX_OUTPUTS,
            _ => true,
        }
    }

    // What is wrong with a line that may stand here.
    #[tactic(auto, unfolding(crate::specs::Faults::wrong))]
    fn wrong(&self, said: Said) -> Option<Reason>
        requires { IsReading self.now }
        ensures { result ≡ faults.wrong (labelled_of self.now) (line_of said.entry) }
    {
        if self.has_taken_name(said) {
            Some(Reason::BadName)
        } else if !self.is_known(said) {
            Some(Reason::UnknownValue)
        } else if !self.is_within(said) {
            Some(Reason::TooManyValues)
        } else {
            None
        }
    }

    #[tactic(auto, unfolding(crate::specs::Faults::are_below))]
    fn add_gate(&mut self, gate: Gate) -> Result<(), Stop>
        requires known { faults.are_below (value_count self.old.builder) gate ≡ true }
        ensures added { OnOk result (labelled_of self.new ≡ faults.more_gate (labelled_of self.old) gate) }
        ensures section { OnOk result (self.new.section ≡ self.old.section) }
        ensures promised { OnOk result (self.new.promised ≡ self.old.promised) }
        ensures refused { IfErr result (λ e. e ≡ NoMemory) }
    {
        match gate {
            Gate::Zero => self.builder.zero()?,
            Gate::One => self.builder.one()?,
            Gate::Xor(u, v) => self.builder.xor(u, v)?,
            Gate::Not(u) => self.builder.not(u)?,
            Gate::And(u, v) => self.builder.and(u, v)?,
            Gate::Ref(u) => self.builder.refresh(u)?,
        };
        Ok(())
    }

    fn add_out(&mut self, u: u32) -> Result<(), Stop>
        requires known { u < value_count self.old.builder }
        ensures added { OnOk result (labelled_of self.new ≡ faults.more_out (labelled_of self.old) u) }
        ensures section { OnOk result (self.new.section ≡ self.old.section) }
        ensures promised { OnOk result (self.new.promised ≡ self.old.promised) }
        ensures refused { IfErr result (λ e. e ≡ NoMemory) }
    {
        self.builder.out(u)?;
        Ok(())
    }

    // No gate and no output stands yet, so a new builder has all that the old one has.
    fn add_input(&mut self, alloc: Global, name: &[u8], size: u32) -> Result<(), Stop>
        requires named { is_name name.now ≡ true }
        requires no_gates { self.old.builder.gates ≡ [] }
        requires no_outputs { self.old.builder.outputs ≡ [] }
        requires few { self.old.builder.inputs + size ≤ 1_000_000 }
        ensures added { OnOk result (labelled_of self.new ≡ faults.more_inputs (labelled_of self.old) name.now size) }
        ensures section { OnOk result (self.new.section ≡ self.old.section) }
        ensures promised { OnOk result (self.new.promised ≡ self.old.promised) }
        ensures refused { IfErr result (λ e. e ≡ NoMemory) }
    {
        let builder = Builder::new(alloc, self.builder.inputs() + size)?;
        self.inputs.push(Group {
            name: name_of(name),
            size,
        })?;
        self.builder = builder;
        Ok(())
    }

    fn add_output(&mut self, name: &[u8], size: u32) -> Result<(), Stop>
        requires named { is_name name.now ≡ true }
        requires few { self.old.promised + size ≤ 1_000_000 }
        ensures added { OnOk result (labelled_of self.new ≡ faults.more_outputs (labelled_of self.old) name.now size) }
        ensures section { OnOk result (self.new.section ≡ self.old.section) }
        ensures promised { OnOk result (self.new.promised ≡ self.old.promised + size) }
        ensures refused { IfErr result (λ e. e ≡ NoMemory) }
    {
        self.outputs.push(Group {
            name: name_of(name),
            size,
        })?;
        self.promised += size;
        Ok(())
    }

    fn set_inputs(&mut self, alloc: Global, count: u32) -> Result<(), Stop>
        requires few { count ≤ 1_000_000 }
        requires reading { IsReading self.old }
        ensures { GivesDraft result self.new (Some (faults.at Plain (record (labelled_of self.old) { circuit = only_inputs count }))) }
    {
        self.builder = Builder::new(alloc, count)?;
        self.section = Section::Plain;
        Ok(())
    }

    // Version 1 has no groups of its own.
    fn end_plain(&mut self, alloc: Global) -> Result<(), Stop>
        ensures { GivesDraft result self.new (Some (faults.at Ended (with_plain_groups self.old.builder))) }
    {
        let inputs = Group::covering(alloc, "x", self.builder.inputs())?;
        let count = self.builder.output_count();
        let outputs = Group::covering(alloc, "y", count)?;
        self.inputs = inputs;
        self.outputs = outputs;
        self.promised = count;
        self.section = Section::Ended;
        Ok(())
    }

    #[tactic(auto, unfolding(crate::specs::Faults::goes_on))]
    fn end(&mut self, alloc: Global) -> Result<(), Stop>
        requires reading { IsReading self.old }
        requires follows { IsSome (faults.goes_on self.old.section (labelled_of self.old) End) }
        ensures { GivesDraft result self.new (faults.goes_on self.old.section (labelled_of self.old) End) }
    {
        if let Section::Plain = self.section {
            return self.end_plain(alloc);
        }
        self.section = Section::Ended;
        Ok(())
    }

    fn apply(&mut self, alloc: Global, said: Said) -> Result<(), Stop>
        requires reading { IsReading self.old }
        requires follows { IsSome (faults.goes_on self.old.section (labelled_of self.old) (line_of said)) }
        requires right { faults.wrong (labelled_of self.old) (line_of said) ≡ None }
        requires in_form { HasNameInForm (line_of said) }
        ensures { GivesDraft result self.new (faults.goes_on self.old.section (labelled_of self.old) (line_of said.entry)) }
    {
        match said {
            Said::First => self.section = Section::Size,
            Said::Second => self.section = Section::Named,
            Said::Inputs(n) => self.set_inputs(alloc, n)?,
            Said::Input(name, n) => self.add_input(alloc, name, n)?,
            Said::Makes(gate) => self.add_gate(gate)?,
            Said::Output(name, n) => self.add_output(name, n)?,
            Said::Out(u) => self.add_out(u)?,
            Said::End => self.end(alloc)?,
        }
        Ok(())
    }

    fn misplaced(&self) -> Reason
        ensures { result ≡ faults.misplaced self.now.section }
    {
        match self.section {
            Section::Start | Section::Size => Reason::BadHeader,
            Section::Plain | Section::Named => Reason::BadLine,
            Section::Ended => Reason::AfterEnd,
        }
    }

    fn take(&mut self, alloc: Global, line: &[u8]) -> Result<(), Stop>
        requires reading { IsReading self.old }
        requires counts { is_passed_over (words_of line.now) ≡ false }
        ensures { GivesStep result self.new (faults.step (draft_of self.old) (words_of line.now)) }
    {
        let Some(said) = meaning(line) else {
            return Err(Stop::Faulty(self.misplaced()));
        };
        if !self.may_follow(said) {
            return Err(Stop::Faulty(self.misplaced()));
        }
        if let Some(reason) = self.wrong(said) {
            return Err(Stop::Faulty(reason));
        }
        self.apply(alloc, said)
    }

    /// Takes the next line of the text.
    pub fn line(&mut self, alloc: Global, line: &[u8]) -> Result<(), Stop>
        requires { IsReading self.old }
        ensures { GivesStep result self.new (faults.step (draft_of self.old) (words line.now)) }
    {
        let line = bare(line);
        if is_passed_over(line) {
            return Ok(());
        }
        self.take(alloc, line)
    }

    /// Whether `end` was read.
    pub fn has_ended(&self) -> bool
        ensures { IsTrue result ↔ (self.now.section ≡ Ended) }
    {
        self.section == Section::Ended
    }

    /// The labelled circuit.
    pub fn finish(self) -> Labelled
        requires { IsLabelled (labelled_of self) }
        ensures { result ≡ labelled_of self }
    {
        Labelled::new(self.builder.finish(), self.inputs, self.outputs)
    }
}
