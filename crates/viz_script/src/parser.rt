//! What was read of a script so far.

ghost use Rattle.std.specs.Prelude.{◌≡◌, ◌<◌, ◌-◌, false, List, [], map, flat_map, length, get_or};
ghost use Rattle.std.specs.Prelude.{set, vec_len, option_map, None, IfOk, Ok};
ghost use Rattle.viz_script.specs.declared.parser.OpenStep.{OpenStep};
ghost use Rattle.viz_script.specs.Orders.{seen};
ghost use Rattle.viz_script.specs.Lines.{Line, begins_phase, begins_batch, ends_batch, asks};
ghost use Rattle.viz_script.specs.Batches.{some_open};
ghost use Rattle.viz_script.specs.Script.{stepped, steps_of};
ghost use Rattle.viz_script.specs.Steps.Heard.{heard_result, IsActor, HasActor};
ghost use Rattle.viz_script.specs.Steps.Parser.{KeepsRead, IsParsing, Goes, in_order, with_order};
ghost use Rattle.viz_script.specs.Steps.Parser.{step_in, batch_of, edits_of, IsAdded};

use crate::line::{ACTORS, Said};
use crate::order::{Order, Step};
use std::alloc::{AllocError, Global};
use viz_batches::Batch;
use viz_network::Edit;
use viz_words::{ScriptRefusal, ScriptStop};

/// The number of phases.
const PHASES: u32 = 64;

/// The greatest number of edits of a batch.
const BATCH: usize = 64;

/// A step, which has no order while its batch is open.
#[derive(Debug, Drop)]
pub struct OpenStep {
    pub phase: u32,
    pub actor: u32,
    pub line: u32,
    pub order: Option<Order>,
}

/// An open batch: the index of its step, and its edits so far.
#[derive(Debug, Drop)]
pub struct OpenBatch {
    pub index: usize,
    pub edits: Vec<Edit>,
}

/// What was read so far: the phase, the steps, and the open batch of each actor, of the first one
/// first.
#[derive(Debug, Drop)]
pub struct Parser {
    alloc: Global,
    phase: u32,
    steps: Vec<OpenStep>,
    batches: [Option<OpenBatch>; ACTORS],
}

fn refused(line: u32, refusal: ScriptRefusal) -> ScriptStop
    ensures { result ≡ ScriptStop.Refused line refusal }
{
    ScriptStop::Refused { line, refusal }
}

/// How many edits the open batch of an actor has, if it has one.
fn edit_count(batches: &[Option<OpenBatch>; ACTORS], actor: u32) -> Option<usize>
    requires actor { IsActor actor }
    ensures count { result ≡ option_map length (edits_of (batch_of actor batches.now)) }
{
    match &batches[actor as usize - 1] {
        Some(batch) => Some(batch.edits.len()),
        None => None,
    }
}

/// Takes the open batch of an actor, if it has one.
fn take_batch(batches: &mut [Option<OpenBatch>; ACTORS], actor: u32) -> Option<OpenBatch>
    requires actor { IsActor actor }
    ensures taken { result ≡ batch_of actor batches.old }
    ensures left { batches.new ≡ set batches.old (actor - 1) None }
{
    batches[actor as usize - 1].take()
}

/// Puts an edit behind those of the open batch of an actor.
fn push_edit(
    batches: &mut [Option<OpenBatch>; ACTORS],
    actor: u32,
    edit: Edit,
) -> Result<(), AllocError>
    requires actor { IsActor actor }
    ensures { IfOk result (λ done. IsAdded actor edit batches.old batches.new) }
{
    if let Some(batch) = &mut batches[actor as usize - 1] {
        batch.edits.push(edit)?;
    }
    Ok(())
}

/// Gives a step its order.
fn fill(steps: &mut Vec<OpenStep>, index: usize, order: Order)
    requires within { index < vec_len steps.old }
    ensures { (d : OpenStep) → steps.new.items
        ≡ set steps.old.items index (with_order (get_or steps.old.items index d) order) }
{
    steps[index].order = Some(order);
}

/// Those steps that have an order.
fn steps_in(alloc: Global, all: Vec<OpenStep>) -> Result<Vec<Step>, AllocError>
    ensures { IfOk result (λ steps. map stepped steps.items ≡ flat_map step_in all.items) }
{
    let mut steps = Vec::with_capacity(alloc, all.len())?;
    for step in all {
        let OpenStep {
            phase,
            actor,
            line,
            order,
        } = step;
        if let Some(order) = order {
            steps.push(Step {
                phase,
                actor,
                line,
                order,
            })?;
        }
    }
    Ok(steps)
}

impl Parser {
    /// Nothing is read yet. There is room for so many steps.
    pub fn new(alloc: Global, room: usize) -> Result<Parser, AllocError>
        ensures read { IfOk result (λ r. KeepsRead [] r) }
    {
        Ok(Parser {
            alloc,
            phase: 1,
            steps: Vec::with_capacity(alloc, room)?,
            batches: [None, None, None, None, None, None, None, None],
        })
    }

    /// Whether a batch is open.
    pub fn has_open(&self) -> bool
        ensures open { (earlier : List Line) → KeepsRead earlier self.now
            → result ≡ some_open earlier }
    {
        self.batches.iter().any(|batch| batch.is_some())
    }

    /// The next phase begins.
    fn begin_phase(&mut self, line: u32) -> Result<(), ScriptStop>
        requires read { IsParsing self.old }
        ensures { Goes line result self.old self.new (Ok begins_phase) }
    {
        if self.phase == PHASES {
            return Err(refused(line, ScriptRefusal::Phase));
        }
        if self.has_open() {
            return Err(refused(line, ScriptRefusal::Batch));
        }
        self.phase += 1;
        Ok(())
    }

    /// A batch of the actor begins.
    fn begin(&mut self, line: u32, actor: u32) -> Result<(), ScriptStop>
        requires read { IsParsing self.old }
        requires actor { IsActor actor }
        ensures { Goes line result self.old self.new (Ok (begins_batch actor)) }
    {
        if edit_count(&self.batches, actor).is_some() {
            return Err(refused(line, ScriptRefusal::Batch));
        }
        self.batches[actor as usize - 1] = Some(OpenBatch {
            index: self.steps.len(),
            edits: Vec::new(self.alloc),
        });
        self.steps.push(OpenStep {
            phase: self.phase,
            actor,
            line,
            order: None,
        })?;
        Ok(())
    }

    /// The batch of the actor ends.
    fn end(&mut self, line: u32, actor: u32) -> Result<(), ScriptStop>
        requires read { IsParsing self.old }
        requires actor { IsActor actor }
        ensures { Goes line result self.old self.new (Ok (ends_batch actor)) }
    {
        let Some(OpenBatch { index, edits }) = take_batch(&mut self.batches, actor) else {
            return Err(refused(line, ScriptRefusal::Batch));
        };
        let Some(batch) = Batch::new(edits) else {
            return Err(refused(line, ScriptRefusal::Batch));
        };
        fill(&mut self.steps, index, Order::DoAll(batch));
        Ok(())
    }

    /// The actor asks for a command, alone or in its open batch.
    fn ask(&mut self, line: u32, actor: u32, order: Order) -> Result<(), ScriptStop>
        requires read { IsParsing self.old }
        requires actor { IsActor actor }
        ensures { Goes line result self.old self.new (Ok (asks actor (seen order))) }
    {
        match (edit_count(&self.batches, actor), order) {
            (None, order) => {
                self.steps.push(OpenStep {
                    phase: self.phase,
                    actor,
                    line,
                    order: Some(order),
                })?;
                Ok(())
            }
            (Some(count), Order::Do(edit)) if count < BATCH => {
                push_edit(&mut self.batches, actor, edit)?;
                Ok(())
            }
            _ => Err(refused(line, ScriptRefusal::Batch)),
        }
    }

    /// Takes what the next line says, which has this number.
    ///
    /// # Errors
    ///
    /// The refusal of the line: its own, or Phase or Batch by what stands in front of it; and want
    /// of memory.
    pub fn take(&mut self, line: u32, said: Result<Said, ScriptRefusal>) -> Result<(), ScriptStop>
        requires read { IsParsing self.old }
        requires actor { IfOk said HasActor }
        ensures goes { Goes line result self.old self.new (heard_result said) }
    {
        match said {
            Err(refusal) => Err(refused(line, refusal)),
            Ok(Said::Nothing) => Ok(()),
            Ok(Said::Phase) => self.begin_phase(line),
            Ok(Said::Begin { actor }) => self.begin(line, actor),
            Ok(Said::End { actor }) => self.end(line, actor),
            Ok(Said::Order { actor, order }) => self.ask(line, actor, order),
        }
    }

    /// The steps, where no batch is open.
    pub fn into_steps(self) -> Result<Vec<Step>, AllocError>
        ensures steps { (earlier : List Line) → KeepsRead earlier self → some_open earlier ≡ false
            → IfOk result (λ steps. map stepped steps.items ≡ steps_of (in_order earlier [])) }
    {
        let Parser { alloc, steps, .. } = self;
        steps_in(alloc, steps)
    }
}
