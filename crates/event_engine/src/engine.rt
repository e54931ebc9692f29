//! The engine as it is turned, and the whole run by one call.
ghost use Rattle.std.specs.Prelude.{◌≡◌, ◌<◌, ◌≤◌, ◌+◌, ◌*◌, ℕ, length, map, true, IfOk};
ghost use Rattle.cycle_rules.specs.Bind.{row_of, IsBoundBody};
ghost use Rattle.cycle_rules.specs.CycleBound.{cycle_bound, turn_bound};
ghost use Rattle.cycle_rules.specs.Row.{input};
ghost use Rattle.cycle_rules.specs.Run.{IsRun, IsRunOf, total_of};
ghost use Rattle.engine_state.specs.InTurn.{IssuesInTurn};

use crate::next::{first_turn, next_turn};
use cycle_rules::{Bound, Pipe, Steps, Timeline, drive};
use engine_steps::Pipeline;
use machine_model::Machine;
use mca_fixed::{MOST_ROWS, NoMemory};
use std::alloc::Global;
use std::sync::ledger::Ledger;

/// The engine that turns only in cycles in which something can change.
///
/// It has recorded every dispatch, issue and retirement of the run up to the cycle of its last turn, and no
/// others. No event falls between that cycle and the one that `next_time` names. It has at most
/// `turn_bound` turns, whatever the latencies. None of its calls but `make` and `run` takes memory.
#[derive(Drop)]
pub struct EventEngine<'a, M: Machine> {
    pipeline: Pipeline<'a, M>,
    // All cycles below this one are done.
    from: u64,
    // The cycle of the next turn; none where all rows have retired.
    next: Option<u64>,
}

impl<'a, M: Machine> EventEngine<'a, M> {
    ghost use Rattle.event_engine.specs.Sound.{input_of, IsSound, left_of, is_finished};

    /// The run of a body on a machine, repeated `iterations` times, 1 or more, before its first cycle. The
    /// body is bound by the machine and not empty, and the run has at most 1,048,576 rows. It takes all the
    /// memory of the run.
    ///
    /// # Errors
    ///
    /// Want of memory.
    pub fn make(
        alloc: Global,
        machine: &'a M,
        body: &'a [Bound],
        iterations: u32,
    ) -> Result<EventEngine<'a, M>, NoMemory>
        requires bound { IsBoundBody (M.meaning machine.now) body.now }
        requires some { 0 < length body.now }
        requires iterations { 1 ≤ iterations }
        requires rows { iterations * length body.now ≤ MOST_ROWS }
        ensures run { IfOk result (λ e. input_of M.meaning e
            ≡ input (M.meaning machine.entry.now) (map row_of body.entry.now) iterations) }
        ensures sound { IfOk result (λ e. IsSound M.meaning M.Mask.holds e) }
        ensures left { IfOk result (λ e. left_of M.meaning e ≤ turn_bound (input_of M.meaning e)) }
    {
        let pipeline = Pipeline::make(alloc, machine, body, iterations)?;
        let next = first_turn(&pipeline);
        Ok(EventEngine {
            pipeline,
            from: 0,
            next,
        })
    }

    /// The run, when it is done: the one table of times that the rules give. All rows have retired within
    /// the cycle bound of the run, and those that share a buffer of one entry have issued in program order.
    pub fn finish(self) -> Timeline
        requires sound { IsSound M.meaning M.Mask.holds self }
        requires done { is_finished self ≡ true }
        ensures run { IsRunOf (input_of M.meaning self.entry) result.rows }
        ensures bound { total_of result.rows ≤ cycle_bound (input_of M.meaning self.entry) }
        ensures order { IssuesInTurn (input_of M.meaning self.entry) result.rows }
    {
        self.pipeline.finish()
    }

    /// The run of a body on a machine, repeated `iterations` times, 1 or more: the one table of times that
    /// the rules give. The body is bound by the machine and not empty, and the run has at most 1,048,576
    /// rows. All rows retire within the cycle bound of the run, and those that share a buffer of one entry
    /// issue in program order.
    ///
    /// `steps` counts the turns. There are at most `turn_bound` of them: 1, and for each row 8 and as many
    /// as it has uses, however long the latencies are.
    ///
    /// # Errors
    ///
    /// Want of memory.
    pub fn run<L: Ledger>(
        alloc: Global,
        machine: &'a M,
        body: &'a [Bound],
        iterations: u32,
        steps: &mut Steps<L>,
    ) -> Result<Timeline, NoMemory>
        requires bound { IsBoundBody (M.meaning machine.now) body.now }
        requires some { 0 < length body.now }
        requires iterations { 1 ≤ iterations }
        requires rows { iterations * length body.now ≤ MOST_ROWS }
        ensures run { IfOk result (λ t. IsRun (M.meaning machine.entry.now)
            (map row_of body.entry.now) iterations t.rows) }
        ensures bound { IfOk result (λ t. total_of t.rows ≤ cycle_bound
            (input (M.meaning machine.entry.now) (map row_of body.entry.now) iterations)) }
        ensures order { IfOk result (λ t. IssuesInTurn
            (input (M.meaning machine.entry.now) (map row_of body.entry.now) iterations) t.rows) }
        ensures steps { steps.new ≤ steps.old + turn_bound
            (input (M.meaning machine.entry.now) (map row_of body.entry.now) iterations) }
    {
        let mut engine = EventEngine::make(alloc, machine, body, iterations)?;
        drive(&mut engine, steps);
        Ok(engine.finish())
    }
}

impl<'a, M: Machine> Pipe for EventEngine<'a, M> {
    ghost use Rattle.std.specs.Prelude.{◌≡◌, refl};
    ghost use Rattle.std.proofs.Common.{◌∙◌, sym};
    ghost use Rattle.event_engine.specs.Sound.{input_of, IsSound, left_of, is_finished, ends_at};

    ghost same = { λ a b. input_of M.meaning a ≡ input_of M.meaning b };

    ghost sound = { λ a. IsSound M.meaning M.Mask.holds a };

    ghost left = { λ a. left_of M.meaning a };

    ghost due = { λ a. a.next };

    ghost finished = { λ a. is_finished a };

    fn turn<L: Ledger>(&mut self, c: u64, steps: &mut Steps<L>) {
        let event = self.pipeline.turn(c);
        self.from = c + 1;
        self.next = next_turn(&self.pipeline, event, c);
        steps.tick();
    }

    fn next_time(&self) -> Option<u64> {
        self.next
    }

    fn done(&self) -> bool {
        self.next.is_none()
    }

    ghost stays = { λ a. refl };

    ghost joins = { λ a b c p q. p ∙ q };

    ghost turns = { λ a b p. sym p };

    ghost ends = { λ a s e. ends_at a.next e };
}
