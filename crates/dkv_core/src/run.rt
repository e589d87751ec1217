// Steps in order, from what the calls of one step do.
ghost use Rattle.std.specs.Prelude.{ℕ, ◌≡◌, ◌+◌, ◌-◌, ◌^◌, ◌<◌, ◌≤◌, [], length, map, IfOk, OnOk, OnErr};
ghost use Rattle.dkv_base.specs.declared.types.Ask.TheVariants.{Read, Write, Take, Settle};
ghost use Rattle.dkv_base.specs.Replies.{said};
ghost use Rattle.dkv_base.specs.Steps.{replies, situation_after};
ghost use Rattle.dkv_core.specs.Cores.{IsEffective, SameContent};
ghost use Rattle.dkv_core.specs.Runs.{situation_of, StandsFor, IsAnswered, IsStep, IsCutShort};
ghost use Rattle.dkv_core.specs.Seats.{rows_beside};

use crate::seats::Seat;
use crate::{Core, Decided, Taken};
use dkv_atomic::read_limits;
use dkv_base::{Answer, Ask, AtomicWrite, MsgId, NoMemory, ReadRange, Run, Step};
use std::alloc::Global;

impl Core {
    /// The answers to the steps in their order. A caller's watch begins and ends within them, and who watches beside them
    /// goes on. Takes memory for the answers, for watches and for what is stored. Where memory is wanting, some first
    /// steps were made, and nothing else was.
    pub fn run(&mut self, alloc: Global, steps: &[Step]) -> Result<Run<Answer>, NoMemory>
        requires { self.old.state.number + length steps.now < 2 ^ 64 }
        ensures answers { IfOk result (λ answers.
            map said answers ≡ replies (situation_of self.old) steps.now []) }
        ensures leaves { OnOk result
            (StandsFor (situation_after (situation_of self.old) steps.now []) self.new) }
        ensures err { OnErr result (IsCutShort self.old steps.now self.new) }
        ensures watches { self.new.watches ≡ self.old.watches }
    {
        let mut seats = Vec::new(alloc);
        let answers = self.answer_all(alloc, &mut seats, steps);
        self.leave_all(seats);
        answers
    }

    // The answers to the steps in their order, where nobody has a seat yet.
    fn answer_all(
        &mut self,
        alloc: Global,
        seats: &mut Vec<Seat>,
        steps: &[Step],
    ) -> Result<Run<Answer>, NoMemory>
        requires numbered { self.old.state.number + length steps.now < 2 ^ 64 }
        requires seats { seats.old.items ≡ [] }
        ensures answers { IfOk result (λ answers.
            map said answers ≡ replies (situation_of self.old) steps.now []) }
        ensures leaves { OnOk result
            (StandsFor (situation_after (situation_of self.old) steps.now []) self.new) }
        ensures err { OnErr result (IsCutShort self.old steps.now self.new) }
        ensures watches { rows_beside seats.new.items self.new.watches ≡ self.old.watches }
    {
        let mut answers = Run::new(alloc);
        for step in steps {
            let answer = self.step(alloc, seats, step)?;
            answers.add(answer)?;
        }
        Ok(answers)
    }

    // One step. Where memory is wanting, nothing is changed but who watches.
    fn step(
        &mut self,
        alloc: Global,
        seats: &mut Vec<Seat>,
        step: &Step,
    ) -> Result<Answer, NoMemory>
        requires { self.old.state.number < 2 ^ 64 - 1 }
        ensures answer { IfOk result (λ answer.
            IsStep self.old seats.old.items step.now answer self.new seats.new.items) }
        ensures next { self.new.state.number ≤ self.old.state.number + 1 }
        ensures err { OnErr result (SameContent self.old self.new) }
        ensures watches { rows_beside seats.new.items self.new.watches
            ≡ rows_beside seats.old.items self.old.watches }
    {
        let at = self.moment(step.at);
        match &step.ask {
            Ask::Read(ranges) => self.answer_read(alloc, ranges.as_slice(), at),
            Ask::Write(write) => self.answer_write(alloc, step.who, at, write),
            Ask::Take => self.answer_take(alloc, at),
            Ask::Settle { id, done } => self.answer_settle(alloc, at, *id, *done),
            Ask::Watch(keys) => self.answer_watch(alloc, seats, step.who, at, keys),
            Ask::Poll => self.answer_poll(alloc, seats, step.who, at),
        }
    }

    // The answer to a read at an effective moment.
    fn answer_read(
        &mut self,
        alloc: Global,
        ranges: &[ReadRange],
        at: u64,
    ) -> Result<Answer, NoMemory>
        requires { IsEffective self.old at }
        ensures answer { IfOk result (λ answer.
            (who : ℕ) → IsAnswered self.old who at (Read ranges.now) answer self.new) }
        ensures state { self.new.state ≡ self.old.state }
        ensures err { OnErr result (SameContent self.old self.new) }
        ensures watches { self.new.watches ≡ self.old.watches }
    {
        if let Some(limit) = read_limits(ranges) {
            return Ok(Answer::Limit(limit));
        }
        let entries = self.read(alloc, ranges, at)?;
        self.raise(at);
        Ok(Answer::Entries(entries))
    }

    // The answer to a write at an effective moment.
    fn answer_write(
        &mut self,
        alloc: Global,
        who: u32,
        at: u64,
        write: &AtomicWrite,
    ) -> Result<Answer, NoMemory>
        requires effective { IsEffective self.old at }
        requires numbered { self.old.state.number < 2 ^ 64 - 1 }
        ensures answer { IfOk result (λ answer.
            IsAnswered self.old who at (Write write.now) answer self.new) }
        ensures next { self.new.state.number ≤ self.old.state.number + 1 }
        ensures err { OnErr result (SameContent self.old self.new) }
        ensures watches { self.new.watches ≡ self.old.watches }
    {
        match self.prepare_write(alloc, at, write)? {
            Decided::Limit(limit) => Ok(Answer::Limit(limit)),
            Decided::Fails(places) => {
                self.raise(at);
                Ok(Answer::Fails(places))
            }
            Decided::NotU64 { index } => {
                self.raise(at);
                Ok(Answer::NotU64 { index })
            }
            Decided::Goes(prepared) => Ok(Answer::Written {
                n: self.apply(prepared),
            }),
        }
    }

    // The answer to a take at an effective moment.
    fn answer_take(&mut self, alloc: Global, at: u64) -> Result<Answer, NoMemory>
        requires { IsEffective self.old at }
        ensures answer { IfOk result (λ answer.
            (who : ℕ) → IsAnswered self.old who at Take answer self.new) }
        ensures state { self.new.state ≡ self.old.state }
        ensures err { OnErr result (SameContent self.old self.new) }
        ensures watches { self.new.watches ≡ self.old.watches }
    {
        match self.take(alloc, at)? {
            Taken::Leased(message) => Ok(Answer::Leased(message)),
            Taken::Nothing { next } => Ok(Answer::Nothing { next }),
        }
    }

    // The answer to a settlement at an effective moment.
    fn answer_settle(
        &mut self,
        alloc: Global,
        at: u64,
        id: MsgId,
        done: bool,
    ) -> Result<Answer, NoMemory>
        requires effective { IsEffective self.old at }
        requires numbered { self.old.state.number < 2 ^ 64 - 1 }
        ensures answer { IfOk result (λ answer.
            (who : ℕ) → IsAnswered self.old who at (Settle id done) answer self.new) }
        ensures next { self.new.state.number ≤ self.old.state.number + 1 }
        ensures err { OnErr result (SameContent self.old self.new) }
        ensures watches { self.new.watches ≡ self.old.watches }
    {
        if !self.is_out(id) {
            return Ok(Answer::NoLease);
        }
        let prepared = self.prepare_settlement(alloc, at, id, done)?;
        Ok(Answer::Settled {
            n: self.apply(prepared),
        })
    }
}
