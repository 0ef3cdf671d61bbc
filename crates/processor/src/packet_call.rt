ghost use Rattle.std.specs.Prelude.{◌≡◌, ◌≤◌, true, map, length};
ghost use Rattle.text.specs.Lines.{line_of, lines_left};
ghost use Rattle.messages.specs.Kept.{identifier_of};
ghost use Rattle.model.specs.Model.{input_of, packet, program_stands};
ghost use Rattle.model.specs.Refusals.{number};
ghost use Rattle.packets.specs.Verdict.{all_pass, messages_of};
ghost use Rattle.plan.specs.Rows.{rows_of, numbers_of, messages_in};
ghost use Rattle.writing.specs.Overlay.{Wrote};
ghost use Rattle.answering.specs.Replies.{line_in, rejected_first, accepted_list};
ghost use Rattle.processor.specs.Held.{Keeps, setting, program};
ghost use Rattle.processor.specs.Judging.{Judges};
ghost use Rattle.processor.specs.Laws.{Promised};
ghost use Rattle.processor.specs.Packet.{answered, amended_program, by_lines, judged};
ghost use Rattle.processor.specs.Pairs.{pair_of};
ghost use Rattle.processor.specs.Step.{Sends, sending};

use crate::calls::{Failure, Operation, check_sizes, pair};
use crate::lines::first_line;
use crate::state::Processor;
use answering::{put_acceptance, put_first_fault, put_line_faults};
use checks::Checker;
use element::Element;
use messages::{Identifier, read_header};
use model::Refusal;
use plan::Plan;
use register::Register;
use text::{Line, Lines};

/// Writes the rejection of a packet for its first line.
fn reject_first(reply: &mut [u8], id: &[u8], first: Line, why: Refusal) -> Failure
    requires id { length id.now ≤ 16 }
    requires line { length first.text.now ≤ 160 }
    requires room { 40960 ≤ length reply.old }
    ensures why { result.why ≡ why }
    ensures wrote { Wrote reply.old 0 (rejected_first id.now (line_of first.entry) (number why)) reply.new result.second }
{
    let second = put_first_fault(reply, id, first, why.number());
    Failure { why, second }
}

impl<R: Register + Drop, E: Element + Drop> Processor<R, E> {
    /// Answers a packet of a sender: it is applied whole, or refused whole.
    pub fn packet(&mut self, sender: &R::Sender, input: &[u8], reply: &mut [u8]) -> (u32, usize)
        ensures sends { Sends (setting self.old) (program self.old) (packet sender.now (input_of input.now) reply.old) (program self.new) result reply.new }
        ensures promised { Promised (setting self.old) (program self.old) sender.now (input_of input.now) reply.old (program self.new) result reply.new }
        ensures keeps { Keeps self.old self.new }
    {
        pair(self.receive(sender, input, reply))
    }

    /// Answers a packet: 650 and 651, then by its first line.
    fn receive(
        &mut self,
        sender: &R::Sender,
        input: &[u8],
        reply: &mut [u8],
    ) -> Result<usize, Failure>
        ensures sends { Sends (setting self.old) (program self.old) (packet sender.now (input_of input.now) reply.old) (program self.new) (pair_of result) reply.new }
        ensures keeps { Keeps self.old self.new }
    {
        check_sizes(input, reply)?;
        let mut rest = Lines::new(input);
        let first = first_line(&mut rest);
        match read_header(first) {
            Some(id) => self.headed(sender, &id, first, rest, reply),
            None => Err(reject_first(reply, b"-", first, Refusal::NoHeader)),
        }
    }

    /// Answers a packet with a header.
    fn headed(
        &mut self,
        sender: &R::Sender,
        id: &Identifier,
        first: Line,
        rest: Lines,
        reply: &mut [u8],
    ) -> Result<usize, Failure>
        requires line { length first.text.now ≤ 160 }
        requires room { 40960 ≤ length reply.old }
        ensures sends { sending (program self.new) (pair_of result) reply.new ≡ answered (program self.old) reply.old (by_lines (setting self.old) (program self.old) sender.now (identifier_of id.now) (line_of first.entry) (lines_left rest.entry)) }
        ensures keeps { Keeps self.old self.new }
    {
        match self.judged(sender, rest) {
            Ok(plan) => self.conclude(id, &plan, reply),
            Err(why) => Err(reject_first(reply, id.as_bytes(), first, why)),
        }
    }

    /// The judged plan of the lines of a packet with a header, or why its first line is answered.
    fn judged(&self, sender: &R::Sender, rest: Lines) -> Result<Plan, Refusal>
        ensures { Judges (setting self.now) (program self.now) sender.now (lines_left rest.entry) result }
    {
        let naming = self.naming();
        let mut plan = Plan::read(&naming, rest).ok_or(Refusal::LineCount)?;
        let user = self.register.user_of(sender).ok_or(Refusal::UnknownSender)?;
        self.allows(Operation::Packet)?;
        let checker = Checker {
            register: &self.register,
            element: &self.element,
            table: &self.table,
            user,
        };
        plan.judge(&checker);
        Ok(plan)
    }

    /// Applies a judged packet whole, or rejects it, and writes the reply.
    fn conclude(&mut self, id: &Identifier, plan: &Plan, reply: &mut [u8]) -> Result<usize, Failure>
        requires stands { all_pass (numbers_of plan.now) ≡ true → program_stands (setting self.old).element (amended_program (program self.old) (messages_of (messages_in (rows_of plan.now)))) ≡ true }
        requires room { 40960 ≤ length reply.old }
        ensures sends { sending (program self.new) (pair_of result) reply.new ≡ answered (program self.old) reply.old (judged (setting self.old) (program self.old) (identifier_of id.now) (map line_in (rows_of plan.now)) (messages_in (rows_of plan.now)) (numbers_of plan.now)) }
        ensures keeps { Keeps self.old self.new }
    {
        if let Some(why) = plan.first_fault() {
            let second = put_line_faults(reply, id.as_bytes(), plan.filled());
            return Err(Failure { why, second });
        }
        self.table.amend(|flight| plan.amended(flight));
        Ok(self.accept(id, plan, reply))
    }

    /// Writes the reply to a packet that is accepted, with the flights as they are after it.
    fn accept(&self, id: &Identifier, plan: &Plan, reply: &mut [u8]) -> usize
        requires { 40960 ≤ length reply.old }
        ensures wrote { Wrote reply.old 0 (accepted_list (setting self.now).element (program self.now).days (identifier_of id.now) (messages_of (messages_in (rows_of plan.now))) (program self.now).flights) reply.new result }
    {
        let naming = self.naming();
        let flights = self.table.flights();
        put_acceptance(reply, &naming, id.as_bytes(), flights, plan)
    }
}
