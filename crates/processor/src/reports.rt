ghost use Rattle.std.specs.Prelude.{◌≡◌, ◌≤◌, length};
ghost use Rattle.text.specs.Lines.{line_of, lines};
ghost use Rattle.model.specs.Model.{input_of, report};
ghost use Rattle.writing.specs.Overlay.{Wrote};
ghost use Rattle.answering.specs.Replies.{reported_list};
ghost use Rattle.register.specs.Users.{number_of};
ghost use Rattle.processor.specs.Held.{setting, program};
ghost use Rattle.processor.specs.Pairs.{pair_of};
ghost use Rattle.processor.specs.Report.{is_request_line, is_request, reports, report_to};
ghost use Rattle.processor.specs.Requesting.{request_outcome};
ghost use Rattle.processor.specs.Step.{Sends};

use crate::calls::{Failure, Operation, check_sizes, pair};
use crate::lines::first_line;
use crate::state::Processor;
use answering::{is_reported, put_refused_request, put_report};
use element::Element;
use model::Refusal;
use register::{Register, User};
use text::{Line, Lines, count_fields, field_at};

/// Whether a line is readable and has the words EDCT and SLIST and the element's name.
fn is_request_line<E: Element>(element: &E, line: Line) -> bool
    ensures { result ≡ is_request_line (E.means element.now) (line_of line.entry) }
{
    let text = line.text;
    line.readable
        && count_fields(text) == 3
        && field_at(text, 0) == b"EDCT".as_slice()
        && field_at(text, 1) == b"SLIST".as_slice()
        && field_at(text, 2) == element.name()
}

/// Whether an input is one such line.
fn is_request<E: Element>(element: &E, input: &[u8]) -> bool
    ensures { result ≡ is_request (E.means element.now) (lines input.now) }
{
    let mut lines = Lines::new(input);
    match (lines.next(), lines.next()) {
        (Some(line), None) => is_request_line(element, line),
        _ => false,
    }
}

impl<R: Register + Drop, E: Element + Drop> Processor<R, E> {
    /// Answers a request of a sender by the list of its controlled flights. Nothing changes.
    pub fn report(&self, sender: &R::Sender, input: &[u8], reply: &mut [u8]) -> (u32, usize)
        ensures sends { Sends (setting self.now) (program self.now) (report sender.now (input_of input.now) reply.old) (program self.now) result reply.new }
    {
        pair(self.list(sender, input, reply))
    }

    /// Answers a request: 650 and 651, then by who asks and for what.
    fn list(&self, sender: &R::Sender, input: &[u8], reply: &mut [u8]) -> Result<usize, Failure>
        ensures sends { Sends (setting self.now) (program self.now) (report sender.now (input_of input.now) reply.old) (program self.now) (pair_of result) reply.new }
    {
        check_sizes(input, reply)?;
        match self.asker(sender, input) {
            Ok(user) => Ok(self.list_for(user, reply)),
            Err(why) => {
                let first = first_line(&mut Lines::new(input));
                let second = put_refused_request(reply, first, why.number());
                Err(Failure { why, second })
            }
        }
    }

    /// The user that a request is granted to, or why it is refused.
    fn asker(&self, sender: &R::Sender, input: &[u8]) -> Result<User, Refusal>
        ensures { report_to (setting self.now) (program self.now) (lines input.now) ((setting self.now).user sender.now) ≡ request_outcome (setting self.now) (program self.now) (lines input.now) result }
    {
        let user = self.register.user_of(sender).ok_or(Refusal::UnknownSender)?;
        self.allows(Operation::Report)?;
        if is_request(&self.element, input) {
            Ok(user)
        } else {
            Err(Refusal::NoRequest)
        }
    }

    /// Writes the list of a user's controlled flights.
    fn list_for(&self, user: User, reply: &mut [u8]) -> usize
        requires { 40960 ≤ length reply.old }
        ensures wrote { Wrote reply.old 0 (reported_list (setting self.now).element (program self.now).days (reports (setting self.now) (number_of user)) (program self.now).flights) reply.new result }
    {
        let naming = self.naming();
        let flights = self.table.flights();
        put_report(reply, &naming, flights, |flight| {
            is_reported(&self.register, user, flight)
        })
    }
}
