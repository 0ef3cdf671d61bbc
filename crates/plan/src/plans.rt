ghost use Rattle.std.specs.Prelude.{◌≡◌, ◌+◌, ◌<◌, ◌≤◌, true, false, [], ◌∷◌, ◌++◌, map, length, MatchOption, IfNone, OnSome, slice_set};
ghost use Rattle.std.specs.List.{AllByRecursion};
ghost use Rattle.text.specs.Lines.{lines_left};
ghost use Rattle.calendar.specs.Days.{days_of};
ghost use Rattle.register.specs.Users.{number_of as user_number};
ghost use Rattle.packets.specs.Verdict.{line_numbers, first_number};
ghost use Rattle.model.specs.Refusals.{number_or_zero};
ghost use Rattle.checks.specs.Held.{setting, program};
ghost use Rattle.plan.specs.Rows.{row_of, rows_of, numbers_of, number_of, row_read, messages_in, Finds, each_beside};
ghost use Rattle.messages.specs.Headers.{has_places};

use crate::filling::row_of;
use crate::row::{Among, Plan, Row};
use crate::together::fault_beside;
use checks::Checker;
use element::{Element, Naming};
use model::Refusal;
use register::Register;
use text::{Lines, ShortText};

impl Row {
    /// A row of no line.
    fn empty() -> Row {
        Row {
            text: ShortText::joined(b"", b""),
            readable: true,
            message: None,
            fault: None,
        }
    }

    /// The fault that a check found in it.
    pub fn fault(&self) -> Option<Refusal>
        ensures { number_or_zero result ≡ number_of self.now }
    {
        self.fault
    }

    /// The text of its line.
    pub fn text(&self) -> &[u8]
        ensures text { result.now ≡ (row_of self.now).line.text }
        ensures short { length result.now ≤ 160 }
    {
        self.text.as_bytes()
    }
}

impl Plan {
    /// A plan without a row.
    fn new() -> Plan
        ensures rows { rows_of result ≡ [] }
        ensures numbers { numbers_of result ≡ [] }
    {
        Plan {
            rows: [Row::empty(); 64],
            count: 0,
        }
    }

    /// One row more, where there is room.
    // Kept: an Option of nothing, which `read` passes on by `?` as its own None.
    fn push(&mut self, row: Row) -> Option<()>
        ensures full { IfNone result (self.old.count ≡ 64) }
        ensures rows { OnSome result (rows_of self.new ≡ rows_of self.old ++ row_of row ∷ []) }
        ensures numbers { OnSome result (numbers_of self.new ≡ numbers_of self.old ++ number_of row ∷ []) }
    {
        if self.count == 64 {
            return None;
        }
        self.rows[self.count] = row;
        self.count += 1;
        Some(())
    }

    /// The plan of 1 to 64 message lines; no row has a fault yet.
    pub fn read<E: Element>(naming: &Naming<E>, lines: Lines) -> Option<Plan>
        ensures { MatchOption result (has_places (lines_left lines.entry) ≡ false) (λ p. (has_places (lines_left lines.entry) ≡ true) × (rows_of p ≡ map (row_read (E.means naming.now.element.now) (days_of naming.now.days)) (lines_left lines.entry)) × AllByRecursion (λ n. n ≡ 0) (numbers_of p)) }
    {
        let mut plan = Plan::new();
        for line in lines {
            plan.push(row_of(naming, line))?;
        }
        if plan.count == 0 { None } else { Some(plan) }
    }

    /// The rows that are filled.
    pub fn filled(&self) -> &[Row]
        ensures rows { map row_of result.now ≡ rows_of self.now }
        ensures numbers { map number_of result.now ≡ numbers_of self.now }
        ensures count { length result.now ≡ self.now.count }
    {
        &self.rows[..self.count]
    }

    /// Gives a row its fault.
    fn set_fault(&mut self, i: usize, fault: Option<Refusal>)
        requires { i < self.old.count }
        ensures rows { rows_of self.new ≡ rows_of self.old }
        ensures numbers { numbers_of self.new ≡ slice_set (numbers_of self.old) i (number_or_zero fault) }
        ensures count { self.new.count ≡ self.old.count }
    {
        self.rows[i].fault = fault;
    }

    /// Gives each row the fault that a check finds in it among the others.
    fn mark<F: Fn(Among) -> Result<(), Refusal>>(&mut self, check: F)
        requires { F.IsAlwaysCallable check }
        ensures rows { rows_of self.new ≡ rows_of self.old }
        ensures numbers { (gives : _) → Finds (rows_of self.old) (F.post check) gives → numbers_of self.new ≡ each_beside gives [] (messages_in (rows_of self.old)) }
    {
        // Kept: by place, since a check reads the other rows too, and one row changes at a time.
        for i in 0..self.count {
            let all = self.filled();
            let among = Among {
                row: &all[i],
                before: &all[..i],
                all,
            };
            let fault = check(among).err();
            self.set_fault(i, fault);
        }
    }

    /// The fault of the first faulty row.
    pub fn first_fault(&self) -> Option<Refusal>
        ensures { number_or_zero result ≡ first_number (numbers_of self.now) }
    {
        let row = self.filled().iter().find(|row| row.fault.is_some())?;
        row.fault
    }

    /// Checks the rows in two stages: the second only if all pass in the first.
    pub fn judge<R: Register, E: Element>(&mut self, checker: &Checker<R, E>)
        ensures rows { rows_of self.new ≡ rows_of self.old }
        ensures numbers { numbers_of self.new ≡ line_numbers (setting R.Register E.Element checker.now) (program R.Register E.Element checker.now) (user_number checker.now.user) (messages_in (rows_of self.old)) }
    {
        self.mark(|among| checker.fault_alone(&among.row.message));
        if self.first_fault().is_none() {
            self.mark(|among| fault_beside(checker, among));
        }
    }
}
