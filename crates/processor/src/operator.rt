ghost use Rattle.std.specs.Prelude.{◌≡◌, [], length, IfOk};
ghost use Rattle.calendar.specs.Days.{days_of};
ghost use Rattle.flights.specs.Kept.{flights_of};
ghost use Rattle.model.specs.Model.{issue, switch, purge};
ghost use Rattle.model.specs.declared.condition.Condition.TheVariants.{NoProgram};
ghost use Rattle.processor.specs.Conditions.{refusal, refused_by};
ghost use Rattle.processor.specs.Held.{Keeps, setting, program, departure_of};
ghost use Rattle.processor.specs.Laws.{RefusedUnchanged};
ghost use Rattle.processor.specs.Pairs.{pair_of};
ghost use Rattle.processor.specs.Step.{Does};

use crate::calls::{Failure, Operation, pair};
use crate::state::Processor;
use calendar::{FlightTexts, Identity};
use element::{Element, Naming};
use flights::Table;
use lists::read_list;
use model::{Condition, Refusal};
use register::Register;
use std::alloc::{AllocError, Global};

/// The largest issue list, in bytes.
const LARGEST_LIST: usize = 49_152;

impl<R: Register + Drop, E: Element + Drop> Processor<R, E> {
    /// A processor without a program. The room for its flights is reserved here, so no call can run
    /// out of memory later.
    pub fn new(heap: Global, register: R, element: E) -> Result<Self, AllocError>
        ensures { IfOk result (λ p. (p.register ≡ register) × (p.element ≡ element) × (program p ≡ record { condition = NoProgram; days = E.span element; flights = [] })) }
    {
        let table = Table::new(heap)?;
        Ok(Processor {
            register,
            element,
            condition: Condition::NoProgram,
            table,
        })
    }

    /// How the program stands: its condition, and how many flights the table has.
    pub fn standing(&self) -> (Condition, usize)
        ensures condition { result.0 ≡ self.now.condition }
        ensures flights { result.1 ≡ length (flights_of self.now.table) }
    {
        (self.condition, self.table.len())
    }

    /// The element, and the days by which its slot names and all times are read and written.
    pub(crate) fn naming(&self) -> Naming<'_, E>
        ensures element { result.element.now ≡ self.now.element }
        ensures days { days_of result.days ≡ E.span self.now.element }
    {
        Naming {
            element: &self.element,
            days: self.element.days(),
        }
    }

    /// Whether the program's condition allows a call, or why it refuses it.
    pub(crate) fn allows(&self, call: Operation) -> Result<(), Refusal>
        ensures { refused_by result ≡ refusal self.now.condition call }
    {
        match (self.condition, call) {
            (Condition::NoProgram, Operation::Issue) => Ok(()),
            (Condition::NoProgram, Operation::Switch) => Err(Refusal::NoProgram),
            (Condition::NoProgram, Operation::Purge) => Err(Refusal::NoProgram),
            (Condition::NoProgram, Operation::Depart) => Err(Refusal::NoProgram),
            (Condition::NoProgram, Operation::Packet) => Err(Refusal::NoProgram),
            (Condition::NoProgram, Operation::Report) => Err(Refusal::NoProgram),
            (Condition::On, Operation::Issue) => Err(Refusal::ProgramThere),
            (Condition::On, Operation::Switch) => Ok(()),
            (Condition::On, Operation::Purge) => Ok(()),
            (Condition::On, Operation::Depart) => Ok(()),
            (Condition::On, Operation::Packet) => Ok(()),
            (Condition::On, Operation::Report) => Ok(()),
            (Condition::Off, Operation::Issue) => Err(Refusal::ProgramThere),
            (Condition::Off, Operation::Switch) => Ok(()),
            (Condition::Off, Operation::Purge) => Ok(()),
            (Condition::Off, Operation::Depart) => Ok(()),
            (Condition::Off, Operation::Packet) => Err(Refusal::ProgramOff),
            (Condition::Off, Operation::Report) => Ok(()),
        }
    }

    /// Loads a list into the table, which is empty without a program.
    fn load(&mut self, list: &[u8]) -> Result<usize, Failure>
        ensures does { Does (setting self.old) (program self.old) (issue list.now) (program self.new) (pair_of result) }
        ensures keeps { Keeps self.old self.new }
    {
        self.allows(Operation::Issue)?;
        if list.len() > LARGEST_LIST {
            return Err(Failure::from(Refusal::LongInput));
        }
        match read_list(&mut self.table, &self.element, list) {
            Ok(days) => {
                self.element.set_days(days);
                self.condition = Condition::On;
                Ok(0)
            }
            Err(line) => Err(Failure {
                why: Refusal::FaultyList,
                second: line,
            }),
        }
    }

    /// Sets the program on or off.
    fn set(&mut self, on: bool) -> Result<usize, Failure>
        ensures does { Does (setting self.old) (program self.old) (switch on) (program self.new) (pair_of result) }
        ensures keeps { Keeps self.old self.new }
    {
        self.allows(Operation::Switch)?;
        self.condition = if on { Condition::On } else { Condition::Off };
        Ok(0)
    }

    /// Ends the program and empties the table.
    fn end(&mut self) -> Result<usize, Failure>
        ensures does { Does (setting self.old) (program self.old) purge (program self.new) (pair_of result) }
        ensures keeps { Keeps self.old self.new }
    {
        self.allows(Operation::Purge)?;
        self.table.clear();
        self.condition = Condition::NoProgram;
        Ok(0)
    }

    /// Marks the flight that four texts name as departed.
    fn mark(&mut self, flight: FlightTexts) -> Result<usize, Failure>
        ensures does { Does (setting self.old) (program self.old) (departure_of flight.entry) (program self.new) (pair_of result) }
        ensures keeps { Keeps self.old self.new }
    {
        self.allows(Operation::Depart)?;
        let identity = Identity::read(flight).ok_or(Refusal::NoFlight)?;
        if !self.table.has(&identity) {
            return Err(Failure::from(Refusal::NoFlight));
        }
        self.table.depart(&identity);
        Ok(0)
    }

    /// Loads an issue list: a heading, and a line for each flight. 805 while a program is on or off,
    /// 651 for a list over 49,152 bytes, 802 with the number of the first faulty line.
    pub fn issue(&mut self, list: &[u8]) -> (u32, usize)
        ensures does { Does (setting self.old) (program self.old) (issue list.now) (program self.new) result }
        ensures unchanged { RefusedUnchanged (program self.old) result.0 (program self.new) }
        ensures keeps { Keeps self.old self.new }
    {
        pair(self.load(list))
    }

    /// Sets the program on or off. 604 without a program.
    pub fn switch(&mut self, on: bool) -> (u32, usize)
        ensures does { Does (setting self.old) (program self.old) (switch on) (program self.new) result }
        ensures unchanged { RefusedUnchanged (program self.old) result.0 (program self.new) }
        ensures keeps { Keeps self.old self.new }
    {
        pair(self.set(on))
    }

    /// Ends the program and empties the table. 604 without a program.
    pub fn purge(&mut self) -> (u32, usize)
        ensures does { Does (setting self.old) (program self.old) purge (program self.new) result }
        ensures unchanged { RefusedUnchanged (program self.old) result.0 (program self.new) }
        ensures keeps { Keeps self.old self.new }
    {
        pair(self.end())
    }

    /// Marks the flight that four texts name as departed. 604 without a program, 705 where no flight
    /// has that identity or the texts are none.
    pub fn depart(&mut self, flight: FlightTexts) -> (u32, usize)
        ensures does { Does (setting self.old) (program self.old) (departure_of flight.entry) (program self.new) result }
        ensures unchanged { RefusedUnchanged (program self.old) result.0 (program self.new) }
        ensures keeps { Keeps self.old self.new }
    {
        pair(self.mark(flight))
    }
}
