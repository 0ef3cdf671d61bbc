ghost use Rattle.processor.specs.Held.{Keeps, setting, program};
ghost use Rattle.histories.specs.Running.{Makes, Taken, Ran, Lawful};

use crate::turn::{Call, Turn};
use element::Element;
use processor::Processor;
use register::Register;

/// Makes a call. The reply to a packet or a report lies in the buffer; any other call leaves it.
fn make<R: Register + Drop, E: Element + Drop>(
    processor: &mut Processor<R, E>,
    call: &Call<R::Sender>,
    buffer: &mut [u8],
) -> (u32, usize)
where
    R::Sender: Drop,
    ensures does { Makes (setting processor.old) (program processor.old) (program processor.new) call.now result buffer.old buffer.new }
    ensures keeps { Keeps processor.old processor.new }
{
    // Kept: a match, since each call has other parts and answers its pair; a closure for each case would have
    // to be made somewhere and handed on.
    match call {
        Call::Issue(list) => processor.issue(list),
        Call::Switch(on) => processor.switch(*on),
        Call::Depart(flight) => processor.depart(*flight),
        Call::Purge => processor.purge(),
        Call::Packet(sender, input) => processor.packet(sender, input, buffer),
        Call::Report(sender, input) => processor.report(sender, input, buffer),
    }
}

/// Makes the call of a turn, and keeps its answer there.
fn take<'a, R: Register + Drop, E: Element + Drop>(
    processor: &mut Processor<R, E>,
    turn: &mut Turn<'a, R::Sender>,
)
where
    R::Sender: Drop,
    ensures takes { Taken (setting processor.old) (program processor.old) (program processor.new) turn.old turn.new }
    ensures keeps { Keeps processor.old processor.new }
{
    turn.pair = make(processor, &turn.call, turn.buffer.as_mut_slice());
}

/// Runs a history.
pub fn run<'a, R: Register + Drop, E: Element + Drop>(
    processor: &mut Processor<R, E>,
    turns: &mut [Turn<'a, R::Sender>],
)
where
    R::Sender: Drop,
    ensures ran { Ran (setting processor.old) (program processor.old) (program processor.new) turns.old turns.new }
    ensures lawful { Lawful (setting processor.old) (program processor.old) (program processor.new) turns.old turns.new }
    ensures keeps { Keeps processor.old processor.new }
{
    for turn in turns.iter_mut() {
        take(processor, turn);
    }
}
