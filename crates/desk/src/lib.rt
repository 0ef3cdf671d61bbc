//! The blocks of a program's input, put to a processor.

#![tactic(auto)]

ghost use Rattle.std.specs.Prelude.{◌≡◌, length, IfOk, OnOk};
ghost use Rattle.blocks.specs.Told.{told_of};
ghost use Rattle.blocks.specs.Blocks.{blocks};
ghost use Rattle.processor.specs.Held.{Keeps, setting, program};
ghost use Rattle.desk.specs.Told.{call_told, Answers, after_all};

use blocks::{Block, Blocks};
use element::Element;
use processor::Processor;
use register::Register;

/// Makes the call of a block: the pair that it answers, and none where the block is not understood.
fn answer<R: Register + Drop, E: Element + Drop>(
    processor: &mut Processor<R, E>,
    block: Option<Block>,
) -> Option<(u32, usize)>
    ensures answers { Answers (setting processor.old) (program processor.old) (call_told (told_of block.entry)) (program processor.new) result }
    ensures keeps { Keeps processor.old processor.new }
{
    // Kept: a match, since each block has other parts and its answer is the pair of its call; a closure for
    // each case would have to be made somewhere and handed on.
    Some(match block? {
        Block::Issue(list) => processor.issue(list),
        Block::Switch(on) => processor.switch(on),
        Block::Purge => processor.purge(),
        Block::Depart(flight) => processor.depart(flight),
    })
}

/// Prints what a block is answered.
fn print_answer(rt: &HostRuntime, pair: Option<(u32, usize)>) -> anyhow::Result<()> {
    match pair {
        Some((number, second)) => println!(rt; "{number} {second}")?,
        None => println!(rt; "NOT UNDERSTOOD")?,
    }
    Ok(())
}

/// Puts each block of an input to the processor, prints its answer, and says how many there were.
pub fn serve<R: Register + Drop, E: Element + Drop>(
    rt: &HostRuntime,
    processor: &mut Processor<R, E>,
    input: &[u8],
) -> anyhow::Result<usize>
    ensures count { IfOk result (λ n. n ≡ length (blocks input.now)) }
    ensures program { OnOk result ((program processor.new) ≡ after_all (setting processor.old) (program processor.old) (blocks input.now)) }
    ensures keeps { Keeps processor.old processor.new }
{
    // Kept: counted as they go, since `count` would read all blocks a second time.
    let mut answered = 0;
    for block in Blocks::new(input) {
        let pair = answer(processor, block);
        print_answer(rt, pair)?;
        answered += 1;
    }
    Ok(answered)
}
