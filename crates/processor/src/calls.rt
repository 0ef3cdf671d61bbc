ghost use Rattle.std.specs.Prelude.{◌≡◌, ◌≤◌, length, IfOk};
ghost use Rattle.processor.specs.Conditions.{sizes_refused, refused_by};
ghost use Rattle.processor.specs.Pairs.{pair_of};

use model::Refusal;

/// The calls whose answer hangs on the program's condition.
// Kept: the numbers by condition are one match on the condition together with the call, and an enum
// of calls with their parts would be made in each call only for that match.
#[derive(Clone, Copy, PartialEq, Eq)]
pub enum Operation {
    Issue,
    Switch,
    Purge,
    Depart,
    Packet,
    Report,
}

/// The smallest buffer for a reply, in bytes.
const REPLY_ROOM: usize = 40_960;

/// The largest packet or request, in bytes.
const LARGEST_INPUT: usize = 16_384;

/// Why a call failed, and the second number that it answers then.
#[derive(Clone, Copy)]
pub(crate) struct Failure {
    pub(crate) why: Refusal,
    // Kept: a number beside the refusal, since it is the second one of the pair that the call answers.
    pub(crate) second: usize,
}

impl From<Refusal> for Failure {
    ghost from_gives = { λ why failure. failure ≡ record { why = why; second = 0 } };

    fn from(why: Refusal) -> Failure {
        Failure { why, second: 0 }
    }
}

/// The pair that a call answers.
// Kept: two numbers, and 0 for no error: every public call answers such a pair, a rule of the project.
pub(crate) fn pair(outcome: Result<usize, Failure>) -> (u32, usize)
    ensures { result ≡ pair_of outcome }
{
    match outcome {
        Ok(second) => (0, second),
        Err(failure) => (failure.why.number(), failure.second),
    }
}

/// Refuses a buffer under 40,960 bytes, and an input over 16,384.
pub(crate) fn check_sizes(input: &[u8], reply: &[u8]) -> Result<(), Refusal>
    ensures refusal { refused_by result ≡ sizes_refused (length reply.now) (length input.now) }
    ensures room { IfOk result (λ _. 40960 ≤ length reply.now) }
{
    if reply.len() < REPLY_ROOM {
        return Err(Refusal::SmallBuffer);
    }
    if input.len() > LARGEST_INPUT {
        return Err(Refusal::LongInput);
    }
    Ok(())
}
