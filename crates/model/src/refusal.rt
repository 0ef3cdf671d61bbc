ghost use Rattle.std.specs.Prelude.{◌≡◌, ◌<◌};
ghost use Rattle.model.specs.Refusals.{number};

/// Why a call is refused, or what is wrong with a line: one case for each row of the closed table.
#[derive(Clone, Copy, Debug, PartialEq, Eq)]
pub enum Refusal {
    /// The buffer for the reply is too small.
    SmallBuffer,
    /// The input is too long.
    LongInput,
    /// The first line is no header.
    NoHeader,
    /// There are not 1 to 64 message lines.
    LineCount,
    /// The sender has no user.
    UnknownSender,
    /// There is no program.
    NoProgram,
    /// The program is off.
    ProgramOff,
    /// The input doesn't ask for this element's list.
    NoRequest,
    /// The line is no message.
    NoMessage,
    /// A time or the date is not valid.
    Untimely,
    /// A part of a move or an SC is missing.
    Incomplete,
    /// A2 is no slot name.
    NoSlotName,
    /// No flight has this identity.
    NoFlight,
    /// The flight is not the user's.
    NotOwned,
    /// FX or FM, and the flight is uncontrolled.
    Uncontrolled,
    /// SC, and the flight is controlled.
    Controlled,
    /// The flight has departed.
    Departed,
    /// A move, or SH Y, on a pop-up.
    OnPopUp,
    /// A move whose CTA is not 0 to 20 minutes after the slot.
    OffSlot,
    /// An SC whose CTA is not the slot's minute.
    OffMinute,
    /// The CTA is not after the CTD, or the ETE changes too much.
    EteUnfit,
    /// An SC names a slot that is held.
    SlotHeld,
    /// An earlier line of the type names the flight.
    Repeated,
    /// No flight of the user holds the slot.
    Unheld,
    /// An earlier line names the slot.
    Claimed,
    /// The slot's holder has no move in the packet.
    Stranded,
    /// A line of the issue list is faulty.
    FaultyList,
    /// A program is on or off.
    ProgramThere,
}

impl Refusal {
    /// Its number in the closed table.
    // Kept: the numbers as one match, row by row as the definition has them.
    pub fn number(self) -> u32
        ensures number { result ≡ number self }
        ensures some { 0 < result }
        ensures small { result < 1000 }
    {
        match self {
            Refusal::SmallBuffer => 650,
            Refusal::LongInput => 651,
            Refusal::NoHeader => 601,
            Refusal::LineCount => 602,
            Refusal::UnknownSender => 603,
            Refusal::NoProgram => 604,
            Refusal::ProgramOff => 605,
            Refusal::NoRequest => 620,
            Refusal::NoMessage => 701,
            Refusal::Untimely => 702,
            Refusal::Incomplete => 703,
            Refusal::NoSlotName => 704,
            Refusal::NoFlight => 705,
            Refusal::NotOwned => 706,
            Refusal::Uncontrolled => 707,
            Refusal::Controlled => 708,
            Refusal::Departed => 709,
            Refusal::OnPopUp => 710,
            Refusal::OffSlot => 501,
            Refusal::OffMinute => 711,
            Refusal::EteUnfit => 712,
            Refusal::SlotHeld => 713,
            Refusal::Repeated => 714,
            Refusal::Unheld => 715,
            Refusal::Claimed => 716,
            Refusal::Stranded => 717,
            Refusal::FaultyList => 802,
            Refusal::ProgramThere => 805,
        }
    }
}
