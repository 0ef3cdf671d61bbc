//! The same engine as gdpsub, for a flow constrained area and an ARINC register of two users. Reads
//! blocks from standard input and answers each in order.

#![tactic(auto)]

use anyhow::Context;
use calendar::Days;
use desk::serve;
use element::FlowArea;
use processor::Processor;
use register::{Address, ArincRegister, CarrierCode, User};
use std::io::Read;

/// Adds a user with its return address and its carrier code.
fn add_user(
    register: &mut ArincRegister,
    number: u8,
    address: &[u8],
    code: &[u8],
) -> anyhow::Result<()> {
    let user = User::try_from(number)?;
    register.add_sender(Address::try_from(address)?, user)?;
    register.add_carrier(CarrierCode::try_from(code)?, user)?;
    Ok(())
}

fn two_users(rt: &HostRuntime) -> anyhow::Result<ArincRegister> {
    let mut register = ArincRegister::new(rt.alloc())?;
    add_user(&mut register, 0, b"HDQQAXS", b"QAA")?;
    add_user(&mut register, 15, b"LAKQBXS", b"QBB")?;
    Ok(register)
}

// Kept: beside the element of gdpsub: two programs, and each says which element it serves.
fn area() -> anyhow::Result<FlowArea> {
    let days = Days::read(b"28", b"28").context("no days")?;
    FlowArea::new(b"FCA0Z1", days).context("no area")
}

fn main(rt: HostRuntime) -> anyhow::Result<()> {
    let mut input = Vec::new(rt.alloc());
    rt.stdin().read_to_end(&mut input)?;
    let mut processor = Processor::new(rt.alloc(), two_users(&rt)?, area()?)?;
    serve(&rt, &mut processor, input.as_slice())?;
    Ok(())
}

#[cfg(test)]
mod tests {
    use super::*;
    use calendar::FlightTexts;
    use element::Airport;
    use processor::worked_edge;
    use register::{CdmnetRegister, Register};
    use std::test::Fail;

    fn area_processor(rt: &HostRuntime) -> anyhow::Result<Processor<ArincRegister, FlowArea>> {
        Ok(Processor::new(rt.alloc(), two_users(rt)?, area()?)?)
    }

    fn airport_processor(rt: &HostRuntime) -> anyhow::Result<Processor<CdmnetRegister, Airport>> {
        let days = Days::read(b"01", b"31").context("no days")?;
        let airport = Airport::new(b"KMPT", days).context("no airport")?;
        Ok(Processor::new(rt.alloc(), CdmnetRegister::new(rt.alloc())?, airport)?)
    }

    #[test]
    fn lists_without_a_last_line_feed(rt: HostRuntime) -> Result<(), Fail> {
        let mut processor = area_processor(&rt)?;
        assert_eq!(rt; processor.issue(b""), (802, 1));
        assert_eq!(rt; processor.issue(b"\n"), (802, 1));
        assert_eq!(rt; processor.issue(b"ISSUE FCA0Z1 28 28"), (0, 0));
        assert_eq!(rt; processor.purge(), (0, 0));
        assert_eq!(rt;
            processor.issue(
                b"ISSUE FCA0Z1 30 30\nQAA10 FCA0Z1.300300A HIL LAK 300200 300300 GDP - - - - 06300100",
            ),
            (0, 0)
        );
        assert_eq!(rt; processor.issue(b""), (805, 0));
        Ok(())
    }

    #[test]
    fn an_airport_of_four_letters(rt: HostRuntime) -> Result<(), Fail> {
        let mut processor = airport_processor(&rt)?;
        assert_eq!(rt; processor.issue(b"ISSUE MPT 30 30"), (802, 1));
        assert_eq!(rt;
            processor.issue(
                b"ISSUE KMPT 30 30\nQAA10 KMPT.300300A HIL KMPT 300200 300300 GDP - - - - 06300100\n",
            ),
            (0, 0)
        );
        assert_eq!(rt;
            processor.depart(FlightTexts {
                id: b"QAA10",
                departure: b"HIL",
                arrival: b"KMPT",
                date: b"06300100",
            }),
            (0, 0)
        );
        assert_eq!(rt;
            processor.depart(FlightTexts {
                id: b"",
                departure: b"",
                arrival: b"",
                date: b""
            }),
            (705, 0)
        );
        Ok(())
    }

    #[test]
    fn two_users_are_known(rt: HostRuntime) -> Result<(), Fail> {
        let register = two_users(&rt)?;
        let user = register
            .user_of_carrier(b"QBB")
            .ok_or_else(|| Fail::new("nobody"))?;
        assert_eq!(rt; user.number(), 15);
        assert!(rt; register.user_of_carrier(b"QCC").is_none());
        assert!(rt; register.user_of_carrier(b"").is_none());
        Ok(())
    }

    #[test]
    fn edges_are_worked(rt: HostRuntime) {
        assert_eq!(rt; worked_edge(), Some(1470));
    }
}
