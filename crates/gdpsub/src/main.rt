//! Reads blocks from standard input and answers each in order, for the airport MPT.

#![tactic(auto)]

ghost use Rattle.std.specs.Prelude.{◌≡◌, IfOk, Some, codes};
ghost use Rattle.register.specs.Keys.{is_client};
ghost use Rattle.register.specs.Registers.{senders_of, carriers_of};

use anyhow::Context;
use calendar::Days;
use desk::serve;
use element::Airport;
use processor::Processor;
use register::{CarrierCode, CdmnetRegister, Client, User};
use std::io::Read;

/// IP 1 tag 11 is user 1, and so are the carriers QAA and QAB.
fn sample_register(rt: &HostRuntime) -> anyhow::Result<CdmnetRegister>
    ensures sender { IfOk result (λ t. (senders_of is_client t).says (record { ip = 1; tag = 11 }) ≡ Some 1) }
    ensures qaa { IfOk result (λ t. (carriers_of t).says (codes "QAA") ≡ Some 1) }
    ensures qab { IfOk result (λ t. (carriers_of t).says (codes "QAB") ≡ Some 1) }
{
    let user = User::try_from(1)?;
    let qaa = CarrierCode::try_from(b"QAA".as_slice())?;
    let qab = CarrierCode::try_from(b"QAB".as_slice())?;
    let mut register = CdmnetRegister::new(rt.alloc())?;
    register.add_sender(Client { ip: 1, tag: 11 }, user)?;
    register.add_carrier(qaa, user)?;
    register.add_carrier(qab, user)?;
    Ok(register)
}

/// The airport MPT. Its days are those of the last list that was issued.
fn sample_element() -> anyhow::Result<Airport> {
    let days = Days::read(b"01", b"31").context("no days")?;
    Airport::new(b"MPT", days).context("no airport")
}

fn main(rt: HostRuntime) -> anyhow::Result<()> {
    let mut input = Vec::new(rt.alloc());
    rt.stdin().read_to_end(&mut input)?;
    let mut processor = Processor::new(rt.alloc(), sample_register(&rt)?, sample_element()?)?;
    let answered = serve(&rt, &mut processor, input.as_slice())?;
    let (condition, flights) = processor.standing();
    eprintln!(rt; "{answered} blocks answered; condition {condition}, {flights} flights")?;
    Ok(())
}
