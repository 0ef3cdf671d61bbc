ghost use Rattle.std.specs.Prelude.{◌≡◌, Some};
ghost use Rattle.replies.specs.Worked.{WorkedTexts};
ghost use Rattle.processor.specs.Edges.{WorkedEdges};

use calendar::Days;

/// The minute of 010030 with base day 30 in a month of 30 days. All worked edges and worked texts of
/// the definitions stand in its contract.
pub fn worked_edge() -> Option<u16>
    ensures edges { WorkedEdges }
    ensures texts { WorkedTexts }
    ensures minute { result ≡ Some 1470 }
{
    let days = Days::read(b"30", b"30")?;
    let minute = days.read_time(b"010030")?;
    Some(minute.value())
}
