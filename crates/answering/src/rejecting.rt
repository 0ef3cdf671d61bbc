ghost use Rattle.std.specs.Prelude.{◌≡◌, ◌+◌, ◌*◌, ◌<◌, ◌≤◌, map, length};
ghost use Rattle.text.specs.Lines.{line_of};
ghost use Rattle.writing.specs.Overlay.{Wrote};
ghost use Rattle.writing.specs.Writers.{HasRoom, Puts};
ghost use Rattle.plan.specs.Rows.{row_of, number_of};
ghost use Rattle.answering.specs.Replies.{faults, fault_lines, line_in, rejected_first, rejected_lines};

use plan::Row;
use replies::{put_fault, put_rejected};
use text::Line;
use writing::Writer;

/// The reply to a packet that is rejected for its first line, by a number below 1,000.
// Kept: the id as bytes with a bound, since `-` stands where no identifier was read; and a number, as in put_fault.
pub fn put_first_fault(out: &mut [u8], id: &[u8], first: Line, number: u32) -> usize
    requires short_id { length id.now ≤ 16 }
    requires short_line { length first.text.now ≤ 160 }
    requires small { number < 1000 }
    requires room { 40960 ≤ length out.old }
    ensures wrote { Wrote out.old 0 (rejected_first id.now (line_of first.entry) number) out.new result }
{
    let mut reply = Writer::new(out);
    put_rejected(&mut reply, id, 1);
    put_fault(&mut reply, first.text, number);
    reply.written()
}

/// How many rows have a fault.
#[tactic(auto, using(crate::proofs::Faults::faults_counted, crate::proofs::Faults::faulty_where))]
fn count_faults(rows: &[Row]) -> usize
    ensures count { result ≡ faults (map number_of rows.now) }
    ensures few { result ≤ length rows.now }
{
    rows.iter().filter(|row| row.fault().is_some()).count()
}

/// Every faulty line, in order, each followed by its own number.
fn put_faults(reply: &mut Writer, rows: &[Row])
    requires room { HasRoom reply.old (169 * length rows.now) }
    ensures puts { Puts reply.old (fault_lines (map line_in (map row_of rows.now)) (map number_of rows.now)) reply.new }
{
    for row in rows {
        if let Some(refusal) = row.fault() {
            put_fault(reply, row.text(), refusal.number());
        }
    }
}

/// The reply to a packet that is rejected for its message lines.
pub fn put_line_faults(out: &mut [u8], id: &[u8], rows: &[Row]) -> usize
    requires short { length id.now ≤ 16 }
    requires few { length rows.now ≤ 64 }
    requires room { 40960 ≤ length out.old }
    ensures wrote { Wrote out.old 0 (rejected_lines id.now (map line_in (map row_of rows.now)) (map number_of rows.now)) out.new result }
{
    let mut reply = Writer::new(out);
    put_rejected(&mut reply, id, count_faults(rows));
    put_faults(&mut reply, rows);
    reply.written()
}
