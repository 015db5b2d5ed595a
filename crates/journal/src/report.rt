// The report: writes the five counts and their total as one line to the front of a lent buffer.
ghost use Rattle.std.specs.Prelude.{◌≡◌, map, ◌+◌, ◌*◌, ◌≤◌, length};
ghost use Rattle.journal.specs.Line.{decimal};
ghost use Rattle.journal.specs.Steps.{comma_fields, Stored};
ghost use Rattle.journal.specs.Report.{report_reply, report_into};

use crate::Counts;
use crate::total::total_if_small;
use crate::writing::{put_byte, put_decimal};
use common::Refusal;

// Writes decimals, each behind a comma, and returns the place behind them. Buffer and place are two parameters, for the
// reasons that writing.rt gives.
fn put_decimals(out: &mut [u8], at: usize, ns: &[usize]) -> usize
    requires { at + 4 * length ns.now ≤ length out.old }
    ensures { (result ≡ at + length (comma_fields (map decimal ns.now))) × Stored out.old at (comma_fields (map decimal ns.now)) out.new × (result ≤ at + 4 * length ns.now) }
{
    let mut position = at;
    for n in ns {
        out[position] = b',';
        position = put_decimal(out, position + 1, *n);
    }
    position
}

// Writes the report to the front of the buffer, or refuses it and writes nothing.
#[tactic(auto, unfolding(crate::specs::Report::report_reply, crate::specs::Report::report_into, crate::specs::Report::refuses_report))]
pub fn write_report(counts: Counts, out: &mut [u8]) -> Result<usize, Refusal>
    ensures reply { result ≡ report_reply counts out.old }
    ensures written { out.new ≡ report_into counts out.old }
{
    let sum = total_if_small(counts).ok_or(Refusal::NotWritable)?;
    if out.len() < 24 {
        return Err(Refusal::NotWritable);
    }
    let at = put_decimal(out, 0, counts.scored);
    // These aren't the five counts: the first has no comma before it, and the sum stands behind the others.
    let others = [
        counts.host_failed,
        counts.bad_camera,
        counts.no_mean,
        counts.no_number,
        sum,
    ];
    let end = put_decimals(out, at, &others);
    put_byte(out, end, b'\n');
    Ok(end + 1)
}
