// The journal: a line written to a lent buffer, a line read at a place, and the report of a run's counts.
ghost use Rattle.std.specs.Prelude.{◌≡◌};
ghost use Rattle.journal.specs.Reading.{read_line};
ghost use Rattle.journal.specs.Report.{report_reply, report_into};
ghost use Rattle.capi_records.specs.Journal.{flat_written, flat_read, record_reply, record_into};

use capi_records::journals::{LineRecord, ReadReply, WriteReply, read_reply};
use common::Refusal;
use journal::{Counts, NumberedLine, report, writing};

// Writes the line of a record. A record that is no line is refused before anything is written.
fn write_record(flat: LineRecord, to: &mut [u8]) -> Result<usize, Refusal>
    ensures reply { result ≡ record_reply flat to.old }
    ensures written { to.new ≡ record_into flat to.old }
{
    writing::write_numbered(NumberedLine::from(flat), to)
}

// Writes the line's bytes to the front of `to`: 0 and how many they are, or 28.
#[unsafe(no_mangle)]
pub extern "C" fn jc_write_line(line: LineRecord, to: &mut [u8]) -> WriteReply
    ensures reply { result ≡ flat_written (record_reply line to.old) }
    ensures written { to.new ≡ record_into line to.old }
{
    write_record(line, to).into()
}

// Reads the line at a place of a journal: the line, or the end, or 29.
#[unsafe(no_mangle)]
pub extern "C" fn jc_read_line(bytes: &[u8], at: usize) -> ReadReply
    ensures { result ≡ flat_read (read_line bytes.now at) at }
{
    read_reply(journal::reader::read_at(bytes, at), at)
}

// Writes the report's bytes to the front of `to`: 0 and how many they are, or 28.
#[unsafe(no_mangle)]
pub extern "C" fn jc_write_report(counts: Counts, to: &mut [u8]) -> WriteReply
    ensures reply { result ≡ flat_written (report_reply counts to.old) }
    ensures written { to.new ≡ report_into counts to.old }
{
    report::write_report(counts, to).into()
}
