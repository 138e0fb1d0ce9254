// A frame as text, for the programs: its kind, its values, and what the writer makes of it. Each
// function lays text into a lent line, at the place reached; what has no room is left out.
ghost use Rattle.lines.specs.Lines.{LineTypes};
ghost use Rattle.replays.specs.Texts.{written_texts, frame_texts};

use crate::values;
use lines::Line;
use listings::kind;
use records::fields_of;
use rules::{Frame, LONGEST_REPORT};

// The written bytes, or `-` where nothing is written.
fn written(line: &mut Line<'_>, frame: Frame)
    ensures { LineTypes (written_texts frame) line.old line.new }
{
    let mut out = [0u8; LONGEST_REPORT];
    match row_writer::write_frame(frame, &mut out) {
        Ok(n) => line.hex(&out[..n]),
        Err(_) => line.text(b"-"),
    }
}

// The kind, the values, and behind a bar what the writer makes of them.
pub fn frame(line: &mut Line<'_>, frame: Frame)
    ensures { LineTypes (frame_texts frame) line.old line.new }
{
    let told = fields_of(frame);
    kind(line, told.kind);
    values::asked(line, told.kind);
    values::shown(
        line,
        &values::forms_of(told.kind),
        &told.values[..told.count],
    );
    line.text(b" | ");
    written(line, frame);
}
