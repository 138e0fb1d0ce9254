// A capture walked to its end by one capture reader, which is kept from frame to frame and lent to each call; twice:
// every frame, then only the reports. Each line has the place that the reader has reached, the part's length and its
// kind.
use captures::{next, reader_at};
use lines::Line;
use std::io;

pub(crate) fn print_walks(rt: &impl Print, family: u8, capture: &[u8]) -> io::Result<()> {
    lines::print_text(rt, b"every frame")?;
    print_walk(rt, family, capture, false)?;
    lines::print_text(rt, b"only reports")?;
    print_walk(rt, family, capture, true)
}

// The reader is lent to each call, until there is no frame.
fn print_walk(rt: &impl Print, family: u8, capture: &[u8], reports: bool) -> io::Result<()> {
    let mut reader = reader_at(capture, 0);
    loop {
        let frame = next(&mut reader, family, reports);
        if frame.is_empty() {
            return Ok(());
        }
        print_frame(rt, family, frame, reader.place)?;
    }
}

fn print_frame(rt: &impl Print, family: u8, frame: &[u8], place: usize) -> io::Result<()> {
    let mut room = [0u8; 128];
    let mut line = Line::new(&mut room);
    line.number(place as u64);
    line.spaced(frame.len() as u64);
    line.text(b" ");
    listings::part_kind(&mut line, family, frame);
    line.print(rt)
}
