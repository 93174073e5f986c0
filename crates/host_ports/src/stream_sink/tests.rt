// Writers that take few bytes at once, or fail in mid-stream, and a device that takes nothing.
use super::*;
use std::io::{Error, ErrorKind};
use std::test::Fail;
use std::{fs, io};

// A writer that takes at most so many bytes at once, and fails at one turn and at one flush. It keeps no byte, and says
// whether each was the next of the bytes 0, 1, .. 250, 0, 1, ..
#[derive(Drop)]
struct Witness {
    count: usize,
    in_order: bool,
    most: usize,
    turns: usize,
    failing: usize,
    flush_fails: bool,
}

// The byte of the row at a place.
fn byte_at(place: usize) -> u8 {
    (place % 251) as u8
}

impl Write for Witness {
    fn write(&mut self, buf: &[u8]) -> io::Result<usize> {
        let turn = self.turns;
        self.turns = turn.wrapping_add(1);
        if turn == self.failing {
            return Err(Error::from(ErrorKind::StorageFull));
        }
        let count = self.most.min(buf.len());
        for byte in &buf[..count] {
            self.in_order = self.in_order && *byte == byte_at(self.count);
            self.count = self.count.wrapping_add(1);
        }
        Ok(count)
    }

    fn flush(&mut self) -> io::Result<()> {
        if self.flush_fails {
            return Err(Error::from(ErrorKind::StorageFull));
        }
        Ok(())
    }
}

const NEVER: usize = usize::MAX;

fn witnessed(most: usize, failing: usize, flush_fails: bool) -> StdSink<Witness> {
    StdSink::new(Witness {
        count: 0,
        in_order: true,
        most,
        turns: 0,
        failing,
        flush_fails,
    })
}

// Writes so many pieces of the row, each of 100 bytes, and answers how many of them were taken.
fn write_pieces<K: Sink>(sink: &mut K, pieces: usize) -> usize {
    let mut taken = 0usize;
    for number in 0..pieces {
        let mut piece = [0; 100];
        for at in 0..100 {
            piece[at] = byte_at(number.wrapping_mul(100).wrapping_add(at));
        }
        if sink.write(&piece).is_ok() {
            taken = taken.wrapping_add(1);
        }
    }
    taken
}

// 100000 bytes fill the buffer six times, and 1696 wait; 163 pieces fit in it.
#[test]
fn a_long_text_arrives_whole_and_in_order(rt: HostRuntime) {
    let mut sink = witnessed(NEVER, NEVER, false);
    assert_eq!(rt; write_pieces(&mut sink, 1000), 1000);
    assert_eq!(rt; sink.out.turns, 6);
    assert_eq!(rt; sink.out.count, 6 * 16300);
    assert!(rt; sink.flush().is_ok());
    assert!(rt; sink.out.count == 100000 && sink.out.in_order && sink.faults == 0);
    let mut few = witnessed(7, NEVER, false);
    assert_eq!(rt; write_pieces(&mut few, 1000), 1000);
    assert!(rt; few.flush().is_ok());
    assert!(rt; few.out.count == 100000 && few.out.in_order && few.faults == 0);
}

// The second buffer fails at the piece with number 326, counted from 0: those from there on fail, and so does the flush.
#[test]
fn nothing_goes_out_after_a_failure(rt: HostRuntime) {
    let mut sink = witnessed(NEVER, 1, false);
    assert_eq!(rt; write_pieces(&mut sink, 1000), 326);
    assert!(rt; sink.flush().is_err());
    assert!(rt; sink.out.count == 16300 && sink.out.in_order && sink.out.turns == 2);
    assert_eq!(rt; sink.faults, 675);
}

#[test]
fn a_flush_that_fails_is_a_fault(rt: HostRuntime) {
    let mut sink = witnessed(NEVER, NEVER, true);
    assert!(rt; sink.write(&[0]).is_ok());
    assert!(rt; sink.flush().is_err());
    assert!(rt; sink.write(&[1]).is_err());
    assert!(rt; sink.out.count == 1 && sink.faults == 2);
}

#[test]
fn a_device_that_takes_nothing_fails_at_the_flush(rt: HostRuntime) -> Result<(), Fail> {
    let mut full = StdSink::new(fs::create(&rt, "/dev/full")?);
    assert!(rt; full.write(b"one").is_ok());
    assert!(rt; full.flush().is_err());
    assert!(rt; full.write(b"two").is_err());
    assert!(rt; full.flush().is_err());
    assert_eq!(rt; full.faults, 3);
    Ok(())
}
