// Readers and writers that give and take few bytes, and fail in mid-stream.
use super::*;

// A reader that gives at most so many bytes at once, and fails at a turn.
#[derive(Drop)]
struct FewAtOnce<'a> {
    left: &'a [u8],
    most: usize,
    turns: usize,
    failing: usize,
}

impl Read for FewAtOnce<'_> {
    fn read(&mut self, buf: &mut [u8]) -> io::Result<usize> {
        let turn = self.turns;
        self.turns = turn.wrapping_add(1);
        if turn == self.failing {
            return Err(Error::from(ErrorKind::TimedOut));
        }
        let count = self.most.min(buf.len()).min(self.left.len());
        let (given, left) = self.left.split_at(count);
        buf[..count].copy_from_slice(given);
        self.left = left;
        Ok(count)
    }
}

// A writer that takes at most so many bytes at once, none at one turn, and fails at another.
#[derive(Drop)]
struct TakesFew {
    taken: [u8; 16],
    count: usize,
    most: usize,
    turns: usize,
    idle: usize,
    failing: usize,
}

impl Write for TakesFew {
    fn write(&mut self, buf: &[u8]) -> io::Result<usize> {
        let turn = self.turns;
        self.turns = turn.wrapping_add(1);
        if turn == self.failing {
            return Err(Error::from(ErrorKind::StorageFull));
        }
        if turn == self.idle {
            return Ok(0);
        }
        let at = self.count.min(16);
        let count = self.most.min(buf.len()).min(16 - at);
        self.taken[at..at + count].copy_from_slice(&buf[..count]);
        self.count = at + count;
        Ok(count)
    }

    fn flush(&mut self) -> io::Result<()> {
        Ok(())
    }
}

const NEVER: usize = usize::MAX;

// Whether these bytes are read of a reader that gives so many at once.
fn reads(alloc: Global, all: &[u8], most: usize, cap: usize, wanted: &[u8]) -> bool {
    let mut input = FewAtOnce {
        left: all,
        most,
        turns: 0,
        failing: NEVER,
    };
    match read_up_to(&mut input, alloc, cap) {
        Ok(bytes) => bytes.as_slice() == wanted,
        Err(_) => false,
    }
}

// Whether a reader that fails at a turn is answered with Failed.
fn fails(alloc: Global, failing: usize) -> bool {
    let mut input = FewAtOnce {
        left: b"0123456789",
        most: 4,
        turns: 0,
        failing,
    };
    match read_up_to(&mut input, alloc, 100) {
        Ok(_) => false,
        Err(fault) => matches!(fault, FetchFault::Failed),
    }
}

// Whether a writer takes these bytes of "0123456789", and that is answered with Ok where all were wanted.
fn takes(most: usize, idle: usize, failing: usize, wanted: &[u8]) -> bool {
    let mut out = TakesFew {
        taken: [0; 16],
        count: 0,
        most,
        turns: 0,
        idle,
        failing,
    };
    let is_ok = write_whole(&mut out, b"0123456789").is_ok();
    is_ok == (wanted.len() == 10) && &out.taken[..out.count.min(16)] == wanted
}

#[test]
fn a_reader_is_read_to_its_end_or_to_the_cap(rt: HostRuntime) {
    let alloc = rt.alloc();
    let long = [b'x'; 10000];
    assert!(rt; reads(alloc, b"0123456789", 3, 100, b"0123456789"));
    assert!(rt; reads(alloc, b"0123456789", 3, 7, b"0123456"));
    assert!(rt; reads(alloc, b"0123456789", 100, 0, b""));
    assert!(rt; reads(alloc, &long, NEVER, 20000, &long));
    assert!(rt; reads(alloc, &long, NEVER, 5000, &long[..5000]));
}

#[test]
fn an_error_in_mid_stream_is_a_failure(rt: HostRuntime) {
    let alloc = rt.alloc();
    for turn in 0..4 {
        assert!(rt; fails(alloc, turn), "at {turn}");
    }
}

#[test]
fn all_bytes_are_written_or_the_write_fails(rt: HostRuntime) {
    assert!(rt; takes(3, NEVER, NEVER, b"0123456789"));
    assert!(rt; takes(100, NEVER, NEVER, b"0123456789"));
    assert!(rt; takes(3, 2, NEVER, b"012345"));
    assert!(rt; takes(3, NEVER, 1, b"012"));
    assert!(rt; takes(3, NEVER, 0, b""));
}
