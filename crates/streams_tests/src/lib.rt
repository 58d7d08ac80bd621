//! Readers and writers that give and take as they like, and what is read and written through them.
#![tactic(auto)]

use std::alloc::Global;
use std::io;
use std::io::{ErrorKind, Read, Write};

/// A reader over bytes in memory.
#[derive(Drop)]
pub struct Source<'a> {
    /// What is left to give.
    pub rest: &'a [u8],
    /// The most bytes that one read gives.
    pub most: usize,
    /// Whether every other read is interrupted.
    pub pauses: bool,
    /// Whether the next one is.
    pub is_due: bool,
    /// Whether an error stands where the bytes end.
    pub fails: bool,
}

impl Source<'_> {
    /// One that gives the bytes, so many a read, and then ends.
    pub fn new(rest: &[u8], most: usize) -> Source<'_> {
        Source {
            rest,
            most,
            pauses: false,
            is_due: false,
            fails: false,
        }
    }
}

impl Read for Source<'_> {
    fn read(&mut self, memory: &mut [u8]) -> io::Result<usize> {
        self.is_due = self.pauses && !self.is_due;
        if self.is_due {
            return Err(io::Error::new(ErrorKind::Interrupted, "not now"));
        }
        if self.fails && self.rest.is_empty() {
            return Err(io::Error::other("the wire is cut"));
        }
        let n = self.most.min(memory.len()).min(self.rest.len());
        memory[..n].copy_from_slice(&self.rest[..n]);
        self.rest = &self.rest[n..];
        Ok(n)
    }
}

/// A writer that holds bytes back until it is flushed.
#[derive(Drop)]
pub struct Sink {
    /// What it holds back.
    pub held: Vec<u8>,
    /// What was flushed.
    pub sent: Vec<u8>,
    /// The most bytes that one write takes.
    pub most: usize,
    /// How many bytes it takes until it fails.
    pub room: usize,
    /// Whether every other write is interrupted.
    pub pauses: bool,
    /// Whether the next one is.
    pub is_due: bool,
    /// Whether a flush fails.
    pub sticks: bool,
    /// How often it was flushed.
    pub flushes: u64,
}

impl Sink {
    /// One that takes so many bytes a write, without end.
    pub fn new(heap: Global, most: usize) -> Sink {
        Sink {
            held: Vec::new(heap),
            sent: Vec::new(heap),
            most,
            room: usize::MAX,
            pauses: false,
            is_due: false,
            sticks: false,
            flushes: 0,
        }
    }
}

impl Write for Sink {
    fn write(&mut self, text: &[u8]) -> io::Result<usize> {
        self.is_due = self.pauses && !self.is_due;
        if self.is_due {
            return Err(io::Error::new(ErrorKind::Interrupted, "not now"));
        }
        if self.room == 0 {
            return Err(io::Error::other("the disk is full"));
        }
        let n = self.most.min(text.len()).min(self.room);
        self.held.extend_from_slice(&text[..n])?;
        self.room -= n;
        Ok(n)
    }

    fn flush(&mut self) -> io::Result<()> {
        if self.sticks {
            return Err(io::Error::other("the pipe is stuck"));
        }
        self.sent.extend_from_slice(self.held.as_slice())?;
        self.held.clear();
        self.flushes = self.flushes.saturating_add(1);
        Ok(())
    }
}

#[cfg(test)]
mod tests {
    use super::*;
    use std::test::Fail;
    use streams::input::{read_all, read_front};
    use streams::output::write_all;

    // So many bytes, of which no two neighbours are equal.
    fn sample(heap: Global, length: usize) -> Result<Vec<u8>, Fail> {
        let mut bytes = Vec::new(heap);
        for i in 0..length {
            bytes.push((i % 251) as u8)?;
        }
        Ok(bytes)
    }

    // Whether of a source that gives so many bytes a read all come, and the first 4,096, and what
    // follows those stays.
    fn is_read(heap: Global, bytes: &[u8], most: usize, pauses: bool) -> Result<bool, Fail> {
        let mut source = Source::new(bytes, most);
        source.pauses = pauses;
        let all = read_all(heap, &mut source)?;
        let mut source = Source::new(bytes, most);
        source.pauses = pauses;
        let front = read_front(heap, &mut source, 4096)?;
        let (wanted, rest) = bytes.split_at(bytes.len().min(4096));
        Ok(all.as_slice() == bytes && front.as_slice() == wanted && source.rest == rest)
    }

    #[test]
    fn whole_inputs(rt: HostRuntime) -> Result<(), Fail> {
        for length in [0, 1, 4095, 4096, 4097, 70_000] {
            let bytes = sample(rt.alloc(), length)?;
            for most in [1, 7, 4096, 100_000] {
                for pauses in [false, true] {
                    let is_read = is_read(rt.alloc(), bytes.as_slice(), most, pauses)?;
                    assert!(rt; is_read, "{length} bytes by {most}, {pauses}");
                }
            }
        }
        Ok(())
    }

    #[test]
    fn fronts(rt: HostRuntime) -> Result<(), Fail> {
        for (most, front) in [
            (0, ""),
            (1, "a"),
            (4, "abcd"),
            (5, "abcde"),
            (u64::MAX, "abcde"),
        ] {
            let mut source = Source::new(b"abcde", 2);
            let text = read_front(rt.alloc(), &mut source, most)?;
            assert_eq!(rt; text.as_slice(), front.as_bytes());
        }
        // An error past the bytes that are wanted is not met.
        let mut source = Source::new(b"abc", 2);
        source.fails = true;
        let text = read_front(rt.alloc(), &mut source, 3)?;
        assert!(rt; text.as_slice() == b"abc".as_slice());
        Ok(())
    }

    #[test]
    fn cut_inputs(rt: HostRuntime) -> Result<(), Fail> {
        for (bytes, line) in [("abc", 1), ("a\nb", 2), ("\n\n\n", 4), ("", 1)] {
            let mut source = Source::new(bytes.as_bytes(), 2);
            source.fails = true;
            let unread = read_all(rt.alloc(), &mut source).expect_err(&rt, "an error");
            assert_eq!(rt; unread.line, line, "all of {bytes:?}");
            let mut source = Source::new(bytes.as_bytes(), 2);
            source.fails = true;
            let unread = read_front(rt.alloc(), &mut source, 4).expect_err(&rt, "an error");
            assert_eq!(rt; unread.line, line, "the front of {bytes:?}");
            let said = format!(in rt.alloc(); "{unread}")?;
            let wanted = format!(in rt.alloc();
                "cannot be read past line {line}: the wire is cut"
            )?;
            assert_eq!(rt; said, wanted);
        }
        Ok(())
    }

    #[test]
    fn whole_texts(rt: HostRuntime) -> Result<(), Fail> {
        for length in [0, 1, 4096, 70_000] {
            for most in [1, 7, 100_000] {
                let text = sample(rt.alloc(), length)?;
                let mut sink = Sink::new(rt.alloc(), most);
                sink.pauses = most == 7;
                write_all(&mut sink, text.as_slice())?;
                assert!(rt; sink.sent == text, "{length} bytes by {most}");
                assert!(rt; sink.held.is_empty() && sink.flushes == 1, "flushed once");
            }
        }
        Ok(())
    }

    #[test]
    fn cut_texts(rt: HostRuntime) {
        let mut sink = Sink::new(rt.alloc(), 2);
        sink.room = 3;
        let error = write_all(&mut sink, b"abcde").expect_err(&rt, "an error");
        assert!(rt; error.kind() == ErrorKind::Other && sink.flushes == 0);
        assert!(rt; sink.held.as_slice() == b"abc".as_slice());

        let mut sink = Sink::new(rt.alloc(), 0);
        let error = write_all(&mut sink, b"abcde").expect_err(&rt, "an error");
        assert!(rt; error.kind() == ErrorKind::WriteZero && sink.held.is_empty());

        let mut sink = Sink::new(rt.alloc(), 2);
        sink.sticks = true;
        let error = write_all(&mut sink, b"abcde").expect_err(&rt, "an error");
        assert!(rt; error.kind() == ErrorKind::Other);
        assert!(rt; sink.held.as_slice() == b"abcde".as_slice());
    }
}
