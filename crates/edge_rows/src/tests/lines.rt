//! Worked cases of lines, sources and sinks.
use io_edge::{
    Line, LineFault, Lines, MemSink, MemSource, PutFault, Sink, Source, StdSink, StdSource, Take,
};
use std::alloc::{AllocError, Global};
use std::io;
use std::io::{ErrorKind, Read, Write};
use std::test::Fail;

/// The answers of calls for the next line: each text and `|`, `L|` for a long line, `!` for a fault of the source. The
/// last is `.` for the end or `#` at the limit.
fn answers<S: Source>(alloc: Global, source: &mut S, limit: u64) -> Result<Vec<u8>, AllocError> {
    let mut lines = Lines::new(alloc, limit)?;
    let mut said = Vec::new(alloc);
    for _ in 0..16 {
        match lines.next_line(source) {
            Ok(Line::Text) => {
                said.extend_from_slice(lines.text())?;
                said.push(b'|')?;
            }
            Ok(Line::Long { .. }) => said.extend_from_slice(b"L|")?,
            Ok(Line::End) => {
                said.push(b'.')?;
                break;
            }
            Err(LineFault::Source) => said.push(b'!')?,
            Err(LineFault::TooLong) => {
                said.push(b'#')?;
                break;
            }
        }
    }
    Ok(said)
}

const LINES: &[(&[u8], u64, &[u8])] = &[
    (b"", 100, b"."),
    (b"\n\n", 100, b"||."),
    (b"ab\ncd\n", 100, b"ab|cd|."),
    (b"ab\r\n\r\ncd", 100, b"ab||cd|."),
    (b"ab\r\r\n", 100, b"ab\r|."),
    (b"a\rb\n", 100, b"a\rb|."),
    (b"ab\r", 100, b"ab\r|."),
    (b"\r", 100, b"\r|."),
    (b"ab\ncd\n", 7, b"ab|cd|."),
    (b"ab\ncd\n", 6, b"ab|cd|#"),
    (b"ab\ncd\n", 5, b"ab|#"),
    (b"ab\n", 0, b"#"),
];

// The number of bytes that are taken at once.
const PIECES: &[usize] = &[1, 3, 1000];

// The answers of calls for the next line of a text that is taken by pieces.
fn answers_by(
    alloc: Global,
    bytes: Vec<u8>,
    piece: usize,
    limit: u64,
) -> Result<Vec<u8>, AllocError> {
    if piece == 0 {
        return Err(AllocError);
    }
    let mut source = MemSource::new(bytes, piece, Vec::new(alloc));
    answers(alloc, &mut source, limit)
}

// True if a text is cut into these lines.
fn is_cut(
    alloc: Global,
    text: &[u8],
    piece: usize,
    limit: u64,
    want: &[u8],
) -> Result<bool, AllocError> {
    let said = answers_by(alloc, text.to_vec(alloc)?, piece, limit)?;
    Ok(said.as_slice() == want)
}

#[test]
fn texts_are_cut_into_lines(rt: HostRuntime) -> Result<(), Fail> {
    for &(text, limit, want) in LINES {
        for &piece in PIECES {
            assert!(rt;
                is_cut(rt.alloc(), text, piece, limit, want)?,
                "{text:?} by {piece}"
            );
        }
    }
    Ok(())
}

const LONG: &[(usize, &[u8], bool)] = &[
    (65_536, b"\nab\n", false),
    (65_537, b"\nab\n", true),
    (65_536, b"\r\nab\n", false),
    (65_537, b"\r\nab\n", true),
    (200_000, b"\nab\n", true),
    (200_000, b"\r\nab", true),
];

// True if a line of this length, with these bytes after it, is answered as long or whole, as `long` says.
fn is_told(
    alloc: Global,
    length: usize,
    end: &[u8],
    piece: usize,
    long: bool,
) -> Result<bool, AllocError> {
    let mut bytes = vec![in alloc; b'x'; length]?;
    bytes.extend_from_slice(end)?;
    let said = answers_by(alloc, bytes, piece, 1_000_000)?;
    if long {
        return Ok(said.as_slice() == b"L|ab|.".as_slice());
    }
    Ok(said.len() == length.saturating_add(5) && said.ends_with(b"|ab|."))
}

#[test]
fn long_lines_are_told(rt: HostRuntime) -> Result<(), Fail> {
    for &(length, end, long) in LONG {
        for &piece in PIECES {
            assert!(rt;
                is_told(rt.alloc(), length, end, piece, long)?,
                "{length} {piece}"
            );
        }
    }
    Ok(())
}

#[test]
fn a_fault_loses_nothing(rt: HostRuntime) -> Result<(), Fail> {
    let mut fails = Vec::new(rt.alloc());
    fails.push(1)?;
    fails.push(2)?;
    fails.push(4)?;
    let bytes = b"ab\ncdef\ng".to_vec(rt.alloc())?;
    let mut source = MemSource::new(bytes, 4, fails);
    let said = answers(rt.alloc(), &mut source, 100)?;
    assert_eq!(rt; said.as_slice(), b"ab|!!cdef|!g|.".as_slice());
    Ok(())
}

#[test]
fn a_reader_of_std(rt: HostRuntime) -> Result<(), Fail> {
    let text: &[u8] = b"ab\r\ncd";
    let mut source = StdSource::new(text);
    let said = answers(rt.alloc(), &mut source, 100)?;
    assert_eq!(rt; said.as_slice(), b"ab|cd|.".as_slice());
    assert_eq!(rt; source.take(&mut [0; 4]), Take::End);
    Ok(())
}

#[test]
fn writers_of_std(rt: HostRuntime) {
    let mut out = Vec::new(rt.alloc());
    let mut sink = StdSink::new(&mut out);
    assert_eq!(rt;
        [sink.put(b"ab"), sink.put(b""), sink.put(b"cd")],
        [Ok(()); 3]
    );
    drop(sink);
    assert_eq!(rt; out.as_slice(), b"abcd".as_slice());

    // A writer that takes nothing.
    let mut room = [0; 3];
    let mut full = StdSink::new(room.as_mut_slice());
    assert_eq!(rt;
        [full.put(b"abc"), full.put(b"d")],
        [Ok(()), Err(PutFault::Failed)]
    );
}

// The bytes read and written, after this number of interrupted calls.
#[derive(Drop)]
struct Interrupted<T> {
    inner: T,
    times: u32,
}

impl<T> Interrupted<T> {
    fn is_now(&mut self) -> bool {
        let times = self.times;
        self.times = times.saturating_sub(1);
        times > 0
    }
}

impl<T: Read> Read for Interrupted<T> {
    fn read(&mut self, buf: &mut [u8]) -> io::Result<usize> {
        if self.is_now() {
            return Err(io::Error::from(ErrorKind::Interrupted));
        }
        self.inner.read(buf)
    }
}

impl<T: Write> Write for Interrupted<T> {
    fn write(&mut self, buf: &[u8]) -> io::Result<usize> {
        if self.is_now() {
            return Err(io::Error::from(ErrorKind::Interrupted));
        }
        self.inner.write(buf)
    }

    fn flush(&mut self) -> io::Result<()> {
        self.inner.flush()
    }
}

#[test]
fn an_interrupted_call_goes_on(rt: HostRuntime) -> Result<(), Fail> {
    let text: &[u8] = b"ab";
    let mut source = StdSource::new(Interrupted {
        inner: text,
        times: 3,
    });
    assert_eq!(rt; source.take(&mut [0; 4]), Take::Bytes(2));
    let mut out = Vec::new(rt.alloc());
    let mut sink = StdSink::new(Interrupted {
        inner: &mut out,
        times: 3,
    });
    assert_eq!(rt; sink.put(b"ab"), Ok(()));
    drop(sink);
    assert_eq!(rt; out.as_slice(), b"ab".as_slice());
    Ok(())
}

#[test]
fn puts_fail_where_they_are_told_to(rt: HostRuntime) -> Result<(), Fail> {
    let mut fails = Vec::new(rt.alloc());
    fails.push(1)?;
    let mut sink = MemSink::new(rt.alloc(), fails);
    assert_eq!(rt; sink.put(b"ab"), Ok(()));
    assert_eq!(rt; sink.put(b"cd"), Err(PutFault::Failed));
    assert_eq!(rt; sink.put(b"ef"), Ok(()));
    assert_eq!(rt; sink.bytes(), b"abef".as_slice());
    Ok(())
}
