// The lines of a source that gives one byte a read, as one that is typed at does.
ghost use Rattle.std.specs.Prelude.{Some};

use pac_lines::{LineError, LineReader};
use pac_outside::{Failed, MemSource, Source};
use std::alloc::{AllocError, Global};
use std::test::Fail;

/// The source.
#[derive(Drop)]
struct Typed {
    inner: MemSource,
}

impl Source for Typed {
    ghost left = { λ source. Some source.inner.left };

    ghost faults = { λ source. source.inner.calls.faults };

    fn read(&mut self, buf: &mut [u8]) -> Result<usize, Failed> {
        let room = buf.len().min(1);
        self.inner.read(&mut buf[..room])
    }
}

// What a call for the next line answers: a line, the end, or an error.
type Answer = Result<Option<&'static [u8]>, LineError>;

const END: Answer = Ok(None);

const FAILED: Answer = Err(LineError::Failed);

const TOO_LONG: Answer = Err(LineError::TooLong);

// A text, the limit, the most bytes of a line, the read that fails, and what the calls answer.
type Row = (&'static [u8], u32, u32, u64, &'static [Answer]);

const ROWS: &[Row] = &[
    (b"", 0, 9, 0, &[END, END]),
    (
        b"a\r\n\nb",
        9,
        9,
        0,
        &[Ok(Some(b"a\r")), Ok(Some(b"")), Ok(Some(b"b")), END],
    ),
    // A line comes before the next byte is asked for.
    (
        b"ab\ncd",
        9,
        9,
        4,
        &[Ok(Some(b"ab")), FAILED, Ok(Some(b"cd")), END],
    ),
    (
        b"ab\ncd\n",
        9,
        9,
        5,
        &[Ok(Some(b"ab")), FAILED, Ok(Some(b"cd")), END],
    ),
    (
        b"ab\ncd",
        5,
        9,
        6,
        &[Ok(Some(b"ab")), FAILED, Ok(Some(b"cd")), END],
    ),
    // One byte over the limit is too long, and stays so.
    (
        b"ab\ncd\ne",
        6,
        9,
        0,
        &[Ok(Some(b"ab")), Ok(Some(b"cd")), TOO_LONG, TOO_LONG],
    ),
    (
        b"ab\ncd\ne",
        5,
        9,
        0,
        &[Ok(Some(b"ab")), TOO_LONG, TOO_LONG],
    ),
    // A line that is longer than the most is handed out up to a byte more, whether it ends or not.
    (
        b"ab\nabc\nabcdef\nab\nabcdefgh",
        99,
        2,
        0,
        &[
            Ok(Some(b"ab")),
            Ok(Some(b"abc")),
            Ok(Some(b"abc")),
            Ok(Some(b"ab")),
            Ok(Some(b"abc")),
            END,
        ],
    ),
    (
        b"abcdef\nab",
        99,
        0,
        5,
        &[FAILED, Ok(Some(b"a")), Ok(Some(b"a")), END],
    ),
];

fn answers(reader: &mut LineReader, source: &mut Typed, wanted: Answer) -> bool {
    match (reader.next_line(source), wanted) {
        (Ok(true), Ok(Some(line))) => reader.line() == line,
        (Ok(false), Ok(None)) => reader.line().is_empty(),
        (Err(found), Err(error)) => found == error && reader.line().is_empty(),
        _ => false,
    }
}

// How many calls answer as expected before the first that doesn't.
fn count_right(reader: &mut LineReader, source: &mut Typed, calls: &[Answer]) -> usize {
    let mut count = 0usize;
    for &wanted in calls {
        if !answers(reader, source, wanted) {
            return count;
        }
        count = count.saturating_add(1);
    }
    count
}

// The same over a new reader with this limit.
fn count_read(alloc: Global, source: &mut Typed, row: &Row) -> usize {
    let mut reader = LineReader::new(alloc, row.1, row.2);
    count_right(&mut reader, source, row.4)
}

fn source_of(alloc: Global, row: &Row) -> Result<Typed, AllocError> {
    let bytes = row.0.to_vec(alloc)?;
    let inner = MemSource::new(bytes, [row.3].to_vec(alloc)?);
    Ok(Typed { inner })
}

fn count_in(alloc: Global, row: &Row) -> Result<usize, AllocError> {
    let mut source = source_of(alloc, row)?;
    Ok(count_read(alloc, &mut source, row))
}

#[test]
fn a_line_that_is_typed_comes_before_the_next_byte(rt: HostRuntime) -> Result<(), Fail> {
    for row in ROWS {
        assert_eq!(rt;
            count_in(rt.alloc(), row)?,
            row.4.len(),
            "{} bytes, {}",
            row.0.len(),
            row.1
        );
    }
    Ok(())
}
