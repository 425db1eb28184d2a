// Prints what `sizes` says of every size, of some children, and of the rows of standard input: an address and an end each, little-endian.
// The expected lines are the original Rust's (`oracle sizes`).
#![tactic(auto)]

ghost use Rattle.std.specs.Prelude.{◌≤◌, length};

use sizes::{Address, PageSize};
use std::io;
use std::io::{Cursor, Read, Write};

// How many bytes of rows are read at most.
const ROOM: usize = 65536;

// How many bytes a row has.
const ROW: usize = 16;

// How many bytes a line has at most.
const LINE: usize = 128;

// A line while it is put together.
fn new_line() -> Cursor<[u8; LINE]> {
    Cursor::new([0; LINE])
}

// Writes a line as a whole, so that it is not mixed with what others write.
fn write_line(output: &mut impl Write, line: &Cursor<[u8; LINE]>) -> io::Result<()> {
    let length = line.position() as usize;
    output.write_all(&line.get_ref()[..length.min(LINE)])
}

// What the functions by bare code say of a size.
fn size_line(output: &mut impl Write, code: usize) -> io::Result<()> {
    let mut line = new_line();
    writeln!(
        line,
        "size {code} {} {} {} {}",
        sizes::in_bytes(code),
        sizes::smaller(code),
        sizes::larger(code),
        sizes::number_of_smaller_pages(code)
    )?;
    write_line(output, &line)
}

// The child at the index, and the index of its address.
fn child_line(
    output: &mut impl Write,
    base: Address,
    size: PageSize,
    index: usize,
) -> io::Result<()> {
    let (address, below) = match sizes::child_address_and_size(base, size.code(), index) {
        Some(child) => (child.address, child.size.code()),
        None => (Address(0), 0),
    };
    let back = sizes::calculate_child_index(base, size.code(), address);
    let mut line = new_line();
    writeln!(
        line,
        "child {} {} {index} {} {below} {back}",
        base.0,
        size.code(),
        address.0
    )?;
    write_line(output, &line)
}

// The first, the second and the last child of the size's second node; of the largest size there is one node only.
fn child_lines(output: &mut impl Write, size: PageSize) -> io::Result<()> {
    let base = match size.larger() {
        Some(_) => Address(size.in_bytes()),
        None => Address(0),
    };
    let pages = size.number_of_smaller_pages();
    if 1 < pages {
        for index in [0, 1, pages - 1] {
            child_line(output, base, size, index)?;
        }
    }
    Ok(())
}

// What is said of each size and of its children.
fn size_lines(output: &mut impl Write) -> io::Result<()> {
    for code in sizes::smallest()..sizes::largest() + 1 {
        size_line(output, code)?;
        if let Ok(size) = PageSize::try_from(code as u64) {
            child_lines(output, size)?;
        }
    }
    Ok(())
}

// The address and the end of a row.
fn address_and_end(row: &[u8; ROW]) -> (Address, Address) {
    let (numbers, _) = row.as_chunks::<8>();
    let address = u64::from_le_bytes(numbers[0]);
    let end = u64::from_le_bytes(numbers[1]);
    (Address(address), Address(end))
}

// What is said of a row.
fn row_line(output: &mut impl Write, row: &[u8; ROW]) -> io::Result<()> {
    let (address, end) = address_and_end(row);
    let largest = sizes::find_largest_page_size(address, end).map_or(0, PageSize::code);
    let mut line = new_line();
    writeln!(line, "largest {} {} {largest}", address.0, end.0)?;
    write_line(output, &line)
}

// Reads until the buffer is full, the input ends or a read fails, and answers how many bytes came, and that error.
fn read_full(input: &mut impl Read, buffer: &mut [u8]) -> (usize, io::Result<()>)
    ensures { result.0 ≤ length buffer.old }
{
    let mut done = 0;
    for _ in 0..buffer.len() {
        match input.read(&mut buffer[done..]) {
            Ok(0) => return (done, Ok(())),
            Ok(got) => done += got,
            Err(error) => return (done, Err(error)),
        }
    }
    (done, Ok(()))
}

// What is said of each row that came whole. All rows are read before the first is spoken of, so that who writes them need not
// read meanwhile; where a read fails, the rows before it have their lines.
fn row_lines(input: &mut impl Read, output: &mut impl Write) -> io::Result<()> {
    let mut buffer = [0; ROOM];
    let (length, read) = read_full(input, &mut buffer);
    let (rows, _) = buffer[..length].as_chunks::<ROW>();
    for row in rows {
        row_line(output, row)?;
    }
    read
}

// All lines.
fn lines(input: &mut impl Read, output: &mut impl Write) -> io::Result<()> {
    size_lines(output)?;
    row_lines(input, output)
}

fn main(rt: HostRuntime) -> io::Result<()> {
    lines(&mut rt.reader(), &mut io::writer(&rt))
}

#[cfg(test)]
mod tests {
    use super::*;
    use std::test::Fail;

    // Gives the bytes that are left, and then fails.
    #[derive(Drop)]
    struct Source<'a> {
        left: &'a [u8],
    }

    impl Read for Source<'_> {
        fn read(&mut self, buf: &mut [u8]) -> io::Result<usize> {
            let left = self.left;
            if left.len() == 0 {
                return Err(io::Error::from_raw_os_error(5));
            }
            let most = left.len().min(buf.len());
            buf[..most].copy_from_slice(&left[..most]);
            self.left = &left[most..];
            Ok(most)
        }
    }

    // Takes all bytes, and counts the writes.
    #[derive(Drop)]
    struct Sink {
        taken: Vec<u8>,
        writes: u64,
    }

    impl Write for Sink {
        fn write(&mut self, buf: &[u8]) -> io::Result<usize> {
            self.taken.extend_from_slice(buf)?;
            self.writes = self.writes.wrapping_add(1);
            Ok(buf.len())
        }

        fn flush(&mut self) -> io::Result<()> {
            Ok(())
        }
    }

    #[test]
    fn a_read_fails(rt: HostRuntime) -> Result<(), Fail> {
        let mut rows = [0; 40];
        rows[9] = 16;
        rows[25] = 64;
        let mut output = Sink {
            taken: Vec::new(rt.alloc()),
            writes: 0,
        };
        let ended = row_lines(&mut Source { left: &rows }, &mut output);
        assert!(rt; ended.is_err());
        let _ = ended;
        assert!(rt; output.taken.as_slice() == b"largest 0 4096 1\nlargest 0 16384 2\n".as_slice());
        assert!(rt; output.writes == 2);
        Ok(())
    }
}
