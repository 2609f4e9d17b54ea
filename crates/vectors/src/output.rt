// Text for standard output, gathered and written in blocks. A block that cannot be written is lost, and nothing says so.
use arrayvec::ArrayVec;
use mcode::Machine;
use std::fmt;
use std::io::Stdout;

// The text that is still to be written.
#[derive(Drop)]
pub struct Output {
    stdout: Stdout,
    waiting: ArrayVec<u8, 4096>,
}

impl Output {
    pub fn new(stdout: Stdout) -> Output {
        Output {
            stdout,
            waiting: ArrayVec::new(),
        }
    }

    // Writes what waits.
    pub fn flush(&mut self) {
        let _written = self.stdout.write_all(self.waiting.as_slice());
        self.waiting.clear();
    }

    // What a value shows, and the line's end.
    pub fn line<D: fmt::Display + Drop>(&mut self, shown: D) {
        let _printed = fmt::Write::writeln(self, shown);
    }
}

impl fmt::Write for Output {
    // What finds no room even in an empty block is written at once.
    fn write_str(&mut self, letters: &str) -> fmt::Result {
        let bytes = letters.as_bytes();
        if self.waiting.remaining_capacity() < bytes.len() {
            self.flush();
        }
        if self.waiting.try_extend_from_slice(bytes).is_err() {
            let _written = self.stdout.write_all(bytes);
        }
        Ok(())
    }
}

// Each word after a blank.
#[derive(Clone, Copy)]
pub struct Words<'a>(pub &'a [u16]);

impl fmt::Display for Words<'_> {
    fn fmt<W: fmt::Write>(&self, f: &mut fmt::Formatter<W>) -> fmt::Result {
        for word in self.0 {
            write!(f, " {word}")?;
        }
        Ok(())
    }
}

// Each entry in hex, eight digits.
#[derive(Clone, Copy)]
pub struct Entries<'a>(pub &'a [u32]);

impl fmt::Display for Entries<'_> {
    fn fmt<W: fmt::Write>(&self, f: &mut fmt::Formatter<W>) -> fmt::Result {
        for entry in self.0 {
            write!(f, "{entry:08x}")?;
        }
        Ok(())
    }
}

// The registers in the order of the file, and the stack without the zeros at its end.
#[derive(Clone, Copy)]
pub struct Shown<'a>(pub &'a Machine);

impl fmt::Display for Shown<'_> {
    fn fmt<W: fmt::Write>(&self, f: &mut fmt::Formatter<W>) -> fmt::Result {
        let r = self.0.registers;
        let stack = &self.0.stack;
        let used = stack
            .iter()
            .rposition(|word| *word != 0)
            .map_or(0, |i| i + 1);
        write!(
            f,
            "machine {} {} {} {} {} {} {} {} stack{}",
            r.unit,
            r.pc.0,
            r.depth,
            r.p.0,
            r.l.0,
            r.s.0,
            r.h.0,
            r.mask,
            Words(&stack[..used])
        )
    }
}
