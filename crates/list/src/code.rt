// A module's code, one line an instruction.
ghost use Rattle.std.specs.Prelude.{true, ◌≡◌, ◌+◌, ◌-◌, ◌/◌, ◌%◌, ◌<◌, [], ◌∷◌, ◌++◌, length, replicate};
ghost use Rattle.std.specs.Fmt.{decimal, digit_glyph};

use explain::shown::{NO_DEPTH, Note};
use itoa::{Buffer, write_digits};
use listing::bytes::byte_from;
use listing::causes::words_of;
use listing::cell::cell_of;
use listing::instruction::{Instruction, instruction_at};
use listing::names::name_of;
use listing::page::Page;
use listing::procedure::entered;
use listing::search::marked_from;
use marks::UNMARKED;
use mcode::Module;

// The columns: position, depth, bytes, instruction.
pub const COLUMNS: &str = "   pos  depth  bytes     instruction\n";

// The code of module m of an image, with the marks of its positions and what is noted of them.
#[derive(Clone, Copy)]
pub struct Code<'a> {
    pub image: &'a [u8],
    pub m: Module,
    pub marks: &'a [u32],
    pub notes: &'a [Option<Note>],
    ghost whole: { (length marks.now ≡ m.length) × (length notes.now ≡ m.length) },
}

// What stands in every line is written with no format string, which would take most of the time.

// A number at the right end of a column of six.
fn column_of(n: u16) -> [u8; 6]
    ensures { result ≡ replicate (6 - length (decimal n)) 32 ++ decimal n }
{
    let mut column = [b' '; 6];
    write_digits(n as u64, &mut column, 6);
    column
}

fn hex_digit(n: u8) -> u8
    requires { n < 16 }
    ensures { result ≡ digit_glyph true n }
{
    if n < 10 { b'0' + n } else { b'A' - 10 + n }
}

// A byte as two hexadecimal digits, and a blank.
fn hex(byte: u8) -> [u8; 3]
    ensures { result ≡ digit_glyph true (byte / 16) ∷ digit_glyph true (byte % 16) ∷ 32 ∷ [] }
{
    [hex_digit(byte / 16), hex_digit(byte % 16), b' ']
}

// A byte as three octal digits.
fn octal(byte: u8) -> [u8; 3]
    ensures { result ≡ (48 + byte / 64) ∷ (48 + byte / 8 % 8) ∷ (48 + byte % 8) ∷ [] }
{
    [b'0' + byte / 64, b'0' + byte / 8 % 8, b'0' + byte % 8]
}

// A text, and a number behind it: there may be thousands of procedures.
pub fn put_numbered(page: &mut Page, text: &[u8], n: u16) {
    let mut digits = Buffer::new();
    page.text(text);
    page.text(digits.format(n).as_bytes());
}

fn put_place(page: &mut Page, p: u16) {
    page.text(&column_of(p));
}

// A mark at the right end of its column; one of more than 5 letters pushes the rest of the line to the right. - where no depth was found.
fn put_depth(page: &mut Page, mark: u32) {
    if mark == NO_DEPTH {
        page.text(b"      -  ");
    } else {
        let cell = cell_of(mark);
        page.text(&b"       "[cell.len().min(5)..]);
        page.text(cell.as_str().as_bytes());
        page.text(b"  ");
    }
}

// What is wrong with an instruction, at the end of its line.
fn put_note(page: &mut Page, note: Option<Note>) {
    match note {
        Some(Note::Fault(cause)) => {
            page.text(b"  <- ");
            page.text(words_of(cause).as_bytes());
        }
        Some(Note::Meet) => page.print("  <- two depths meet"),
        Some(Note::Rule) => page.print("  <- the depth does not fit"),
        None => {}
    }
}

impl Code<'_> {
    // A line for each procedure that enters at p. (The search says where the next one is, so no range counts them.)
    fn put_labels(self, page: &mut Page, p: u16) {
        let mut next = entered(self.image, self.m, p, 0);
        while let Some(i) = next {
            put_numbered(page, b"procedure ", i as u16);
            page.text(b":\n");
            next = entered(self.image, self.m, p, i + 1);
        }
    }

    // The bytes of the code from a to e.
    fn put_bytes(self, page: &mut Page, a: usize, e: usize) {
        for p in a..e {
            page.text(&hex(byte_from(self.image, self.m.code, p)));
        }
    }

    // The n first bytes of the instruction at p, up to the next column, which begins behind three bytes; more push it to the right.
    fn put_bytes_column(self, page: &mut Page, p: u16, n: u8) {
        let at = p as usize;
        self.put_bytes(page, at, at + n as usize);
        for _ in n..3 {
            page.print("   ");
        }
        page.print(" ");
    }

    // The bytes and the words of an instruction. Of one that is not listed, or whose operands lie outside the code, there is the opcode.
    fn put_instruction(self, page: &mut Page, p: u16, i: Instruction) {
        if let Some(size) = i.size {
            self.put_bytes_column(page, p, size);
            page.print(i);
            return;
        }
        self.put_bytes_column(page, p, 1);
        page.text(&octal(i.op));
        if let Some(name) = name_of(i.op) {
            page.print(format_args!(" {name}"));
        }
    }

    // A marked instruction, with what is noted of it. Answers where it ends; one that is not listed, or whose operands lie outside the code,
    // is one byte.
    fn put_marked(self, page: &mut Page, p: u16, mark: u32, note: Option<Note>) -> usize {
        self.put_labels(page, p);
        let i = instruction_at(self.image, self.m, p);
        put_place(page, p);
        put_depth(page, mark);
        self.put_instruction(page, p, i);
        put_note(page, note);
        page.print("\n");
        p as usize + i.size.unwrap_or(1) as usize
    }

    // Bytes that no marked instruction covers, from `at` on, of which a line shows at most 8. Answers where they end.
    fn put_unreached(self, page: &mut Page, at: usize) -> usize
        requires { at < length self.marks.now }
        ensures { at < result }
    {
        let next = marked_from(self.marks, at + 1).unwrap_or(self.marks.len());
        let e = next.min(at + 8);
        put_place(page, at as u16);
        put_depth(page, NO_DEPTH);
        self.put_bytes(page, at, e);
        page.print(" unreached\n");
        e
    }

    // The code by the marks of its positions, with what is noted of them: every byte stands in a line.
    pub fn put(self, page: &mut Page) {
        let mut shown = 0;
        for (at, mark) in self.marks.iter().enumerate() {
            if *mark != UNMARKED {
                let e = self.put_marked(page, at as u16, *mark, self.notes[at]);
                shown = shown.max(e);
            } else if shown <= at {
                shown = self.put_unreached(page, at);
            }
        }
    }
}
