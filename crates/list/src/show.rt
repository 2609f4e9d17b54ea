// An image with its modules.
use crate::code::{COLUMNS, Code, put_numbered};
use console::fault;
use console::print::{Place, Reason, Teller, line};
use depths::rules::proc_count;
use explain::shown::{Note, mark_module};
use explain::{Why, Wrong};
use image::read_image;
use listing::page::Page;
use listing::procedure::procedure_of;
use loader::load::load;
use mcode::{Module, Program};

// The name, the count of bytes, and the count of modules where the image was read.
fn put_heading(page: &mut Page, name: &[u8], bytes: usize, modules: Option<usize>) {
    page.text(name);
    page.print(format_args!(": {bytes} bytes"));
    if let Some(count) = modules {
        page.print(format_args!(", modules: {count}"));
    }
    page.print("\n");
}

fn put_procedures(page: &mut Page, image: &[u8], m: Module) {
    for i in 0..proc_count(m) {
        let procedure = procedure_of(image, m, i as u16);
        put_numbered(page, b"  procedure ", i as u16);
        put_numbered(page, b": entry ", procedure.entry);
        put_numbered(page, b", parameters ", procedure.params as u16);
        put_numbered(page, b", results ", procedure.results as u16);
        page.text(b"\n");
    }
}

// With 8, where the depths do not fit. (What 13 is about is noted by the marks.)
fn note_why(notes: &mut [Option<Note>], k: usize, why: Why) {
    let note = match why.wrong {
        Wrong::Fault(_) => return,
        Wrong::Meet(_, _) => Note::Meet,
        Wrong::Rule(_) | Wrong::Call(_, _) => Note::Rule,
    };
    let at = why.pc.0 as usize;
    if why.unit as usize == k && at < notes.len() {
        notes[at] = Some(note);
    }
}

// The part of a map or of notes that belongs to a module's code.
fn part<T>(all: &mut [T], m: Module) -> Option<&mut [T]> {
    all.get_mut(m.code..)?.get_mut(..m.length as usize)
}

// Where load refused with 13 or 8, the parts of the map and of the notes are filled with what is shown of each module.
fn note_all(
    image: &[u8],
    map: &mut [u32],
    notes: &mut [Option<Note>],
    program: Program,
    why: Option<Why>,
) {
    for (k, m) in program.modules.iter().take(program.count).enumerate() {
        if let (Some(map), Some(notes)) = (part(map, *m), part(notes, *m)) {
            mark_module(image, map, notes, k);
            if let Some(why) = why {
                note_why(notes, k, why);
            }
        }
    }
}

// The code of a module by its parts of the map and of the notes.
fn code_of<'a>(
    image: &'a [u8],
    map: &'a [u32],
    notes: &'a [Option<Note>],
    m: Module,
) -> Option<Code<'a>> {
    let length = m.length as usize;
    Some(Code {
        image,
        m,
        marks: map.get(m.code..)?.get(..length)?,
        notes: notes.get(m.code..)?.get(..length)?,
    })
}

fn put_modules(
    page: &mut Page,
    image: &[u8],
    map: &[u32],
    notes: &[Option<Note>],
    program: Program,
) {
    for (k, m) in program.modules.iter().take(program.count).enumerate() {
        page.print(format_args!(
            "\nmodule {k}: data size {}, base {}, code length {} from byte {}\n",
            m.size, m.base, m.length, m.code
        ));
        put_procedures(page, image, *m);
        page.print(COLUMNS);
        if let Some(code) = code_of(image, map, notes, *m) {
            code.put(page);
        }
    }
}

// The refusal, in the place of the modules, and on standard error.
fn put_refusal(teller: Teller, page: &mut Page, name: &[u8], reason: Reason) {
    if page.flush() {
        line(teller.streams, reason);
    }
    teller.refusal(name, reason.number, reason.place);
}

// A refusal stands in the place of the modules, but for 13 and 8: there they are shown all the same, as far as the code is reached, with what
// is wrong.
pub fn put_image(
    teller: Teller,
    page: &mut Page,
    name: &[u8],
    image: &mut [u8],
    map: &mut [u32],
    notes: &mut [Option<Note>],
) {
    let read = read_image(image).ok();
    put_heading(page, name, image.len(), read.map(|program| program.count));
    if let Err(refusal) = load(image, map) {
        let number = refusal.number();
        let place = fault::found(image, map, number);
        put_refusal(teller, page, name, Reason { number, place });
        let Some(Place::Code(why)) = place else {
            return;
        };
        if let Some(program) = read {
            note_all(image, map, notes, program, why);
        }
    }
    if let Some(program) = read {
        put_modules(page, image, map, notes, program);
    }
}
