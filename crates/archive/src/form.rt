// Writes the form of a program, module after module, in one pass over the image.
ghost use Rattle.std.specs.Prelude.{◌≡◌, ◌++◌, ◌≤◌, length, drop};
ghost use Rattle.mcode.specs.Archive.{given, module_form, form};
ghost use Rattle.archive.specs.Form.{Room, Wrote, content, the_contents};

use crate::fields::{bit_map, fields_of, module_length};
use crate::writer::Writer;
use placed::{Image, Placed};

// A field that stands only where its bit does.
fn given<'a>(bit: bool, field: &'a [u8]) -> &'a [u8]
    ensures { result.now ≡ given bit field.now }
{
    if bit { field } else { &[] }
}

// The form of a module: its fields, one behind another.
fn write_module(out: &mut Writer, p: Placed)
    requires { Room (module_form (content p)) out.old }
    ensures { Wrote (module_form (content p.entry)) out.old out.new }
{
    let Placed { image, m, .. } = p;
    let f = fields_of(p);
    let map = [bit_map(f)];
    let size = m.size.to_be_bytes();
    let count = [m.procs as u8];
    let length = m.length.to_be_bytes();
    let name = p.name().unwrap_or(&[]);
    let records = &image[m.table..m.table + 4 * m.procs as usize];
    let code = &image[m.code..m.code + m.length as usize];
    out.put_all(&[
        &map,
        given(f.sized, &size),
        given(f.listing, &count),
        given(f.named, name),
        &length,
        given(f.listing, records),
        code,
    ]);
}

// How many bytes the form takes: the module count and the modules.
pub fn form_length(image: Image) -> usize
    ensures { result ≡ length (form (the_contents image.entry)) }
{
    let mut sum: usize = 1;
    for k in 0..image.program.count {
        sum += module_length(image.module(k));
    }
    sum
}

// The module count and the modules; what lies behind them stays.
pub fn write_form(image: Image, output: &mut [u8])
    requires { length (form (the_contents image)) ≤ length output.old }
    ensures { output.new ≡ form (the_contents image.entry) ++ drop (length (form (the_contents image.entry))) output.old }
{
    let mut out = Writer::new(output);
    out.put(&[image.program.count as u8]);
    for k in 0..image.program.count {
        write_module(&mut out, image.module(k));
    }
}
