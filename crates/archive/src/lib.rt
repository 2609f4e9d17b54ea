// The form in which the archive files an image: the modules that load accepts, each with only those fields that say something else
// than what holds where they are missing.
#![tactic(auto)]

pub mod fields;
pub mod form;
mod writer;

ghost use Rattle.std.specs.Prelude.{IfErr};
ghost use Rattle.mcode.specs.Answer.{delivered_of};
ghost use Rattle.mcode.specs.Archive.{delivery, Archives};
ghost use Rattle.loader.specs.Load.{LoadsPlace};

use mcode::Refusal;
use placed::Image;

// The form's length, or load's refusal, or 14 where the output is shorter than the form. The map is left as load leaves it. A
// refusal leaves the output as it was, and what lies past the form stays.
pub fn archive(image: &[u8], map: &mut [u32], output: &mut [u8]) -> Result<usize, Refusal>
    ensures answer { Archives image.now map.old output.old map.new (delivery (delivered_of result) output.new) }
    ensures place { IfErr result (LoadsPlace image.now map.old map.new) }
{
    let program = image::read_image(image)?;
    loader::load::load_program(image, &program, map)?;
    let image = Image {
        bytes: image,
        program: &program,
    };
    let length = form::form_length(image);
    if output.len() < length {
        return Err(Refusal::OutputShort);
    }
    form::write_form(image, output);
    Ok(length)
}
