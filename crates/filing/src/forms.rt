// An image from a file, and its form.
use console::fault;
use console::files::contents;
use console::given::argument;
use console::print::Teller;
use std::rt::{Env, Files};

// The form of an image; none where the image is refused, which is told on standard error with its place.
fn form_or_refusal<'a>(
    teller: Teller,
    name: &[u8],
    image: &mut [u8],
    form: &'a mut [u8],
) -> Option<&'a [u8]> {
    let mut map = [0u32; 65535];
    match archive::archive(image, &mut map, form) {
        Ok(length) => form.get(..length),
        Err(refusal) => {
            let number = refusal.number();
            teller.refusal(name, number, fault::found(image, &mut map, number));
            None
        }
    }
}

// The form of the image in the file that argument i names; none where the file cannot be read or the image is refused, which is told on
// standard error.
pub fn form_of<'a>(
    rt: &(impl Env + Files),
    teller: Teller,
    i: usize,
    form: &'a mut [u8],
) -> Option<&'a [u8]> {
    let mut buffer = [0u8; 4096];
    let mut bytes = [0u8; 65536];
    let name = argument(rt, i, &mut buffer);
    let image = contents(rt, teller, name, &mut bytes)?;
    form_or_refusal(teller, name, image, form)
}
