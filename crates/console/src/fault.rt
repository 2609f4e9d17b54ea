// Where a refusal of an image lies, by the refusal's number. Of 1 to 6 only the proved reader is asked, about parts of the image and about
// other counts: a part must be present before its value is judged, so the byte at fault is the last one of the shortest prefix that is
// refused the same.
ghost use Rattle.std.specs.Prelude.{◌≡◌, ◌-◌, ◌<◌, length};
ghost use Rattle.mcode.specs.Image.{most_modules, parse};
ghost use Rattle.console.specs.Faults.{Least, PrefixRefused, CountRefused, Placed, Found};

use crate::print::Place;
use image::read_image;
use mcode::MOST_MODULES;

// The number of the last module that an image can have.
const LAST_MODULE: u8 = (MOST_MODULES - 1) as u8;

// The number of the reader's refusal; 0 where it reads the image.
fn refusal_of(image: &[u8]) -> u16
    ensures { result ≡ (parse image.now).refusal }
{
    match read_image(image) {
        Ok(_) => 0,
        Err(refusal) => refusal.number(),
    }
}

// The length of the shortest prefix that is refused with the number; the image's length where no shorter one is.
pub fn shortest(image: &[u8], number: u16) -> usize
    ensures { Least (PrefixRefused image.now number) (length image.now) result }
{
    for at in 0..image.len() {
        if refusal_of(&image[..at]) == number {
            return at;
        }
    }
    image.len()
}

// The first module with which the image is refused with the number: the least m such that the image of m + 1 modules, by its byte
// 0, is refused so; LAST_MODULE where no lesser one is. Byte 0 is put back.
pub fn module_at(image: &mut [u8], number: u16) -> usize
    requires { 0 < length image.old }
    ensures { (image.new ≡ image.old) × (Least (CountRefused image.old number) (most_modules - 1) result) }
{
    let count = image[0];
    for m in 0..LAST_MODULE {
        image[0] = m + 1;
        if refusal_of(image) == number {
            image[0] = count;
            return m as usize;
        }
    }
    image[0] = count;
    LAST_MODULE as usize
}

// Where the refusal of an image lies: 2 at byte 0; 3 in a module, at the image's end; 4 at the first byte after the last module; 5
// and 6 in a module, at the last byte of the part at fault. The others are of the image as a whole.
pub fn place(image: &mut [u8], number: u16) -> Option<Place>
    ensures { (image.new ≡ image.old) × (Placed image.old number result) }
{
    if image.is_empty() {
        return None;
    }
    match number {
        2 => Some(Place::Byte(0)),
        3 => Some(Place::Inside(module_at(image, number), image.len())),
        4 => Some(Place::Byte(shortest(image, number).saturating_sub(1))),
        5 | 6 => {
            let unit = module_at(image, number);
            Some(Place::Inside(unit, shortest(image, number).saturating_sub(1)))
        }
        _ => None,
    }
}

// Where any refusal of an image lies: with 13 or 8 in the code of a module. The map is lent for that; what it holds before and after does
// not matter.
pub fn found(image: &mut [u8], map: &mut [u32], number: u16) -> Option<Place>
    ensures { (image.new ≡ image.old) × (Found image.old map.old number result) }
{
    if number != 8 && number != 13 {
        return place(image, number);
    }
    Some(Place::Code(explain::reason(image, map)))
}
