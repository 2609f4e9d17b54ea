// One value of either image.
ghost use Rattle.std.specs.Prelude.{◌≡◌, [], ◌∷◌};
ghost use Rattle.compare.specs.Facts.{fact};
ghost use Rattle.compare.specs.Compared.{Compared};

use crate::{Difference, Part};

pub fn value(part: Part, unit: usize, at: usize, first: usize, second: usize) -> Option<Difference>
    ensures { Compared (fact part unit at first ∷ []) (fact part unit at second ∷ []) result }
{
    (first != second).then_some(Difference {
        part,
        unit,
        at,
        first,
        second,
    })
}
