// Two modules of the same number, part by part, and the modules of two programs.
ghost use Rattle.std.specs.Prelude.{◌≡◌, ◌<◌, [], ◌∷◌};
ghost use Rattle.mcode.specs.Word.{byte};
ghost use Rattle.mcode.specs.Archive.{name_of};
ghost use Rattle.compare.specs.Facts.{fact};
ghost use Rattle.compare.specs.Compared.{Compared};
ghost use Rattle.compare.specs.Pairs.{InPair, procedure_at, the_procedures, the_name, the_code, the_module, the_facts};

use crate::values::value;
use crate::{Difference, Part};
use depths::rules::{byte_at, entry_of, params_of, proc_count, results_of};
use placed::{Image, Placed};

// Module k of either image.
#[derive(Clone, Copy)]
struct Pair<'a> {
    k: usize,
    first: Placed<'a>,
    second: Placed<'a>,
}

// Byte i of the name; 0 where the image has none.
fn name_byte(p: Placed, i: usize) -> u8
    requires { i < 8 }
    ensures { result ≡ byte (name_of p.entry.image.now p.entry.begin p.entry.m) i }
{
    p.name().map_or(0, |name| name[i])
}

impl Pair<'_> {
    fn value(self, part: Part, at: usize, first: usize, second: usize) -> Option<Difference>
        ensures { Compared (fact part self.entry.k at first ∷ []) (fact part self.entry.k at second ∷ []) result }
    {
        value(part, self.k, at, first, second)
    }

    fn procedure(self, i: usize) -> Option<Difference>
        requires { i < 65536 }
        ensures { InPair (procedure_at i) self.entry result }
    {
        let Pair { first, second, .. } = self;
        let entries = self.value(
            Part::Entry,
            i,
            entry_of(first.image, first.m, i),
            entry_of(second.image, second.m, i),
        );
        let params = self.value(
            Part::Parameters,
            i,
            params_of(first.image, first.m, i) as usize,
            params_of(second.image, second.m, i) as usize,
        );
        let results = self.value(
            Part::Results,
            i,
            results_of(first.image, first.m, i) as usize,
            results_of(second.image, second.m, i) as usize,
        );
        entries.or(params).or(results)
    }

    // The procedures, behind their count.
    fn procedures(self) -> Option<Difference>
        ensures { InPair the_procedures self.entry result }
    {
        let n = proc_count(self.first.m);
        if let Some(d) = self.value(Part::Procedures, 0, n, proc_count(self.second.m)) {
            return Some(d);
        }
        (0..n).find_map(|i| self.procedure(i))
    }

    fn name(self) -> Option<Difference>
        ensures { InPair the_name self.entry result }
    {
        (0..8).find_map(|i| {
            let first = name_byte(self.first, i) as usize;
            let second = name_byte(self.second, i) as usize;
            self.value(Part::Name, i, first, second)
        })
    }

    // The code, behind its length.
    fn code(self) -> Option<Difference>
        ensures { InPair the_code self.entry result }
    {
        let Pair { first, second, .. } = self;
        let n = first.m.length as usize;
        if let Some(d) = self.value(Part::Length, 0, n, second.m.length as usize) {
            return Some(d);
        }
        (0..n).find_map(|p| {
            let a = byte_at(first.image, first.m.code + p) as usize;
            let b = byte_at(second.image, second.m.code + p) as usize;
            self.value(Part::Code, p, a, b)
        })
    }

    fn difference(self) -> Option<Difference>
        ensures { InPair the_module self.entry result }
    {
        let a = self.first.m.size as usize;
        let b = self.second.m.size as usize;
        if let Some(d) = self.value(Part::Size, 0, a, b) {
            return Some(d);
        }
        if let Some(d) = self.procedures() {
            return Some(d);
        }
        if let Some(d) = self.name() {
            return Some(d);
        }
        self.code()
    }
}

// The modules of two images, behind their counts.
pub fn modules(first: Image, second: Image) -> Option<Difference>
    ensures { Compared (the_facts first.entry) (the_facts second.entry) result }
{
    let (p, q) = (first.program, second.program);
    if let Some(d) = value(Part::Modules, 0, 0, p.count, q.count) {
        return Some(d);
    }
    (0..p.count).find_map(|k| {
        let pair = Pair {
            k,
            first: first.module(k),
            second: second.module(k),
        };
        pair.difference()
    })
}
