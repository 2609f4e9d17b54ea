// The numbers of a program as one flat array: the count of modules, then six numbers a module. A step is lent it.
ghost use Rattle.std.specs.Prelude.{◌≡◌, List, [], ◌∷◌, ◌+◌, ◌*◌, ◌≤◌, ◌<◌, length};
ghost use Rattle.mcode.specs.Image.{most_modules};
ghost use Rattle.mcode.specs.Step.{written};
ghost use Rattle.actions.specs.Table.{Tabled};
ghost use Rattle.engine.specs.Numbers.{numbers_of, Narrow, Words};

use actions::TABLE_WORDS;
use mcode::{Module, Program};

fn put_module(table: &mut [u16; TABLE_WORDS], k: usize, m: Module)
    requires { (k < most_modules) × Words m }
    ensures { table.new ≡ written (numbers_of m) (6 * k + 1) table.old }
{
    let i = 6 * k;
    table[i + 1] = m.code as u16;
    table[i + 2] = m.length;
    table[i + 3] = m.size;
    table[i + 4] = m.base as u16;
    table[i + 5] = m.procs;
    table[i + 6] = m.table as u16;
}

pub fn table_of(program: Program) -> [u16; TABLE_WORDS]
    requires { Narrow program }
    ensures { Tabled result program }
{
    let mut table = [0u16; TABLE_WORDS];
    let n = program.count;
    table[0] = n as u16;
    for k in 0..n {
        put_module(&mut table, k, program.modules[k]);
    }
    table
}
