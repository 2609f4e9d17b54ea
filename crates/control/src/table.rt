// The lent numbers: those of a module, the module of a base, and the marks of a position.
ghost use Rattle.std.specs.Prelude.{◌≡◌, ◌+◌, ◌*◌, ◌≤◌, ◌<◌, length, get_or};
ghost use Rattle.mcode.specs.Word.{word};
ghost use Rattle.mcode.specs.Image.{most_modules, entry_of, proc_count};
ghost use Rattle.actions.specs.Table.{module_in};
ghost use Rattle.control.specs.Table.{count_in, first_based, stands_in, Entered, Mapped};

use actions::TABLE_WORDS;
use marks::depth_of;

// Number j of module k.
pub fn number(table: &[u16; TABLE_WORDS], k: usize, j: usize) -> u16
    requires { (k < most_modules) × (1 ≤ j) × (j ≤ 6) }
    ensures { result ≡ get_or table.now (6 * k + j) 0 }
{
    let i = 6 * k + j;
    table[i]
}

// The module whose base is a word, or the count of the modules.
pub fn find_base(table: &[u16; TABLE_WORDS], word: u16) -> usize
    requires { count_in table.now ≤ most_modules }
    ensures { result ≡ first_based table.now word }
{
    let count = table[0] as usize;
    for k in 0..count {
        if number(table, k, 4) == word {
            return k;
        }
    }
    count
}

// Whether module k is loaded and a position of it is marked with a depth.
pub fn stands(table: &[u16; TABLE_WORDS], map: &[u32], k: usize, at: u16, depth: usize) -> bool
    requires mapped { Mapped table.now map.now }
    requires depth_bound { depth ≤ 16 }
    ensures { result ≡ stands_in table.now map.now k at depth }
{
    if table[0] as usize <= k {
        return false;
    }
    if number(table, k, 2) <= at {
        return false;
    }
    let i = number(table, k, 1) as usize + at as usize;
    depth_of(map[i]) as usize == depth
}

fn word_in(image: &[u8], i: usize) -> u16
    requires { (i + 1 < length image.now) × (i < 1000000) }
    ensures { result ≡ word image.now i }
{
    image[i] as u16 * 256 + image[i + 1] as u16
}

// The entry of procedure n of module k.
pub fn entry_of(image: &[u8], table: &[u16; TABLE_WORDS], k: usize, n: u16) -> u16
    requires entered { Entered image.now table.now }
    requires k_bound { (k < count_in table.now) × (n < proc_count (module_in table.now k)) }
    ensures { result ≡ entry_of image.now (module_in table.now k) n }
{
    if number(table, k, 5) == 0 {
        return 0;
    }
    let t = number(table, k, 6) as usize;
    word_in(image, t + 4 * n as usize)
}
