// A mark as text: its depth, `/n` where n results are promised, and `+d` for each saved depth from the front, as 1/1+0+3.
ghost use Rattle.std.specs.Prelude.{◌≡◌, [], ◌∷◌, ◌++◌, ◌+◌, ◌*◌, ◌≤◌, ◌<◌};
ghost use Rattle.arrayvec.specs.ArrayString.{array_string_len};
ghost use Rattle.listing.specs.Cell.{number_text, results_text, saves_text, mark_text};

use arrayvec::ArrayString;
use marks::{depth_of, list_of, promised_of, saves_of};

// No entry has more than 25 letters, of whatever bits it is.
pub type Cell = ArrayString<25>;

pub(crate) fn digit(n: u32) -> char
    requires { n < 10 }
    ensures { result ≡ 48 + n }
{
    char::from(b'0' + n as u8)
}

// A number of at most two digits.
fn push_number(cell: &mut Cell, n: u32)
    requires room { array_string_len cell.old + 2 ≤ 25 }
    requires small { n < 100 }
    ensures text { cell.new.bytes ≡ cell.old.bytes ++ number_text n }
    ensures letters { array_string_len cell.new ≤ array_string_len cell.old + 2 }
{
    if 10 <= n {
        cell.push(digit(n / 10));
    }
    cell.push(digit(n % 10));
}

fn push_results(cell: &mut Cell, n: u32)
    requires room { array_string_len cell.old + 2 ≤ 25 }
    requires small { n < 8 }
    ensures text { cell.new.bytes ≡ cell.old.bytes ++ results_text n }
    ensures letters { array_string_len cell.new ≤ array_string_len cell.old + 2 }
{
    if n != 0 {
        cell.push('/');
        cell.push(digit(n));
    }
}

// The first n depths of a list.
fn push_saves(cell: &mut Cell, n: u32, list: u32)
    requires { array_string_len cell.old + 3 * n ≤ 25 }
    ensures text { cell.new.bytes ≡ cell.old.bytes ++ saves_text n list }
    ensures letters { array_string_len cell.new ≤ 25 }
{
    let mut rest = list;
    for _ in 0..n {
        cell.push('+');
        push_number(cell, rest % 32);
        rest /= 32;
    }
}

pub fn cell_of(mark: u32) -> Cell
    ensures text { result.bytes ≡ mark_text mark }
    ensures letters { array_string_len result ≤ 25 }
{
    let mut cell = Cell::new();
    push_number(&mut cell, depth_of(mark));
    push_results(&mut cell, promised_of(mark));
    push_saves(&mut cell, saves_of(mark), list_of(mark));
    cell
}
