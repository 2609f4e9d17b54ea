// Replays the cases of the second interpreter through archive, load, start and run, and prints what they answer. It reads the file of cases
// from standard input and writes the text of `second expect`; both are described in second/README.md.
#![tactic(auto)]

mod input;
mod output;
mod reading;
mod replay;
mod sums;

use crate::input::Input;
use crate::output::Output;
use crate::reading::Buffers;

fn main(rt: HostRuntime) {
    let mut input = Input::new(rt.stdin());
    let mut output = Output::new(rt.stdout());
    let mut buffers = Buffers::new();
    // Where the file is cut off or wrong, what was printed before stands.
    let _whole = replay::cases(&mut input, &mut output, &mut buffers);
    output.flush();
}
