// What --help and -h print.
use console::words::{refusal_words, stop};
use listing::streams::Streams;

const USAGE: &str = "\
usage: reading [--steps N] [--store W] [--input CH=VALUE].. [--vary CH=V1,V2,..].. [--requests WORD] [--line I].. [--after N] FILE..
";

const OPTIONS: &str = "
Reads each image with the proved engine: load, start and one run. FILE - is standard input.

  --steps N         at most N steps, 0 to 4294967295 (default 1000)
  --store W         a store of W words, 0 to 65536 (default 4096)
  --input CH=VALUE  input channel CH, 0 to 15, holds VALUE, 0 to 65535 (default 0);
                    may be given again, a later one wins
  --vary CH=V1,V2,..  tries the reading with each of these values of channel CH, the other inputs
                    as they are, and tells whether it changes; may be given again. A channel
                    that the reading does not take changes nothing and is not tried
  --requests WORD   the word of requests that the run gets, 0 to 65535 (default 0)
  --line I          line I, 8 to 15, is requested: bit I of that word; may be given again,
                    the bits of all --requests and --line are united
  --after N         the requests come after N steps, 0 to 4294967295 (default 0): before the
                    program has set word 2I, line I stops the run with 35
  -h, --help        this text

A value may also stand behind =, as --steps=5. Options hold for all files, wherever they stand.
A file whose name begins with - is ./-NAME. Several files: each reading stands below a line FILE:

";

const LINES: &str = "\
A reading is two lines: why it stopped (stop), the program's code where it stopped itself (code),
the steps done, and where it stands: module, position in the module's code (pc), words on the
operand stack (depth); then the outputs of channels 0 to 15. With requests a third line shows
what is left of them. A refused image prints one line, refused and its number; standard error
says it in words, with the place where it is known.

The line caught N process P module M pc X tells of the last caught trap, where the store
does: word 15 is P, and the record at P has its number (word P + 6), module and position.

The last lines tell which inputs the reading rested on, those that its READs took: rests on no
inputs; rests on inputs given: CH=VALUE ..; rests on a guess, inputs not given: CH=0 .. Every other
input may hold anything, and the reading is the same.

    reading examples/whole-reading.img
    stop 31 code 0 steps 3 module 0 pc 3 depth 0
    0 0 7 0 0 0 0 0 0 0 0 0 0 0 0 0
    rests on no inputs

";

pub fn put_usage(to: &impl Print) {
    let _written = to.print(USAGE);
}

pub fn put_help(streams: Streams) {
    let out = streams.output;
    put_usage(&out);
    let _written = print!(out; "{OPTIONS}{LINES}Stops:\n");
    for number in 30..41 {
        let words = stop(number);
        let _written = print!(out; "  {number} {words}\n");
    }
    let _written = print!(out; "\nRefusals:\n");
    for number in 1..14 {
        let words = refusal_words(number);
        let _written = print!(out; "  {number} {words}\n");
    }
}
