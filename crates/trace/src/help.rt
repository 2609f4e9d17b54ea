// What --help and -h print.
const USAGE: &str = "\
usage: trace [--steps N] [--store W] [--input CH=VALUE].. [--requests WORD] [--line I].. [--after N] [--limit L] FILE..
";

const HELP: &str = "
Runs each image one step at a time with the proved engine, and shows what each
step does. FILE - is standard input.

  --steps N         at most N steps, 0 to 4294967295 (default 1000)
  --store W         a store of W words, 0 to 65536 (default 4096)
  --input CH=VALUE  input channel CH, 0 to 15, holds VALUE, 0 to 65535
                    (default 0); may be given again, a later one wins
  --requests WORD   the word of requests that the run gets, 0 to 65535
                    (default 0)
  --line I          line I, 8 to 15, is requested: bit I of that word; may be
                    given again, the bits of all --requests and --line are
                    united
  --after N         the requests come after N steps, 0 to 4294967295
                    (default 0): before the program has set word 2I, line I
                    stops the run with 35
  --limit L         list the first L steps only (default: all)
  -h, --help        this text

A value may also stand behind =, as --steps=5. Options hold for all files,
wherever they stand.

A step's line has its number, module and position, the instruction (a jump
shows the position that it goes to), and the operand stack before and after it,
the top word last. Below it stand the registers and the words of the store that
it changed. An output that changed has a line at the margin, also beyond the
limit: output 2: 0 -> 7 (step 3)

A trap that is caught is a step: below its line stand the trap, as the store has
it in word P + 6, and the processes that it left and entered.

The instruction at which the run stops is no step, and has - for its number. At
the end stand the stop in words and the lines of the reading: its two; with
requests what is left of them; the last caught trap, where the store tells of
one; and which inputs the reading rested on, given and not given.
";

pub fn put_usage(to: &impl Print) {
    let _written = to.print(USAGE);
}

pub fn put_help(to: &impl Print) {
    put_usage(to);
    let _written = to.print(HELP);
}
