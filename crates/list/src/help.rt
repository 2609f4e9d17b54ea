// What --help and -h print.
use listing::streams::{Streams, write_all};

pub const USAGE: &str = "usage: list FILE..\n";

const TEXT: &str = "
Lists each image: its modules, their procedures, and their code, one line an
instruction. FILE - is standard input; -h and --help print this text.

  pos          position in the module's code
  depth        words on the operand stack before it, as load marks it; with /n in a
               procedure that promises n results, and +d for each depth that STORE
               saved, the last one first
  bytes        opcode and operands, in hex
  instruction  name and operands; a jump shows the position that it goes to

Bytes that no marked instruction covers are shown as unreached. An image that
load refuses shows the refusal. With 13 or 8 it also shows its code, as far as it
is reached from the entries whatever the depth: with the depths that were found,
else -, and behind <- what is wrong with a line.
";

pub fn put_help(streams: Streams) {
    write_all(&streams.output, USAGE.as_bytes());
    write_all(&streams.output, TEXT.as_bytes());
}
