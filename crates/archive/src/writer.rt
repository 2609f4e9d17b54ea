// Bytes put into an output one behind another.
ghost use Rattle.std.specs.Prelude.{◌≡◌, ◌+◌, ◌≤◌, length};
ghost use Rattle.mcode.specs.Step.{written};
ghost use Rattle.archive.specs.Form.{joined, Room, Wrote};

// The bytes, from `at` on. Of a loop the compiler makes a `memcpy`; `copy_from_slice` would ask for `memmove`, which the C library needs
// nowhere else.
fn copy(bytes: &[u8], output: &mut [u8], at: usize)
    requires { at + length bytes.now ≤ length output.old }
    ensures { output.new ≡ written bytes.now at output.old }
{
    for i in 0..bytes.len() {
        output[at + i] = bytes[i];
    }
}

// An output, and how many bytes were put into it.
#[derive(Drop)]
pub struct Writer<'a> {
    pub output: &'a mut [u8],
    pub at: usize,
}

impl<'a> Writer<'a> {
    pub fn new(output: &'a mut [u8]) -> Writer<'a>
        ensures same { result.output.ghost_name ≡ output.entry.ghost_name }
        ensures untouched { (result.output.now ≡ output.old) × (result.at ≡ 0) }
    {
        Writer { output, at: 0 }
    }

    pub fn put(&mut self, bytes: &[u8])
        requires { Room bytes.now self.old }
        ensures { Wrote bytes.now self.old self.new }
    {
        let end = self.at + bytes.len();
        copy(bytes, self.output, self.at);
        self.at = end;
    }

    // Pieces, one behind another.
    pub fn put_all(&mut self, pieces: &[&[u8]])
        requires { Room (joined pieces.now) self.old }
        ensures { Wrote (joined pieces.now) self.old self.new }
    {
        for piece in pieces {
            self.put(piece);
        }
    }
}
