// The word of requests: the line that is taken, and the word without its bit.
ghost use Rattle.std.specs.Prelude.{◌≡◌, true, ◌-◌, ◌^◌, ◌<◌};
ghost use Rattle.mcode.specs.Word.{bit};
ghost use Rattle.mcode.specs.Step.{highest};
ghost use Rattle.control.specs.Lines.{is_free};

// The highest line of a word, 8 to 15, or 0.
fn highest_line(w: u16) -> usize
    ensures { result ≡ highest (bit w) 8 }
{
    if w < 256 {
        return 0;
    }
    w.ilog2() as usize
}

// "The highest line is taken that is in the requests, not in M and not in store word 3": that line, or 0.
pub fn line_of(requests: u16, mask: u16, held: u16) -> usize
    ensures { result ≡ highest (is_free requests mask held) 8 }
{
    highest_line(requests & (!(mask | held)))
}

// The word without the bit of line i, which it has.
pub fn without(requests: u16, i: usize) -> u16
    requires { (i < 16) × (bit requests i ≡ true) }
    ensures { result ≡ requests - 2 ^ i }
{
    requests - (1u16 << (i as u16))
}
