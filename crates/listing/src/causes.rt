// The words of the causes of refusal 13. (A cause is mcode's type, and the engine prints nothing: a Display of it has no place there, and
// cannot stand here.)
ghost use Rattle.std.specs.Prelude.{◌≡◌};
ghost use Rattle.listing.specs.Causes.{cause_words};

use mcode::Cause;

pub fn words_of(cause: Cause) -> &'static str
    ensures { result.now ≡ cause_words cause }
{
    match cause {
        Cause::Opcode => "unlisted opcode",
        Cause::Operands => "operands outside the code",
        Cause::Name => "no such module or procedure",
        Cause::Successor => "successor outside the code",
    }
}
