// The mnemonics of the published table, for the opcodes that are listed: five letters for each opcode, filled up with blanks, and
// five blanks for an opcode that is not listed.
ghost use Rattle.std.specs.Prelude.{◌≡◌, IfSome};
ghost use Rattle.listing.specs.Mnemonics.{name_of};
ghost use Rattle.listing.specs.Names.{row_of, EndsInLetter};

pub const NAMES: &str = "\
    LI0  LI1  LI2  LI3  LI4  LI5  LI6  LI7  LI8  LI9  LI10 LI11 LI12 LI13 LI14 LI15 \
    LIB       LIW  LID  LLA  LGA  LSA  LEA  JPC  JP   JPFC JPF  JPBC JPB  ORJP ANDJP\
    LLW  LLD  LEW  LED  LLW4 LLW5 LLW6 LLW7 LLW8 LLW9 LLW10LLW11LLW12LLW13LLW14LLW15\
    SLW  SLD  SEW  SED  SLW4 SLW5 SLW6 SLW7 SLW8 SLW9 SLW10SLW11SLW12SLW13SLW14SLW15\
    LGW  LGD  LGW2 LGW3 LGW4 LGW5 LGW6 LGW7 LGW8 LGW9 LGW10LGW11LGW12LGW13LGW14LGW15\
    SGW  SGD  SGW2 SGW3 SGW4 SGW5 SGW6 SGW7 SGW8 SGW9 SGW10SGW11SGW12SGW13SGW14SGW15\
    LSW0 LSW1 LSW2 LSW3 LSW4 LSW5 LSW6 LSW7 LSW8 LSW9 LSW10LSW11LSW12LSW13LSW14LSW15\
    SSW0 SSW1 SSW2 SSW3 SSW4 SSW5 SSW6 SSW7 SSW8 SSW9 SSW10SSW11SSW12SSW13SSW14SSW15\
    LSW  LSD  LSD0           LXB  LXW       DADD DSUB                               \
    SSW  SSD  SSD0           SXB  SXW                                               \
    READ WRITE               UCHK                     ULSS ULEQ UGTR UGEQ TRA       \
    LODFW     STORE          COPT           UADD USUB UMUL UDIV UMOD ROR  SHL  SHR  \
    \x20                   TRAP CHK  CHKZ      EQL  NEQ  LSS  LEQ  GTR  GEQ  ABS  NEG  \
    OR   XOR  AND  COM                 NOT  ADD  SUB  MUL  DIV            NOP       \
    \x20                                       GB   GB1       ENTR RTN  CX   CI        \
    CL   CL1  CL2  CL3  CL4  CL5  CL6  CL7  CL8  CL9  CL10 CL11 CL12 CL13 CL14 CL15 ";

// The name of an opcode: its row without the blanks at its end. An opcode that is not listed has none.
pub fn name_of(op: u8) -> Option<&'static str>
    ensures row { row_of result ≡ name_of op }
    ensures letter { IfSome result (λ name. EndsInLetter name.now) }
{
    let at = 5 * op as usize;
    let name = NAMES[at..at + 5].trim_ascii_end();
    if name.is_empty() { None } else { Some(name) }
}
