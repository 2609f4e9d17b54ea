// Base M-code: the declared types, and the opcode table. What they mean is defined in specs/.
#![tactic(auto)]

ghost use Rattle.std.specs.Prelude.{◌≡◌, ◌+◌, ◌-◌, ◌≤◌};
ghost use Rattle.mcode.specs.Image.{base_copy, margin};
ghost use Rattle.mcode.specs.Machine.{stop_number, stop_code};
ghost use Rattle.mcode.specs.Answer.{refusal_number};

// A place in the data store, counted in words.
#[derive(Clone, Copy, PartialEq, Eq)]
pub struct Address(pub u16);

// A place in a module's code, counted in bytes.
#[derive(Clone, Copy, PartialEq, Eq)]
pub struct Position(pub u16);

// The registers: module number, position, frame L, stack pointer S, limit H, process P, mask M, and how many words the
// expression stack has.
#[derive(Clone, Copy, PartialEq, Eq)]
pub struct Registers {
    pub unit: u8,
    pub pc: Position,
    pub l: Address,
    pub s: Address,
    pub h: Address,
    pub p: Address,
    pub mask: u16,
    pub depth: usize,
}

#[derive(Clone, Copy, PartialEq, Eq)]
pub struct Machine {
    pub registers: Registers,
    pub stack: [u16; 16],
}

// Reserved places of the store, and the margin that a stack keeps below its end.
impl Machine {
    pub const BASE_COPY: usize = 32;

    pub const FIRST_MODULE: usize = 128;

    pub const MARGIN: usize = 24;

    // The word that holds a copy of a module's base.
    pub fn copy_of_base(number: u8) -> usize
        ensures { result ≡ base_copy + number }
    {
        Machine::BASE_COPY + number as usize
    }

    // The limit H of a store of w words.
    pub fn limit_of(w: usize) -> usize
        requires { margin ≤ w }
        ensures { result ≡ w - margin }
    {
        w - Machine::MARGIN
    }
}

// Why a run stopped. Program holds the program's own code.
#[derive(Clone, Copy, PartialEq, Eq)]
pub enum Stop {
    Spent,
    Ended,
    BadAddress,
    StackLimit,
    ReturnMark,
    BadProcess,
    ZeroDivisor,
    ResultRange,
    CheckFailed,
    BadChannel,
    Program(u16),
}

impl Stop {
    // The paper's number.
    pub fn number(self) -> u16
        ensures { result ≡ stop_number self }
    {
        match self {
            Stop::Spent => 30,
            Stop::Ended => 31,
            Stop::BadAddress => 32,
            Stop::StackLimit => 33,
            Stop::ReturnMark => 34,
            Stop::BadProcess => 35,
            Stop::ZeroDivisor => 36,
            Stop::ResultRange => 37,
            Stop::CheckFailed => 38,
            Stop::BadChannel => 39,
            Stop::Program(_) => 40,
        }
    }

    // 0 but for the program's own.
    pub fn code(self) -> u16
        ensures { result ≡ stop_code self }
    {
        match self {
            Stop::Program(code) => code,
            _ => 0,
        }
    }
}

// Why an image, a map, a store or a machine is refused. NotWhole has the module and the position at fault.
#[derive(Clone, Copy, PartialEq, Eq)]
pub enum Refusal {
    ImageSize,
    ModuleCount,
    ImageEnds,
    BytesAfter,
    BitMap,
    Field,
    MapShort,
    NoDepths,
    StoreSize,
    ChannelCount,
    NotAMachine,
    MapUnfit,
    NotWhole(u8, Position),
    OutputShort,
}

impl Refusal {
    // The paper's number.
    pub fn number(self) -> u16
        ensures { result ≡ refusal_number self }
    {
        match self {
            Refusal::ImageSize => 1,
            Refusal::ModuleCount => 2,
            Refusal::ImageEnds => 3,
            Refusal::BytesAfter => 4,
            Refusal::BitMap => 5,
            Refusal::Field => 6,
            Refusal::MapShort => 7,
            Refusal::NoDepths => 8,
            Refusal::StoreSize => 9,
            Refusal::ChannelCount => 10,
            Refusal::NotAMachine => 11,
            Refusal::MapUnfit => 12,
            Refusal::NotWhole(_, _) => 13,
            Refusal::OutputShort => 14,
        }
    }
}

// What is wrong with an instruction, whatever the depth: its opcode is not listed, its operands lie outside the code, a module or a
// procedure that it names is missing, or a successor lies outside the code.
#[derive(Clone, Copy, PartialEq, Eq)]
pub enum Cause {
    Opcode,
    Operands,
    Name,
    Successor,
}

// A module of an image: where its code begins in the image and how long it is, the words of its data, its base in the store,
// the count of its procedure records (0: none, and procedure 0 enters at 0), and where they begin in the image.
#[derive(Clone, Copy, PartialEq, Eq)]
pub struct Module {
    pub code: usize,
    pub length: u16,
    pub size: u16,
    pub base: usize,
    pub procs: u16,
    pub table: usize,
}

// The most modules that an image has.
pub const MOST_MODULES: usize = 21;

// The modules of an image, and the word after the last one's data.
#[derive(Clone, Copy, PartialEq, Eq)]
pub struct Program {
    pub count: usize,
    pub end: usize,
    pub modules: [Module; MOST_MODULES],
}

// What follows an instruction at a depth: it breaks a rule, it has no successor, or successors with their marks.
#[derive(Clone, Copy, PartialEq, Eq)]
pub enum Flow {
    Fault,
    Ends,
    To(usize, u32),
    Fork(usize, u32, usize, u32),
}

// A computed word, or the trap that stands in its place.
pub type Value = Result<u16, Stop>;

pub mod opcode;
