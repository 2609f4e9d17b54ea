// Reads an image: bytes to a table of modules, or the refusal of the first part that is missing (3) or out of range (5, 6).
// Each function reads one part, in the order in which the paper lists them, and answers as its namesake of mcode's specs/Image.antt.
#![tactic(auto)]

ghost use Rattle.std.specs.Prelude.{◌≡◌, ◌≤◌, length, replicate};
ghost use Rattle.mcode.specs.Answer.{part_of, head_of, parsed_of};
ghost use Rattle.mcode.specs.Image.{first_module, most_modules, byte_at, word_at, skip_at, bits_at, data_at, count_at, name_at, length_at, limited_at, record_at, records_at, first_limit, body_at, module_at, no_module, modules_from, parse};

use mcode::{MOST_MODULES, Machine, Module, Program, Refusal};

// A part that was read: its value and the next position.
type Part = Result<(u16, usize), Refusal>;

// A module that was read, and the next position.
type Head = Result<(Module, usize), Refusal>;

// A byte, and the position after it.
fn read_byte(s: &[u8], at: usize) -> Part
    ensures { part_of result ≡ byte_at s.now at }
{
    if at < s.len() {
        return Ok((s[at] as u16, at + 1));
    }
    Err(Refusal::ImageEnds)
}

// A word, high byte first. The first test keeps `at + 1` in range.
fn read_word(s: &[u8], at: usize) -> Part
    ensures { part_of result ≡ word_at s.now at }
{
    if s.len() <= at {
        return Err(Refusal::ImageEnds);
    }
    if s.len() <= at + 1 {
        return Err(Refusal::ImageEnds);
    }
    let h = s[at] as u16;
    let l = s[at + 1] as u16;
    Ok((h * 256 + l, at + 2))
}

// n bytes that are not interpreted.
fn skip(s: &[u8], at: usize, n: usize) -> Part
    ensures { part_of result ≡ skip_at s.now at n }
{
    if s.len() < at {
        return Err(Refusal::ImageEnds);
    }
    if s.len() - at < n {
        return Err(Refusal::ImageEnds);
    }
    Ok((0, at + n))
}

// The bit map of a module: bits 3 to 7 do not stand.
fn read_bits(s: &[u8], at: usize) -> Part
    ensures { part_of result ≡ bits_at s.now at }
{
    let (v, next) = read_byte(s, at)?;
    if v < 8 {
        return Ok((v, next));
    }
    Err(Refusal::BitMap)
}

// Bit 0: data size, else 0.
fn data_size(s: &[u8], at: usize, bits: u16) -> Part
    ensures { part_of result ≡ data_at s.now at bits }
{
    if bits % 2 == 1 {
        return read_word(s, at);
    }
    Ok((0, at))
}

// Bit 1: procedure count, 1 to 255. 0 where the module has no records.
fn proc_count(s: &[u8], at: usize, bits: u16) -> Part
    ensures { part_of result ≡ count_at s.now at bits }
{
    if bits / 2 % 2 == 1 {
        let (v, next) = read_byte(s, at)?;
        if 1 <= v {
            return Ok((v, next));
        }
        return Err(Refusal::Field);
    }
    Ok((0, at))
}

// Bit 2: name.
fn skip_name(s: &[u8], at: usize, bits: u16) -> Part
    ensures { part_of result ≡ name_at s.now at bits }
{
    if bits / 4 % 2 == 1 {
        return skip(s, at, 8);
    }
    Ok((0, at))
}

// The code length, 1 to 32,767.
fn code_length(s: &[u8], at: usize) -> Part
    ensures { part_of result ≡ length_at s.now at }
{
    let (v, next) = read_word(s, at)?;
    if v < 1 {
        return Err(Refusal::Field);
    }
    if v <= 32767 {
        return Ok((v, next));
    }
    Err(Refusal::Field)
}

// A byte that is at most the limit.
fn limited(s: &[u8], at: usize, limit: u16) -> Part
    ensures { part_of result ≡ limited_at s.now at limit }
{
    let (v, next) = read_byte(s, at)?;
    if v <= limit {
        return Ok((v, next));
    }
    Err(Refusal::Field)
}

// One procedure record: entry below the code length, parameters up to the limit, results up to 4.
fn proc_record(s: &[u8], length: u16, limit: u16, at: usize) -> Part
    ensures { part_of result ≡ record_at s.now length limit at }
{
    let (entry, next) = read_word(s, at)?;
    if length <= entry {
        return Err(Refusal::Field);
    }
    let (_, then) = limited(s, next, limit)?;
    limited(s, then, 4)
}

// n procedure records, of which the first has a limit of its own.
fn proc_records(s: &[u8], length: u16, first: u16, n: u16, from: usize) -> Part
    ensures { part_of result ≡ records_at s.now length first n from }
{
    let mut at = from;
    let mut limit = first;
    for _ in 0..n {
        let (_, next) = proc_record(s, length, limit, at)?;
        at = next;
        limit = 16;
    }
    Ok((0, at))
}

// The most parameters of procedure 0: none in module 0, where the run begins.
fn first_limit(number: usize) -> u16
    ensures { result ≡ first_limit number }
{
    if number == 0 {
        return 0;
    }
    16
}

// What every module has after its optional fields: the code length, the procedure records and the code.
fn read_body(s: &[u8], number: usize, size: u16, procs: u16, base: usize, at: usize) -> Head
    ensures { head_of result ≡ body_at s.now number size procs base at }
{
    let (length, table) = code_length(s, at)?;
    let (_, code) = proc_records(s, length, first_limit(number), procs, table)?;
    let (_, next) = skip(s, code, length as usize)?;
    let module = Module {
        code,
        length,
        size,
        base,
        procs,
        table,
    };
    Ok((module, next))
}

// One module, whose data begin at word `base`.
fn read_module(s: &[u8], number: usize, base: usize, at: usize) -> Head
    ensures { head_of result ≡ module_at s.now number base at }
{
    let (bits, a1) = read_bits(s, at)?;
    let (size, a2) = data_size(s, a1, bits)?;
    let (procs, a3) = proc_count(s, a2, bits)?;
    let (_, a4) = skip_name(s, a3, bits)?;
    read_body(s, number, size, procs, base, a4)
}

// An unused place of the table.
fn no_module() -> Module
    ensures { result ≡ no_module }
{
    Module {
        code: 0,
        length: 0,
        size: 0,
        base: 0,
        procs: 0,
        table: 0,
    }
}

// The modules, one behind another, and nothing after the last.
fn read_modules(s: &[u8], count: usize) -> Result<Program, Refusal>
    requires { (count ≤ most_modules) × (length s.now ≤ 65535) }
    ensures { parsed_of result ≡ modules_from s.now count 0 1 first_module (replicate most_modules no_module) }
{
    let mut modules = [no_module(); MOST_MODULES];
    let mut at: usize = 1;
    let mut base: usize = Machine::FIRST_MODULE;
    for i in 0..count {
        let (module, next) = read_module(s, i, base, at)?;
        modules[i] = module;
        base = base + 3 + module.size as usize;
        at = next;
    }
    if at == s.len() {
        return Ok(Program {
            count,
            end: base,
            modules,
        });
    }
    Err(Refusal::BytesAfter)
}

// The whole image, or its first refusal, 1 to 6.
pub fn read_image(s: &[u8]) -> Result<Program, Refusal>
    ensures { parsed_of result ≡ parse s.now }
{
    if s.len() == 0 {
        return Err(Refusal::ImageSize);
    }
    if 65535 < s.len() {
        return Err(Refusal::ImageSize);
    }
    let n = s[0] as usize;
    if n == 0 {
        return Err(Refusal::ModuleCount);
    }
    if MOST_MODULES < n {
        return Err(Refusal::ModuleCount);
    }
    read_modules(s, n)
}
