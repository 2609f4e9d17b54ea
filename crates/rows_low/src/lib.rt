// The first eight rows of sixteen opcodes: constants, jumps, and the loads and stores of words.
#![tactic(auto)]

ghost use Rattle.std.specs.Prelude.{◌≡◌, true, List, ℕ, ◌≤◌, ◌<◌, ◌/◌, length};
ghost use Rattle.mcode.specs.Image.{most_modules, bases_of};
ghost use Rattle.mcode.specs.Depths.{names_module};
ghost use Rattle.mcode.specs.Step.{Lent};
ghost use Rattle.actions.specs.Core.{result_of, after, instruction, operand_at, Stays};
ghost use Rattle.actions.specs.Table.{Based, Ready};

use actions::compute::{add_top, put_word};
use actions::jumps::{jump, jump_and, jump_or, jump_zero, nothing};
use actions::leaf::{back, base_of, forward, operand, operand_word, plus};
use actions::memory::{load, load_top, save, save_below};
use actions::pairs::{load_pair, put_pair, save_pair};
use actions::{Core, Stepped, TABLE_WORDS};

// 000 to 017 put 0 to 15.
pub fn row0(op: u8, r: Core, stack: &mut [u16; 16]) -> Stepped
    requires { (op / 16 ≡ 0) × (r.depth < 16) × (r.start ≤ r.pc) × (r.pc ≤ 65535) }
    ensures { ((lent : Lent) (o : ℕ → ℕ) (store out : List ℕ) → result_of r result stack.new store out ≡ instruction lent op o r stack.old store out) × Stays r (after r result) }
{
    put_word(r, stack, op as u16, r.pc + 1)
}

// 020, 022 and 023 put an operand. 021 is not listed.
fn operands(op: u8, r: Core, image: &[u8], stack: &mut [u16; 16]) -> Stepped
    requires op_value { (op / 16 ≡ 1) × (op < 0o24) }
    requires ready { Ready op r (length image.now) }
    ensures { ((lent : Lent) (store out : List ℕ) → result_of r result stack.new store out ≡ instruction lent op (operand_at image.now r) r stack.old store out) × Stays r (after r result) }
{
    match op {
        0o20 => put_word(r, stack, operand(r, image, 1), r.pc + 2),
        0o22 => put_word(r, stack, operand_word(r, image, 1), r.pc + 3),
        0o23 => put_pair(
            r,
            stack,
            operand_word(r, image, 1),
            operand_word(r, image, 3),
            r.pc + 5,
        ),
        _ => nothing(r, r.pc),
    }
}

// 020, 022 and 023 put an operand, 024 to 027 a sum; 030 to 037 jump. The operands are tested before the match, which is a second
// jump table: they are common, and long programs mispredict such a jump.
pub fn row1(
    op: u8,
    r: Core,
    image: &[u8],
    table: &[u16; TABLE_WORDS],
    stack: &mut [u16; 16],
) -> Stepped
    requires op_value { op / 16 ≡ 1 }
    requires ready { Ready op r (length image.now) }
    requires r_bound { names_module op ≡ true → operand_at image.now r 1 < most_modules }
    ensures { ((lent : Lent) → Based table.now r (bases_of lent.program) → (store out : List ℕ) → result_of r result stack.new store out ≡ instruction lent op (operand_at image.now r) r stack.old store out) × Stays r (after r result) }
{
    if op < 0o24 {
        return operands(op, r, image, stack);
    }
    match op {
        0o24 => put_word(r, stack, plus(r.l, operand(r, image, 1)).0, r.pc + 2),
        0o25 => put_word(r, stack, plus(r.g, operand(r, image, 1)).0, r.pc + 2),
        0o26 => add_top(r, stack, operand(r, image, 1), r.pc + 2),
        0o27 => put_word(
            r,
            stack,
            plus(base_of(table, operand(r, image, 1)), operand(r, image, 2)).0,
            r.pc + 3,
        ),
        0o30 => jump_zero(r, stack, forward(r, operand_word(r, image, 1)), r.pc + 3),
        0o31 => jump(r, forward(r, operand_word(r, image, 1))),
        0o32 => jump_zero(r, stack, forward(r, operand(r, image, 1)), r.pc + 2),
        0o33 => jump(r, forward(r, operand(r, image, 1))),
        0o34 => jump_zero(r, stack, back(r, operand(r, image, 1)), r.pc + 2),
        0o35 => jump(r, back(r, operand(r, image, 1))),
        0o36 => jump_or(r, stack, forward(r, operand(r, image, 1)), r.pc + 2),
        0o37 => jump_and(r, stack, forward(r, operand(r, image, 1)), r.pc + 2),
        _ => nothing(r, r.pc),
    }
}

// 040, 044 to 057 load a word from L, 042 from a module's base; 041 and 043 a pair. In this row and the next the short forms are tested
// first, and a match has three cases and the rest: of four the compiler would make a second jump table.
pub fn row2(
    op: u8,
    r: Core,
    image: &[u8],
    table: &[u16; TABLE_WORDS],
    stack: &mut [u16; 16],
    store: &[u16],
) -> Stepped
    requires op_value { op / 16 ≡ 2 }
    requires ready { Ready op r (length image.now) }
    requires r_bound { names_module op ≡ true → operand_at image.now r 1 < most_modules }
    requires store_len_bound { length store.now ≤ 65535 }
    ensures { ((lent : Lent) → Based table.now r (bases_of lent.program) → (out : List ℕ) → result_of r result stack.new store.now out ≡ instruction lent op (operand_at image.now r) r stack.old store.now out) × Stays r (after r result) }
{
    if 0o43 < op {
        return load(r, stack, store, plus(r.l, (op - 0o40) as u16), r.pc + 1);
    }
    match op {
        0o40 => load(r, stack, store, plus(r.l, operand(r, image, 1)), r.pc + 2),
        0o41 => load_pair(r, stack, store, plus(r.l, operand(r, image, 1)), r.pc + 2),
        0o42 => load(
            r,
            stack,
            store,
            plus(base_of(table, operand(r, image, 1)), operand(r, image, 2)),
            r.pc + 3,
        ),
        _ => load_pair(
            r,
            stack,
            store,
            plus(base_of(table, operand(r, image, 1)), operand(r, image, 2)),
            r.pc + 3,
        ),
    }
}

// 060, 064 to 077 store a word from L, 062 from a module's base; 061 and 063 a pair.
pub fn row3(
    op: u8,
    r: Core,
    image: &[u8],
    table: &[u16; TABLE_WORDS],
    stack: &mut [u16; 16],
    store: &mut [u16],
) -> Stepped
    requires op_value { op / 16 ≡ 3 }
    requires ready { Ready op r (length image.now) }
    requires r_bound { names_module op ≡ true → operand_at image.now r 1 < most_modules }
    requires store_len_bound { length store.old ≤ 65535 }
    ensures { ((lent : Lent) → Based table.now r (bases_of lent.program) → (out : List ℕ) → result_of r result stack.new store.new out ≡ instruction lent op (operand_at image.now r) r stack.old store.old out) × Stays r (after r result) }
{
    if 0o63 < op {
        return save(r, stack, store, plus(r.l, (op - 0o60) as u16), r.pc + 1);
    }
    match op {
        0o60 => save(r, stack, store, plus(r.l, operand(r, image, 1)), r.pc + 2),
        0o61 => save_pair(r, stack, store, plus(r.l, operand(r, image, 1)), r.pc + 2),
        0o62 => save(
            r,
            stack,
            store,
            plus(base_of(table, operand(r, image, 1)), operand(r, image, 2)),
            r.pc + 3,
        ),
        _ => save_pair(
            r,
            stack,
            store,
            plus(base_of(table, operand(r, image, 1)), operand(r, image, 2)),
            r.pc + 3,
        ),
    }
}

// 100, 102 to 117 load a word from G, 101 a pair.
pub fn row4(op: u8, r: Core, image: &[u8], stack: &mut [u16; 16], store: &[u16]) -> Stepped
    requires op_value { op / 16 ≡ 4 }
    requires ready { Ready op r (length image.now) }
    requires store_len_bound { length store.now ≤ 65535 }
    ensures { ((lent : Lent) (numbers : List ℕ) → Based numbers r (bases_of lent.program) → (out : List ℕ) → result_of r result stack.new store.now out ≡ instruction lent op (operand_at image.now r) r stack.old store.now out) × Stays r (after r result) }
{
    if op == 0o100 {
        return load(r, stack, store, plus(r.g, operand(r, image, 1)), r.pc + 2);
    }
    if op == 0o101 {
        return load_pair(r, stack, store, plus(r.g, operand(r, image, 1)), r.pc + 2);
    }
    load(r, stack, store, plus(r.g, (op - 0o100) as u16), r.pc + 1)
}

// 120, 122 to 137 store a word from G, 121 a pair.
pub fn row5(op: u8, r: Core, image: &[u8], stack: &mut [u16; 16], store: &mut [u16]) -> Stepped
    requires op_value { op / 16 ≡ 5 }
    requires ready { Ready op r (length image.now) }
    requires store_len_bound { length store.old ≤ 65535 }
    ensures { ((lent : Lent) (numbers : List ℕ) → Based numbers r (bases_of lent.program) → (out : List ℕ) → result_of r result stack.new store.new out ≡ instruction lent op (operand_at image.now r) r stack.old store.old out) × Stays r (after r result) }
{
    if op == 0o120 {
        return save(r, stack, store, plus(r.g, operand(r, image, 1)), r.pc + 2);
    }
    if op == 0o121 {
        return save_pair(r, stack, store, plus(r.g, operand(r, image, 1)), r.pc + 2);
    }
    save(r, stack, store, plus(r.g, (op - 0o120) as u16), r.pc + 1)
}

// 140 to 157 load the word at a + 0 to a + 15.
pub fn row6(op: u8, r: Core, stack: &mut [u16; 16], store: &[u16]) -> Stepped
    requires { (op / 16 ≡ 6) × (0 < r.depth) × (r.depth ≤ 16) × (r.start ≤ r.pc) × (r.pc ≤ 65535) }
    ensures { ((lent : Lent) (o : ℕ → ℕ) (out : List ℕ) → result_of r result stack.new store.now out ≡ instruction lent op o r stack.old store.now out) × Stays r (after r result) }
{
    load_top(r, stack, store, (op - 0o140) as u16, r.pc + 1)
}

// 160 to 177 store a at c + 0 to c + 15.
pub fn row7(op: u8, r: Core, stack: &mut [u16; 16], store: &mut [u16]) -> Stepped
    requires { (op / 16 ≡ 7) × (1 < r.depth) × (r.depth ≤ 16) × (r.start ≤ r.pc) × (r.pc ≤ 65535) }
    ensures { ((lent : Lent) (o : ℕ → ℕ) (out : List ℕ) → result_of r result stack.new store.new out ≡ instruction lent op o r stack.old store.old out) × Stays r (after r result) }
{
    save_below(r, stack, store, (op - 0o160) as u16, r.pc + 1)
}
