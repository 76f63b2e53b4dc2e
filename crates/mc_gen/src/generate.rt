// The whole script.
ghost use Rattle.std.specs.Prelude.{◌≡◌, ◌≤◌, ◌<◌, ◌^◌, ◌+◌, ◌++◌, IfOk, OnOk, if◌then◌else◌};
ghost use Rattle.mc_gen.specs.Draws.{drawn, first_after, second_after, third_after};
ghost use Rattle.mc_gen.specs.Lines.{is_cast, line_of_draws};
ghost use Rattle.mc_gen.specs.Script.{script_text};

use crate::draws::draw;
use crate::lines::{push_cast, push_del, push_hear, push_last, push_put, push_work};
use mc_base::Bytes;
use std::alloc::{AllocError, Global};

// The bytes of the longest drawn line, and those that all lines behind the drawn ones have room in.
const LONGEST_LINE: usize = 24;

const LAST_LINES: usize = 512;

/// The script that `count` steps from the number `start` on draw, with one line for each, and with the lines in which
/// three replicas hear of each other and are compared. `count` is at most 100,000.
///
/// Each step draws three times. The first draw gives the replica, the second a key and a value, a message or a number
/// of workers, the third whether the line is `put`, `del`, `cast`, `hear` or `work`. An error is want of memory.
pub fn script(alloc: Global, start: u64, count: u64) -> Result<Bytes, AllocError>
    requires { count ≤ 100000 }
    ensures { IfOk result (λ text. text ≡ script_text start count) }
{
    let capacity = count as usize * LONGEST_LINE + LAST_LINES;
    let mut text = Bytes::with_capacity(alloc, capacity)?;
    let mut number = start;
    let mut sent: u64 = 0;
    for _ in 0..count {
        push_step(&mut text, &mut number, &mut sent)?;
    }
    push_last(&mut text, sent)?;
    Ok(text)
}

// One step: three draws, and their line.
fn push_step(text: &mut Bytes, number: &mut u64, sent: &mut u64) -> Result<(), AllocError>
    requires { sent.old < 2 ^ 32 }
    ensures text { OnOk result (text.new ≡ text.old ++ line_of_draws
        (drawn (first_after number.old)) (drawn (second_after number.old)) (drawn (third_after number.old)) sent.old) }
    ensures number { number.new ≡ third_after number.old }
    ensures sent { OnOk result (sent.new ≡
        sent.old + (if is_cast (drawn (third_after number.old)) sent.old then 1 else 0)) }
{
    let first = draw(number);
    let second = draw(number);
    let third = draw(number);
    push_line(text, first, second, third, sent)
}

// The line of three draws. A `cast` counts as sent.
fn push_line(
    text: &mut Bytes,
    first: u64,
    second: u64,
    third: u64,
    sent: &mut u64,
) -> Result<(), AllocError>
    requires sent { sent.old < 2 ^ 32 }
    requires second { second < 2 ^ 32 }
    ensures text { OnOk result (text.new ≡ text.old ++ line_of_draws first second third sent.old) }
    ensures sent { OnOk result (sent.new ≡ sent.old + (if is_cast third sent.old then 1 else 0)) }
{
    let replica = first % 3;
    match third % 8 {
        0..=3 => push_put(text, replica, second),
        4 => push_del(text, replica, second),
        6 if *sent > 0 => push_hear(text, replica, second % *sent + 1),
        7 => push_work(text, replica, second % 4 + 1),
        _ => {
            *sent += 1;
            push_cast(text, replica)
        }
    }
}
