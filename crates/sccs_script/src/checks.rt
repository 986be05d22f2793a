ghost use Rattle.std.specs.Prelude.{◌≡◌, suc, ◌+◌, ◌-◌, ◌^◌, ◌<◌, ◌≤◌, length, position};
ghost use Rattle.std.specs.List.{AllByRecursion};
ghost use Rattle.sccs_sid.specs.SidLists.{begins};
ghost use Rattle.sccs_script.specs.Checks.{bare_soh, checked_script, length_after, ranged};
ghost use Rattle.sccs_script.specs.Commands.{FitsIn};

use crate::faults::ScriptFault;
use crate::reading::Script;
use sccs_base::{Line, SOH};
use sccs_script_laws::{Order, OrderKind};

// how many lines are named by an order
fn named(order: &Order) -> u128
    ensures value { result ≡ suc order.now.last - order.now.first }
{
    (u128::from(order.last) + 1).saturating_sub(u128::from(order.first))
}

// how many lines a text of so many has after an order
fn length_after(order: &Order, lines: u128) -> u128
    requires { lines + 2 ^ 64 ≤ 2 ^ 128 }
    ensures value { result ≡ length_after order.now lines }
    ensures small { result ≤ lines + 2 ^ 64 }
{
    let new = u128::from(order.lines.len());
    match order.kind {
        OrderKind::Append => lines + new,
        OrderKind::Delete => lines.saturating_sub(named(order)),
        OrderKind::Change => lines.saturating_sub(named(order)) + new,
    }
}

// the first order that names a line past the text that it begins with
fn check_numbers(orders: &[Order], lines: u64) -> Result<(), ScriptFault>
    ensures { result ≡ ranged orders.now lines }
{
    // each of up to 2^64 orders may add as many lines
    let mut length = u128::from(lines);
    for order in orders {
        if length < u128::from(order.last) {
            return Err(ScriptFault::ScriptRange(order.line, length as u64));
        }
        length = length_after(order, length);
    }
    Ok(())
}

// whether a line begins with SOH
fn begins_with_soh(line: &Line) -> bool
    ensures { result ≡ begins 1 line.now }
{
    match line.bytes() {
        [first, ..] => *first == SOH,
        _ => false,
    }
}

// how many lines stand before the first that begins with SOH
fn bad_place(lines: &[Line]) -> Option<usize>
    ensures { result ≡ position (begins 1) lines.now }
{
    lines.iter().position(|line| begins_with_soh(line))
}

// the first line of a text that begins with SOH
fn check_texts(orders: &[Order]) -> Result<(), ScriptFault>
    requires { AllByRecursion (FitsIn (2 ^ 64)) orders.now }
    ensures { result ≡ bare_soh orders.now }
{
    for order in orders {
        if let Some(place) = bad_place(order.lines.items()) {
            return Err(ScriptFault::BadText(order.line + 1 + place as u64));
        }
    }
    Ok(())
}

/// Whether a script is fit for a text of so many lines, at most 1,073,741,824. ScriptRange has the
/// line of the first command that names a line past the length that the text has when this command
/// begins, and that length. Else BadText has the first text line that begins with SOH. It takes no
/// memory.
pub fn check(script: &Script, lines: u64) -> Result<(), ScriptFault>
    requires { lines ≤ 1073741824 }
    ensures { result ≡ checked_script script.now lines }
{
    check_numbers(script.orders(), lines)?;
    check_texts(script.orders())
}
