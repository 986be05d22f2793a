ghost use Rattle.std.specs.Prelude.{◌≡◌, ◌+◌, IfOk, IfSome};
ghost use Rattle.sccs_script.specs.Commands.{begun_order, script_command, FitsIn, HasNumbers, is_end_of_text, order_of};
ghost use Rattle.sccs_script.specs.Commands.{turn_at, TurnFits, with_line};

use crate::commands::{Command, command_of, is_dot};
use crate::copies::push_copy;
use sccs_base::{Line, Memory, Text};
use sccs_script_laws::{Order, OrderKind};
use std::alloc::Global;

/// Where reading goes on behind a line.
#[derive(Drop)]
pub enum Turn {
    /// An order is whole.
    Whole(Order),
    /// The text of an order goes on.
    Open(Order),
    /// The command of the line with this number isn't one.
    Bad(u64),
}

// the order of a command, without its text
fn order_of(alloc: Global, number: u64, command: Command) -> Order
    requires { HasNumbers command.kind command.first command.last }
    ensures value { result ≡ order_of number command }
    ensures fits { FitsIn (number + 1) result }
{
    Order {
        kind: command.kind,
        line: number,
        first: command.first,
        last: command.last,
        lines: Text::empty(alloc),
    }
}

// a command line
fn begin(alloc: Global, number: u64, line: &[u8]) -> Turn
    ensures value { result ≡ begun_order number (script_command line.now) }
    ensures fits { TurnFits (number + 1) result }
{
    let Some(command) = command_of(line) else {
        return Turn::Bad(number);
    };
    let order = order_of(alloc, number, command);
    match command.kind {
        OrderKind::Delete => Turn::Whole(order),
        OrderKind::Append => Turn::Open(order),
        OrderKind::Change => Turn::Open(order),
    }
}

// a line of a text, or the dot that ends it
fn go_on(alloc: Global, mut order: Order, number: u64, line: &Line) -> Result<Turn, Memory>
    requires { FitsIn number order }
    ensures value { IfOk result (λ t. t ≡ with_line (is_end_of_text line.now) order line.now) }
    ensures fits { IfOk result (TurnFits (number + 1)) }
{
    if is_dot(line.bytes()) {
        return Ok(Turn::Whole(order));
    }
    push_copy(alloc, &mut order.lines, line)?;
    Ok(Turn::Open(order))
}

/// Takes the line with this number, where `text` is the order whose text goes on.
pub fn take_line(
    alloc: Global,
    text: Option<Order>,
    number: u64,
    line: &Line,
) -> Result<Turn, Memory>
    requires { IfSome text (FitsIn number) }
    ensures value { IfOk result (λ t. t ≡ turn_at text number line.now) }
    ensures fits { IfOk result (TurnFits (number + 1)) }
{
    match text {
        None => Ok(begin(alloc, number, line.bytes())),
        Some(order) => go_on(alloc, order, number, line),
    }
}
