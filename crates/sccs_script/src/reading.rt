ghost use Rattle.std.specs.Prelude.{◌≡◌, ◌<◌, ◌⊎◌, ◌^◌, List, [], None, Some, Ok, Err, length, slice_get, IfOk, IfErr};
ghost use Rattle.std.specs.List.{AllByRecursion};
ghost use Rattle.sccs_script.specs.Commands.{FitsIn, orders_from, orders_of, ReadsScript};
ghost use Rattle.sccs_script.specs.declared.faults.ScriptFault.TheVariants.{Memory};

use crate::faults::ScriptFault;
use crate::turns::{Turn, take_line};
use sccs_base::{ListOf, Text};
use sccs_script_laws::Order;
use std::alloc::Global;
use std::marker::Model;

/// The orders of a script, in the order written. Places count from 0. It is made by `read_script`.
#[derive(Drop)]
pub struct Script {
    orders: ListOf<Order>,
}

impl Model for Script {
    ghost use Rattle.std.specs.Prelude.{List};
    ghost use Rattle.sccs_script_laws.specs.declared.scripts.Order.{Order};
    ghost use Rattle.std.specs.List.{AllByRecursion};
    ghost use Rattle.std.specs.Prelude.{◌^◌};
    ghost use Rattle.sccs_script.specs.Commands.{FitsIn};

    ghost Value = { List Order };

    ghost view = { λ s. s.orders };

    ghost invariant = { λ s. AllByRecursion (FitsIn (2 ^ 64)) s.orders };
}

impl Script {
    pub fn len(&self) -> u64
        ensures { result ≡ length self.now }
    {
        self.orders.len()
    }

    /// The order at a place below the length.
    pub fn at(&self, place: u64) -> &Order
        requires { place < length self.now }
        ensures { slice_get self.now place ≡ Some result.now }
    {
        self.orders.at(place)
    }

    /// The orders as a slice.
    pub(crate) fn orders(&self) -> &[Order]
        ensures value { result.now ≡ self.now }
        ensures fit { AllByRecursion (FitsIn (2 ^ 64)) self.now }
    {
        self.orders.items()
    }
}

// the orders of lines
fn read_lines(alloc: Global, lines: &Text) -> Result<Vec<Order>, ScriptFault>
    ensures ok { IfOk result (λ orders. orders_from [] None 0 lines.now ≡ Ok orders.items) }
    ensures fits { IfOk result (λ orders. AllByRecursion (FitsIn (2 ^ 64)) orders.items) }
    ensures err { IfErr result (λ fault. (fault ≡ Memory) ⊎ (orders_from [] None 0 lines.now ≡ Err fault)) }
{
    let mut orders = Vec::new(alloc);
    let mut text = None;
    for place in 0..lines.len() {
        let Ok(next) = take_line(alloc, text, place + 1, lines.at(place)) else {
            return Err(ScriptFault::Memory);
        };
        match next {
            Turn::Whole(order) => {
                let Ok(()) = orders.push(order) else {
                    return Err(ScriptFault::Memory);
                };
                text = None;
            }
            Turn::Open(order) => text = Some(order),
            Turn::Bad(line) => return Err(ScriptFault::BadScript(line)),
        }
    }
    match text {
        Some(order) => Err(ScriptFault::BadScript(order.line)),
        None => Ok(orders),
    }
}

/// The orders of a script: commands `Na`, `Nc`, `N,Mc`, `Nd` and `N,Md`, one a line, with numbers of
/// one to ten digits up to 4,294,967,295 (POSIX ed). Behind a and c stand text lines up to a single
/// dot. BadScript has the line of the first command that isn't one or whose text isn't ended.
pub fn read_script(alloc: Global, bytes: &[u8]) -> Result<Script, ScriptFault>
    ensures value { ReadsScript result (orders_of bytes.now) }
    ensures fits { IfOk result (AllByRecursion (FitsIn (2 ^ 64))) }
{
    let Ok(lines) = Text::read(alloc, bytes) else {
        return Err(ScriptFault::Memory);
    };
    let orders = read_lines(alloc, &lines)?;
    Ok(Script {
        orders: ListOf::from_vec(orders),
    })
}
