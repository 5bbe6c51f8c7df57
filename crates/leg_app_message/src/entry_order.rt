//! What is said of two DEFs that are the same but for the order of entries.

ghost use Rattle.std.specs.Prelude.{◌≡◌, IfOk};
ghost use Rattle.leg_app_message.specs.EntryOrder.{order_text, order_message};

use leg_print_words::push_parts;
use leg_rules::OtherOrder;
use std::alloc::{AllocError, Allocator};

/// Which entries stand in another order, and what hangs on it; nothing where none do.
fn order_text(order: OtherOrder) -> &'static [u8]
    ensures { result.now ≡ order_text order.components order.nets }
{
    match (order.components, order.nets) {
        (true, true) =>
            b"the entries of COMPONENTS and of NETS stand in another order: legalise and flow break ties by the one, route and flow take nets in the other, and finish breaks ties by it, so they may answer otherwise",
        (true, false) =>
            b"the entries of COMPONENTS stand in another order, by which legalise and flow break ties: they may answer otherwise",
        (false, true) =>
            b"the entries of NETS stand in another order, in which route and flow take nets and by which finish breaks ties: they may answer otherwise",
        (false, false) => b"",
    }
}

/// The message on DEFs of these paths, of which `compare` tells this order; none where no entries stand in another one.
pub fn order_message<A: Allocator + Copy>(
    alloc: A,
    before: &[u8],
    after: &[u8],
    order: OtherOrder,
) -> Result<Vec<u8, A>, AllocError>
    ensures { IfOk result (λ m. m.items ≡ order_message before.now after.now order.components order.nets) }
{
    let mut message = Vec::new(alloc);
    if order.components || order.nets {
        push_parts(&mut message, &[after, b": the same as "])?;
        push_parts(&mut message, &[before, b", but "])?;
        push_parts(&mut message, &[order_text(order), b"\n"])?;
    }
    Ok(message)
}
