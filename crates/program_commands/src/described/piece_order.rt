//! The order of pieces.
ghost use Rattle.std.specs.Prelude.{◌≡◌};
ghost use Rattle.program_line.specs.declared.job.Order.TheVariants as line;
ghost use Rattle.bl_store.specs.declared.order.Order.TheVariants as store;

use bl_session as session;
use program_line::Order;

/// The order of pieces that is named on the command line, as a store takes it.
pub fn order_of(order: Order) -> session::Order
    ensures forward { order ≡ line.Forward → result ≡ store.Forward }
    ensures reverse { order ≡ line.Reverse → result ≡ store.Reverse }
{
    match order {
        Order::Forward => session::Order::Forward,
        Order::Reverse => session::Order::Reverse,
    }
}
