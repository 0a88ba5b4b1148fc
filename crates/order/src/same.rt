ghost use Rattle.order.specs.Orders.{same};

use crate::interface::Order;

/// The order in which each number below 64 is below itself and no other.
#[derive(Clone, Copy, Debug, Default, PartialEq, Eq)]
pub struct Same;

impl Order for Same {
    ghost below = { λ _ p r. same p r };

    fn is_below(&self, p: u8, r: u8) -> bool {
        p < 64 && p == r
    }
}
