ghost use Rattle.std.specs.Prelude.{◌≡◌};
ghost use Rattle.script.specs.OrderNames.{order_of};

/// The name of an order.
#[derive(Clone, Copy, Debug, PartialEq, Eq)]
pub enum OrderName {
    /// Each state is below itself and no other.
    Same,
    /// The greatest order of the two plans.
    Greatest,
    /// The order that was delivered last.
    Delivered,
}

// Stays: no plainer: `TryFrom` would hand out `()` as an error, which each caller would turn into `None` by `ok()`.
/// The order that the word names, if it names one.
pub(crate) fn order_name(word: &[u8]) -> Option<OrderName>
    ensures { result ≡ order_of word.now }
{
    match word {
        b"same" => Some(OrderName::Same),
        b"greatest" => Some(OrderName::Greatest),
        b"delivered" => Some(OrderName::Delivered),
        _ => None,
    }
}
