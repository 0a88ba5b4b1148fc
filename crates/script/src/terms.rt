use crate::order_name::OrderName;

/// The terms of a search: the order that it goes by, and how many slots and bytes for the run it is handed.
#[derive(Clone, Copy, Debug, PartialEq, Eq)]
pub struct Terms {
    /// The order.
    pub order: OrderName,
    /// How many slots.
    pub slots: usize,
    /// How many bytes for the run.
    pub bytes: usize,
}
