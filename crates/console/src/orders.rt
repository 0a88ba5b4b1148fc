use order::greatest::rank;
use order::rows::rows_of;
use order::same::Same;
use plan::interface::Plan;
use script::order_name::OrderName;

/// The named order between the states of two plans, as rows; `delivered` is the one that was delivered last.
pub(crate) fn rows_by<P: Plan, R: Plan>(
    order: OrderName,
    programme: &P,
    rule: &R,
    delivered: &[u64; 64],
) -> [u64; 64] {
    match order {
        OrderName::Same => rows_of(&Same),
        OrderName::Greatest => rank(programme, rule),
        OrderName::Delivered => *delivered,
    }
}
