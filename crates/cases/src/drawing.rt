use crate::outcome::by_number;
use plan::interface::Plan;
use plan::runs::permits;
use plan::table::Table;

#[test]
fn a_side_takes_32_states_and_refuses_a_33rd(rt: HostRuntime) {
    let mut table = Table::new();
    for i in 0..32u8 {
        assert_eq!(rt; by_number(table.add_state()), Ok(i));
    }
    assert_eq!(rt; by_number(table.add_state()), Err(2));
    assert_eq!(rt; table.count(), 32);
    assert_eq!(rt; by_number(table.mark_start(31)), Ok(()));
    assert_eq!(rt; by_number(table.mark_start(32)), Err(3));
    assert_eq!(rt; by_number(table.draw_arrow(31, 25, 31)), Ok(()));
    assert_eq!(rt; table.targets(31, 25), 1 << 31);
}

#[test]
fn arguments_are_checked_as_they_are_named(rt: HostRuntime) {
    let mut table = Table::new();
    assert_eq!(rt; by_number(table.mark_end(0)), Err(3));
    assert!(rt; table.add_state().is_ok());
    assert_eq!(rt; by_number(table.draw_arrow(1, 26, 1)), Err(3));
    assert_eq!(rt; by_number(table.draw_arrow(0, 26, 1)), Err(4));
    assert_eq!(rt; by_number(table.draw_arrow(0, 25, 1)), Err(3));
    assert_eq!(rt; by_number(table.lift_arrow(1, 26, 1)), Err(3));
    assert_eq!(rt; by_number(table.lift_arrow(0, 26, 1)), Err(4));
    assert_eq!(rt; by_number(table.lift_arrow(0, 25, 1)), Err(3));
    assert_eq!(rt; table.targets(0, 25), 0);
    assert_eq!(rt; by_number(table.draw_arrow(0, 25, 0)), Ok(()));
    assert_eq!(rt; by_number(table.draw_arrow(0, 25, 0)), Ok(()));
    assert_eq!(rt; table.targets(0, 25), 1);
    assert_eq!(rt; table.targets(0, 26), 0);
    assert_eq!(rt; table.targets(1, 25), 0);
    assert_eq!(rt; by_number(table.lift_arrow(0, 24, 0)), Ok(()));
    assert_eq!(rt; table.targets(0, 25), 1);
    assert_eq!(rt; by_number(table.lift_arrow(0, 25, 0)), Ok(()));
    assert_eq!(rt; table.targets(0, 25), 0);
}

#[test]
fn a_run_is_permitted_by_a_chain_of_arrows(rt: HostRuntime) {
    let mut table = Table::new();
    assert!(rt; !permits(&table, &[]));
    assert!(rt; table.add_state().is_ok());
    assert!(rt; table.add_state().is_ok());
    assert!(rt; table.mark_start(0).is_ok());
    assert!(rt; !permits(&table, &[]));
    assert!(rt; table.mark_end(0).is_ok());
    assert!(rt; permits(&table, &[]));
    assert!(rt; table.draw_arrow(0, 0, 1).is_ok());
    assert!(rt; table.draw_arrow(1, 0, 0).is_ok());
    assert!(rt; !permits(&table, &[0]));
    assert!(rt; permits(&table, &[0, 0]));
    assert!(rt; !permits(&table, &[0, 1]));
    assert!(rt; !permits(&table, &[26]));
    assert!(rt; table.mark_end(1).is_ok());
    assert!(rt; permits(&table, &[0, 0, 0]));
}
