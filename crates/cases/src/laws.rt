use crate::outcome::by_values;
use order::laws::test;
use plan::refusal::Refusal;
use plan::table::Table;

/// Start 0, end 3, arrows under command 0 from 0 to 1 and to 2, and from 2 to 3.
fn fork() -> Result<Table, Refusal> {
    let mut table = Table::new();
    for _ in 0..4 {
        table.add_state()?;
    }
    table.mark_start(0)?;
    table.mark_end(3)?;
    table.draw_arrow(0, 0, 1)?;
    table.draw_arrow(0, 0, 2)?;
    table.draw_arrow(2, 0, 3)?;
    Ok(table)
}

/// What the test answers for rows 0 to 3 with these pairs, and the same row for every other number.
fn answer(first: [u64; 4], others: u64) -> Result<(), (u8, [usize; 4])> {
    let fork = by_values(fork())?;
    let mut rows = [others; 64];
    rows[..4].copy_from_slice(&first);
    by_values(test(&fork, &Table::new(), &rows))
}

#[test]
fn accepted_orders(rt: HostRuntime) {
    assert_eq!(rt; answer([1, 2, 4, 8], 0), Ok(()));
    assert_eq!(rt; answer([1, 6, 4, 8], 0), Ok(()));
    assert_eq!(rt;
        answer([1, 2, 4, 8], 7),
        Ok(()),
        "pairs of states that do not exist are not looked at"
    );
}

#[test]
fn broken_laws(rt: HostRuntime) {
    assert_eq!(rt; answer([0, 2, 4, 8], 0), Err((6, [0, 0, 0, 0])));
    assert_eq!(rt; answer([1, 2, 4, 7], 0), Err((6, [3, 0, 0, 0])));
    assert_eq!(rt; answer([3, 6, 4, 8], 0), Err((7, [0, 1, 2, 0])));
    assert_eq!(rt; answer([1, 6, 12, 8], 0), Err((7, [1, 2, 3, 0])));
    assert_eq!(rt; answer([1, 2, 4, 9], 0), Err((8, [3, 0, 0, 0])));
    assert_eq!(rt; answer([1, 2, 4, 12], 0), Err((8, [3, 2, 0, 0])));
    assert_eq!(rt; answer([3, 2, 4, 8], 0), Err((9, [0, 1, 0, 1])));
    assert_eq!(rt; answer([1, 2, 6, 8], 0), Err((9, [2, 1, 0, 3])));
}
