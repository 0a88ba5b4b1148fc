use crate::outcome::by_number;
use guard::guard::Guard;
use order::same::Same;
use plan::refusal::Refusal;
use search::pair::Pair;
use std::test::Fail;
use walk::slot::Slot;
use walk::verdict::Numbers;

/// Compares by the order same with so many slots and bytes, 4 at most.
fn compare(guard: &mut Guard, slots: usize, bytes: usize) -> Result<Numbers, u8> {
    let mut store = [Slot::blank(Pair::default()); 4];
    let mut run = [0u8; 4];
    by_number(guard.compare(&Same, &mut store[..slots.min(4)], &mut run[..bytes.min(4)]))
}

/// Asks whether the rule is open for so many commands, likewise, with two slots.
fn open(guard: &Guard, commands: u8) -> Result<Numbers, u8> {
    let mut store = [Slot::blank(0u32); 2];
    let mut run = [0u8; 2];
    by_number(guard.open(commands, &Same, &mut store, &mut run))
}

/// The programme has one state, start and end, with a to itself. The rule has a from 0 to 1 and back; 0 is start and end.
fn drawn() -> Result<Guard, Refusal> {
    let mut guard = Guard::new();
    guard.state(0)?;
    guard.start(0, 0)?;
    guard.end(0, 0)?;
    guard.arrow(0, 0, 0, 0)?;
    guard.state(1)?;
    guard.state(1)?;
    guard.start(1, 0)?;
    guard.end(1, 0)?;
    guard.arrow(1, 0, 0, 1)?;
    guard.arrow(1, 1, 0, 0)?;
    Ok(guard)
}

#[test]
fn each_side_takes_32_states_and_command_25(rt: HostRuntime) {
    let mut guard = Guard::new();
    for side in 0..2u8 {
        for state in 0..32u8 {
            assert_eq!(rt; by_number(guard.state(side)), Ok(state));
        }
        assert_eq!(rt; by_number(guard.state(side)), Err(2));
        assert_eq!(rt; by_number(guard.arrow(side, 31, 25, 31)), Ok(()));
        assert_eq!(rt; by_number(guard.arrow(side, 31, 26, 31)), Err(4));
        assert_eq!(rt; by_number(guard.arrow(side, 32, 26, 31)), Err(3));
        assert_eq!(rt; by_number(guard.lift(side, 31, 26, 32)), Err(4));
        assert_eq!(rt; by_number(guard.lift(side, 31, 25, 32)), Err(3));
    }
    assert_eq!(rt; by_number(guard.start(2, 32)), Err(1));
    assert_eq!(rt; by_number(guard.lift(2, 32, 26, 32)), Err(1));
}

#[test]
fn release_follows_the_last_comparison(rt: HostRuntime) -> Result<(), Fail> {
    assert_eq!(rt; by_number(Guard::new().release()), Err(11));
    let mut guard = drawn().map_err(|_| "refused")?;
    assert_eq!(rt; by_number(guard.release()), Err(11));
    assert_eq!(rt; compare(&mut guard, 4, 4), Ok((1, 1, 1)));
    assert_eq!(rt; by_number(guard.release()), Err(12));
    assert_eq!(rt; by_number(guard.end(1, 1)), Ok(()));
    assert_eq!(rt; by_number(guard.release()), Err(11));
    assert_eq!(rt; compare(&mut guard, 1, 1), Ok((2, 0, 1)));
    assert_eq!(rt; by_number(guard.release()), Err(13));
    assert_eq!(rt; compare(&mut guard, 2, 2), Ok((0, 0, 2)));
    assert_eq!(rt; by_number(guard.release()), Ok(()));
    Ok(())
}

#[test]
fn what_keeps_a_pass_and_what_loses_it(rt: HostRuntime) -> Result<(), Fail> {
    let mut guard = drawn().map_err(|_| "refused")?;
    assert_eq!(rt; by_number(guard.end(1, 1)), Ok(()));
    assert_eq!(rt; compare(&mut guard, 2, 2), Ok((0, 0, 2)));
    assert_eq!(rt; compare(&mut guard, 2, 1), Err(5));
    assert_eq!(rt; by_number(guard.release()), Ok(()), "a refused comparison");
    assert_eq!(rt; open(&guard, 1), Ok((0, 0, 2)));
    assert_eq!(rt; open(&guard, 2), Ok((1, 1, 2)));
    assert_eq!(rt; open(&guard, 0), Err(10));
    assert_eq!(rt; open(&guard, 27), Err(10));
    assert_eq!(rt; by_number(guard.release()), Ok(()), "open");
    assert_eq!(rt; guard.rank()[0], 1 | 3 << 32);
    assert_eq!(rt; by_number(guard.release()), Ok(()), "rank");
    assert_eq!(rt; by_number(guard.start(1, 2)), Err(3));
    assert_eq!(rt; by_number(guard.release()), Ok(()), "a refused drawing");
    assert_eq!(rt; by_number(guard.arrow(0, 0, 0, 0)), Ok(()));
    assert_eq!(rt;
        by_number(guard.release()),
        Err(11),
        "an arrow that was there"
    );
    Ok(())
}
