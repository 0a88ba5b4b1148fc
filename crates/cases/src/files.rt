use crate::outcome::by_values;
use plan::file::FilePlan;
use plan::interface::Plan;
use plan::table::Table;
use plan::writer::write;
use script::hex::decode;
use std::alloc::AllocError;
use std::test::Fail;

/// The file of the one-state plan that is start and end, with command 0 to itself.
const LOOP_FILE: &[u8] = b"\
    \x03\x00\x01\x00\x01\
    \x03\x00\x02\x00\x00\
    \x03\x00\x03\x00\x00\
    \x05\x00\x04\x00\x00\x00\x00";

/// Cases of the reader: the refusal that is due, by its number and its place, where the bytes of the file are refused, and
/// the bytes in hexadecimal. There is a case for each refusal, and one on either side of every bound.
const CASES: [(Result<(), (u8, usize)>, &[u8]); 33] = [
    (Err((15, 0)), b"-"),
    (Err((16, 0)), b"03"),
    (Err((16, 0)), b"03000100"),
    (Ok(()), b"0300010000"),
    (Err((16, 0)), b"0100"),
    (Err((18, 0)), b"0000"),
    (Err((18, 0)), b"010001"),
    (Err((18, 0)), b"02000100"),
    (Err((18, 0)), b"040001000101"),
    (Err((16, 0)), b"0301010001"),
    (Err((17, 0)), b"0300000001"),
    (Err((17, 0)), b"0300050001"),
    (Err((17, 0)), b"040005000101"),
    (Err((17, 0)), b"0300010101"),
    (Err((19, 0)), b"0300020000"),
    (Ok(()), b"0300010020"),
    (Err((20, 0)), b"0300010021"),
    (Err((19, 5)), b"03000100010300010001"),
    (Err((16, 5)), b"030001000103000200"),
    (Err((20, 5)), b"03000100010300020001"),
    (Err((20, 5)), b"03000100000300020000"),
    (Err((18, 5)), b"03000100010300040000"),
    (Ok(()), b"030001000205000400011901"),
    (Err((20, 5)), b"030001000205000400021901"),
    (Err((20, 5)), b"030001000205000400011a01"),
    (Err((20, 5)), b"030001000205000400011902"),
    (Ok(()), b"030001000203000200000300020001"),
    (Err((21, 10)), b"030001000203000200010300020001"),
    (Err((21, 10)), b"030001000203000200010300020000"),
    (Err((21, 10)), b"030001000203000300000300020001"),
    (Ok(()), b"03000100020500040000010105000400010000"),
    (Err((21, 12)), b"03000100020500040001000005000400000101"),
    (Err((20, 5)), b"0300010002030002000507"),
];

/// What the reader answers to the bytes, with a refusal told by its number and its place.
fn read(bytes: &[u8]) -> Result<(), (u8, usize)> {
    by_values(FilePlan::read(bytes))
        .map(|_| ())
        .map_err(|(number, values)| (number, values[0]))
}

#[test]
fn the_file_of_a_loop(rt: HostRuntime) {
    let mut table = Table::new();
    assert!(rt; table.add_state().is_ok());
    assert!(rt; table.mark_start(0).is_ok());
    assert!(rt; table.mark_end(0).is_ok());
    assert!(rt; table.draw_arrow(0, 0, 0).is_ok());
    let mut buffer = [9u8; 24];
    assert_eq!(rt; by_values(write(&table, &mut buffer)), Ok(22));
    let (front, back) = buffer.split_at(22);
    assert!(rt; front == LOOP_FILE);
    assert!(rt; back == [9, 9].as_slice());
    let mut short = [9u8; 21];
    assert_eq!(rt;
        by_values(write(&table, &mut short)),
        Err((22, [22, 0, 0, 0]))
    );
    assert!(rt; short == [9; 21]);
}

#[test]
fn questions_are_answered_from_the_bytes(rt: HostRuntime) -> Result<(), Fail> {
    let plan = FilePlan::read(LOOP_FILE).map_err(|_| "refused")?;
    assert_eq!(rt; plan.count(), 1);
    assert_eq!(rt; plan.starts(), 1);
    assert_eq!(rt; plan.ends(), 1);
    assert_eq!(rt; plan.targets(0, 0), 1);
    assert_eq!(rt; plan.targets(0, 1), 0);
    assert_eq!(rt; plan.targets(1, 0), 0);
    assert_eq!(rt; plan.targets(0, 26), 0);
    Ok(())
}

#[test]
fn damaged_files_are_refused(rt: HostRuntime) -> Result<(), AllocError> {
    for (due, hex) in CASES {
        let bytes = decode(rt.alloc(), hex)?;
        assert_eq!(rt; read(bytes.as_slice()), due);
    }
    Ok(())
}
