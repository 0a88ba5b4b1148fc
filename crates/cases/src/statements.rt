use plan::refusal::Refusal;
use plan::table::Table;
use script::search_statement::{SearchStatement, parse_search};
use script::statement::{Statement, parse};
use script::terms::Terms;
use search::pair::Pair;
use std::test::Fail;
use walk::slot::{Mark, Slot};
use wording::answer::{Answer, word_answer, word_file};
use wording::draw::draw;
use wording::echo::echo;
use wording::notice::{Notice, word_notice};
use wording::slots::word_slots;
use wording::verdict::word_search;

#[test]
fn answers_are_worded(rt: HostRuntime) -> Result<(), Fail> {
    let answers = [
        Answer::Done,
        Answer::Number(10),
        Answer::Refused(Refusal::ArrowNotMatched {
            p: 2,
            r: 1,
            command: 0,
            target: 3,
        }),
        Answer::UnknownPlan,
    ];
    let mut out = Vec::new(rt.alloc());
    for answer in answers {
        word_answer(&mut out, answer)?;
        out.push(b'\n')?;
    }
    let text: &[u8] =
        b"ok\n10\nrefused 9 2 1 0 3 (programme state 2, programme state 1, command a, programme state 3: the first is below the second, but its arrow has no answer there)\nunknown plan\n";
    assert!(rt; out.as_slice() == text);
    Ok(())
}

#[test]
fn files_are_worded(rt: HostRuntime) -> Result<(), Fail> {
    let mut out = Vec::new(rt.alloc());
    word_file(&mut out, &[0, 255])?;
    word_file(&mut out, &[])?;
    let text: &[u8] = b"00ff-";
    assert!(rt; out.as_slice() == text);
    Ok(())
}

#[test]
fn statements_are_echoed(rt: HostRuntime) -> Result<(), Fail> {
    let mut out = Vec::new(rt.alloc());
    echo(&mut out, b" plan\tfirst  03000100\r")?;
    echo(&mut out, b" arrow 0 1  c 2 ")?;
    let text: &[u8] = b"plan firstarrow 0 1 c 2";
    assert!(rt; out.as_slice() == text);
    Ok(())
}

#[test]
fn statements_are_parsed(rt: HostRuntime) {
    assert!(rt;
        matches!(
            parse(b"write 1"),
            Some(Statement::Write {
                side: 1,
                buffer: 8192
            })
        )
    );
    assert!(rt;
        matches!(
            parse(b"lift 0 3 z 004"),
            Some(Statement::Lift {
                side: 0,
                from: 3,
                command: 25,
                to: 4
            })
        )
    );
    assert!(rt; parse(b"show 256").is_none());
    assert!(rt; parse(b"plan p 0").is_none());
}

#[test]
fn searches_are_parsed(rt: HostRuntime) {
    assert!(rt;
        matches!(
            parse_search(b"compare-plans p r same 7"),
            Some(SearchStatement::ComparePlans {
                terms: Terms {
                    slots: 7,
                    bytes: 7,
                    ..
                },
                ..
            })
        )
    );
    assert!(rt;
        matches!(
            parse_search(b"open-plan r 255 greatest 18446744073709551615 0"),
            Some(SearchStatement::OpenPlan {
                commands: 255,
                terms: Terms {
                    slots: 18_446_744_073_709_551_615,
                    bytes: 0,
                    ..
                },
                ..
            })
        )
    );
    assert!(rt; parse_search(b"open-plan r 256 same 1").is_none());
    assert!(rt; parse_search(b"compare-plans p r same 18446744073709551616").is_none());
    assert!(rt; parse_search(b"compare-plans p r same").is_none());
    assert!(rt;
        matches!(
            parse_search(b"open 26 delivered 4096 4095"),
            Some(SearchStatement::Open {
                commands: 26,
                terms: Terms {
                    slots: 4096,
                    bytes: 4095,
                    ..
                },
            })
        )
    );
    assert!(rt; parse_search(b"compare p r same 7").is_none());
    assert!(rt;
        matches!(
            parse_search(b"draw 1"),
            Some(SearchStatement::DrawSide { side: 1 })
        )
    );
    assert!(rt; parse_search(b"release now").is_none());
    assert!(rt; parse_search(b"slots 1").is_none());
}

#[test]
fn searches_are_worded(rt: HostRuntime) -> Result<(), Fail> {
    let mut out = Vec::new(rt.alloc());
    word_search(&mut out, (0, 0, 2), &[])?;
    out.push(b'\n')?;
    word_search(&mut out, (1, 3, 4), &[0, 25, 26, 0])?;
    out.push(b'\n')?;
    word_search(&mut out, (1, 0, 0), &[0])?;
    out.push(b'\n')?;
    word_search(&mut out, (2, 0, 1), &[0])?;
    let text: &[u8] =
        b"passed, length 0, stored 2\nfailed, length 3, stored 4, run az? (start, then a, then z, then ?)\nfailed, length 0, stored 0, run - (start)\nfull, length 0, stored 1";
    assert!(rt; out.as_slice() == text);
    Ok(())
}

#[test]
fn plans_are_drawn(rt: HostRuntime) -> Result<(), Fail> {
    let mut table = Table::new();
    assert!(rt; table.add_state().is_ok());
    assert!(rt; table.add_state().is_ok());
    assert!(rt; table.mark_start(0).is_ok());
    assert!(rt; table.mark_end(1).is_ok());
    assert!(rt; table.draw_arrow(0, 0, 1).is_ok());
    assert!(rt; table.draw_arrow(0, 25, 1).is_ok());
    assert!(rt; table.draw_arrow(0, 25, 0).is_ok());
    let mut out = Vec::new(rt.alloc());
    draw(&mut out, &table)?;
    let text: &[u8] =
        b"digraph plan {\n  rankdir=LR;\n  0 [shape=circle];\n  from0 [shape=point, style=invis]; from0 -> 0;\n  0 -> 1 [label=a];\n  0 -> 0 [label=z];\n  0 -> 1 [label=z];\n  1 [shape=doublecircle];\n}";
    assert!(rt; out.as_slice() == text);
    Ok(())
}

#[test]
fn slots_are_worded(rt: HostRuntime) -> Result<(), Fail> {
    let pair = Slot {
        item: Pair {
            state: 3,
            states: 6,
        },
        depth: 1,
        parent: 0,
        command: 12,
        mark: Mark::Withdrawn,
    };
    let set = Slot {
        item: 0,
        depth: 0,
        parent: 65535,
        command: 255,
        mark: Mark::Waiting,
    };
    let mut out = Vec::new(rt.alloc());
    word_slots(&mut out, &[pair])?;
    out.push(b'\n')?;
    word_slots(&mut out, &[set, set])?;
    let text: &[u8] =
        b"1 stored\n  0 pair 3 {1 2} depth 1 parent 0 command 12 withdrawn\n2 stored\n  0 set {} depth 0 parent 65535 command 255 waiting\n  1 set {} depth 0 parent 65535 command 255 waiting";
    assert!(rt; out.as_slice() == text);
    Ok(())
}

#[test]
fn notices_are_worded(rt: HostRuntime) -> Result<(), Fail> {
    let mut out = Vec::new(rt.alloc());
    word_notice(&mut out, Notice::NoSearch)?;
    out.push(b'\n')?;
    word_notice(&mut out, Notice::Granted)?;
    assert!(rt; out.as_slice() == b"none\ngranted".as_slice());
    Ok(())
}
