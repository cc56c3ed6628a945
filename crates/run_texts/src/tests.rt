// Texts whose schedules, and whose wrong lines, were worked out by hand.
use crate::{ScheduleRefusal, read_schedule};
use std::alloc::{AllocError, Global};
use std::test::Fail;

// A line so many times, and then the last one.
fn lines(alloc: Global, line: &str, times: usize, last: &str) -> Result<Vec<u8>, AllocError> {
    let mut text = Vec::new(alloc);
    for _ in 0..times {
        text.extend_from_slice(line.as_bytes())?;
    }
    text.extend_from_slice(last.as_bytes())?;
    Ok(text)
}

// The refusal of a text, where it is refused.
fn refusal_of(alloc: Global, text: &[u8]) -> Option<ScheduleRefusal> {
    read_schedule(alloc, text).err()
}

#[test]
fn pairs_stand_in_the_order_of_the_lines(rt: HostRuntime) -> Result<(), Fail> {
    let none: &[(u64, u64)] = &[];
    assert_eq!(rt; read_schedule(rt.alloc(), b"")?.pairs(), none);
    assert_eq!(rt;
        read_schedule(rt.alloc(), b"5")?.pairs(),
        [(5, 1)].as_slice()
    );
    assert_eq!(rt;
        read_schedule(rt.alloc(), b"5\n")?.pairs(),
        [(5, 1)].as_slice()
    );
    let most = read_schedule(rt.alloc(), b"1000000\n250*40\n1*1000000000")?;
    let pairs = [(1_000_000, 1), (250, 40), (1, 1_000_000_000)];
    assert_eq!(rt; most.pairs(), pairs.as_slice());
    Ok(())
}

#[test]
fn the_first_wrong_line_is_told(rt: HostRuntime) {
    let texts = [
        ("\n", 1),
        ("10\n\n10", 2),
        ("10\n0\n", 2),
        ("10\n0", 2),
        ("10\n20*3\n0\n0", 3),
        ("0", 1),
        ("1000001", 1),
        ("1*0", 1),
        ("1*1000000001", 1),
        ("01", 1),
        ("1*02", 1),
        ("+1", 1),
        ("-1", 1),
        (" 1", 1),
        ("1 ", 1),
        ("1\r\n", 1),
        ("1*", 1),
        ("*1", 1),
        ("1**2", 1),
        ("1*2*3", 1),
        ("10000000000000000000", 1),
        ("18446744073709551617", 1),
        ("1*18446744073709551617", 1),
    ];
    for (text, line) in texts {
        let refusal = refusal_of(rt.alloc(), text.as_bytes());
        assert_eq!(rt; refusal, Some(ScheduleRefusal::Line(line)), "{text}");
    }
}

#[test]
fn a_schedule_has_at_most_100000_lines(rt: HostRuntime) -> Result<(), Fail> {
    let most = lines(rt.alloc(), "1\n", 99_999, "7")?;
    let schedule = read_schedule(rt.alloc(), &most)?;
    assert_eq!(rt; schedule.pairs().len(), 100_000);
    assert_eq!(rt; schedule.pairs().last(), Some(&(7, 1)));
    for last in ["1", "1\n", "0\n1"] {
        let more = lines(rt.alloc(), "1\n", 100_000, last)?;
        assert_eq!(rt;
            refusal_of(rt.alloc(), &more),
            Some(ScheduleRefusal::Line(100_001)),
            "{last}"
        );
    }
    Ok(())
}

// 80659 lines of 13 bytes are 1048567 bytes, 9 less than the most.
#[test]
fn a_schedule_has_at_most_1048576_bytes(rt: HostRuntime) -> Result<(), Fail> {
    let most = lines(rt.alloc(), "1*1000000000\n", 80_659, "1*1000000")?;
    assert_eq!(rt; most.len(), 1_048_576);
    let schedule = read_schedule(rt.alloc(), &most)?;
    assert_eq!(rt; schedule.pairs().len(), 80_660);
    assert_eq!(rt; schedule.pairs().last(), Some(&(1, 1_000_000)));
    let wrong = lines(rt.alloc(), "1*1000000000\n", 80_659, "0*100000\n")?;
    assert_eq!(rt; wrong.len(), 1_048_576);
    assert_eq!(rt;
        refusal_of(rt.alloc(), &wrong),
        Some(ScheduleRefusal::Line(80_660))
    );
    for last in ["1*1000000\n", "0*1000000\n"] {
        let more = lines(rt.alloc(), "1*1000000000\n", 80_659, last)?;
        assert_eq!(rt; more.len(), 1_048_577);
        assert_eq!(rt;
            refusal_of(rt.alloc(), &more),
            Some(ScheduleRefusal::Line(0)),
            "{last}"
        );
    }
    Ok(())
}
