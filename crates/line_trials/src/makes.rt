// What every make of line does. Each trial is tried on both.
use line::answers::{FeedRefusal, SendRefusal, TakeRefusal};
use line::interface::Line;
use line::registers::RegisterLine;
use line::ring::Ring;
use line::transfer::{feed_all, next_all};
use std::process::Abort;

// As many readings as the limit are accepted and come again in their order; one more is refused.
fn readings_to_the_limit<L: Line + Drop>(rt: &impl Abort, mut line: L, limit: i32) {
    for number in 0..limit {
        assert_eq!(rt; line.feed(number), Ok(()));
    }
    assert_eq!(rt; line.feed(limit), Err(FeedRefusal::Full));
    assert_eq!(rt; line.take(), Err(TakeRefusal::Empty));
    for number in 0..limit {
        assert_eq!(rt; line.next(), Some(number));
    }
    assert_eq!(rt; line.next(), None);
}

fn sends_to_the_limit<L: Line + Drop>(rt: &impl Abort, mut line: L, limit: i32) {
    for number in 0..limit {
        assert_eq!(rt; line.send(number), Ok(()));
    }
    assert_eq!(rt; line.send(limit), Err(SendRefusal::Full));
    assert_eq!(rt; line.next(), None);
    for number in 0..limit {
        assert_eq!(rt; line.take(), Ok(number));
    }
    assert_eq!(rt; line.take(), Err(TakeRefusal::Empty));
}

// One number goes in for each that comes out, until all places were used several times.
fn all_the_way_round<L: Line + Drop>(rt: &impl Abort, mut line: L) {
    for number in 0..50 {
        assert_eq!(rt; line.feed(number), Ok(()));
        assert_eq!(rt; line.send(number), Ok(()));
    }
    for number in 0..200 {
        assert_eq!(rt; line.next(), Some(number));
        assert_eq!(rt; line.feed(number + 50), Ok(()));
        assert_eq!(rt; line.take(), Ok(number));
        assert_eq!(rt; line.send(number + 50), Ok(()));
    }
}

const NUMBERS: [i32; 10] = [
    -2147483648,
    2147483647,
    -1,
    0,
    65535,
    65536,
    -65536,
    -65537,
    32768,
    -32769,
];

// Numbers from both ends of the range, and those next to a register's ends, are not altered.
fn any_number<L: Line + Drop>(rt: &impl Abort, mut line: L) {
    let mut got = [0; 10];
    assert_eq!(rt; feed_all(&mut line, &NUMBERS), 10);
    assert_eq!(rt; next_all(&mut line, &mut got), 10);
    assert_eq!(rt; got, NUMBERS);
    for number in NUMBERS {
        assert_eq!(rt; line.send(number), Ok(()));
        assert_eq!(rt; line.take(), Ok(number));
    }
}

// Of more numbers than there is room for, as many as there is room for are accepted.
fn more_than_the_limit<L: Line + Drop>(rt: &impl Abort, mut line: L, limit: usize) {
    assert_eq!(rt; feed_all(&mut line, &[3; 100]), limit);
    assert_eq!(rt; feed_all(&mut line, &[4; 100]), 0);
    let mut got = [0; 100];
    assert_eq!(rt; next_all(&mut line, &mut got), limit);
    assert_eq!(rt; next_all(&mut line, &mut got), 0);
}

#[test]
fn limits(rt: HostRuntime) {
    readings_to_the_limit(&rt, Ring::new(), 64);
    readings_to_the_limit(&rt, RegisterLine::new(), 60);
    sends_to_the_limit(&rt, Ring::new(), 64);
    sends_to_the_limit(&rt, RegisterLine::new(), 60);
    more_than_the_limit(&rt, Ring::new(), 64);
    more_than_the_limit(&rt, RegisterLine::new(), 60);
}

#[test]
fn rounds(rt: HostRuntime) {
    all_the_way_round(&rt, Ring::new());
    all_the_way_round(&rt, RegisterLine::new());
}

#[test]
fn range(rt: HostRuntime) {
    any_number(&rt, Ring::new());
    any_number(&rt, RegisterLine::new());
}

#[test]
fn refusal_numbers(rt: HostRuntime) {
    assert_eq!(rt; FeedRefusal::Full.number(), 51);
    assert_eq!(rt; TakeRefusal::Empty.number(), 52);
}
