//! An example of the guide: two spans in one byte.

use bitvec::prelude::*;
use bitvec::run::{can_run, run};

fn two_in_one_byte(memory: &mut [u8; 1]) -> [Reply<u8>; 3] {
    let first: BitSpan<u8, Lsb0> = BitSpan::at(0, 3).unwrap();
    let second = BitSpan::at(3, 5).unwrap();
    let requests = [
        Request {
            span: 1,
            command: Command::Set(0),
        },
        Request {
            span: 0,
            command: Command::Replace(1, true),
        },
        Request {
            span: 1,
            command: Command::Read(4),
        },
    ];
    let mut replies = [Reply::NoSpan; 3];
    if can_run(&[first, second], memory.len()) {
        run(&[first, second], memory, &requests, &mut replies);
    }
    replies
}

#[test]
fn each_span_is_alone(rt: HostRuntime) {
    let mut memory = [0];
    let replies = two_in_one_byte(&mut memory);
    assert_eq!(rt;
        replies,
        [Reply::Word(0), Reply::Bit(false), Reply::Bit(true)]
    );
    assert_eq!(rt; memory, [0b1111_1010]);
}
