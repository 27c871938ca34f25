//! The examples in the documents of commands and their runs.

use bitvec::index::BitIdx;
use bitvec::order::Lsb0;
use bitvec::ptr::span::BitSpan;
use bitvec::run::{Command, Reply, Request, can_run, can_run_in, run, step};

#[test]
fn a_command(rt: HostRuntime) {
    let span: BitSpan<u8, Lsb0> = BitSpan::new(0, BitIdx::new_unchecked(1), 6).unwrap();
    let mut memory = [0x9Bu8];
    let command = Command::Store(0, 0x24);
    let requests = [Request { span: 0, command }];
    let mut replies = [Reply::NoSpan];
    run(&[span], &mut memory, &requests, &mut replies);
    assert_eq!(rt; replies, [Reply::Word(0x1A)]);
    assert_eq!(rt; memory, [0xA5]);
}

#[test]
fn a_request(rt: HostRuntime) {
    let low: BitSpan<u8, Lsb0> = BitSpan::new(0, BitIdx::new_unchecked(0), 3).unwrap();
    let high = BitSpan::new(0, BitIdx::new_unchecked(3), 5).unwrap();
    let mut memory = [0xFAu8];
    let command = Command::Clear(0);
    let requests = [Request { span: 1, command }];
    let mut replies = [Reply::NoSpan];
    run(&[low, high], &mut memory, &requests, &mut replies);
    assert_eq!(rt; memory, [0x02]);
}

#[test]
fn a_reply(rt: HostRuntime) {
    let span: BitSpan<u8, Lsb0> = BitSpan::new(0, BitIdx::new_unchecked(4), 8).unwrap();
    let mut memory = [0x12u8, 0x34];
    let command = Command::Load(1);
    let requests = [Request { span: 0, command }, Request { span: 1, command }];
    let mut replies = [Reply::NoSpan; 2];
    run(&[span], &mut memory, &requests, &mut replies);
    assert_eq!(rt; replies, [Reply::Word(0x04), Reply::NoSpan]);
}

#[test]
fn spans_that_can_run(rt: HostRuntime) {
    let low: BitSpan<u8, Lsb0> = BitSpan::new(0, BitIdx::new_unchecked(0), 3).unwrap();
    let high = BitSpan::new(0, BitIdx::new_unchecked(3), 5).unwrap();
    assert!(rt; can_run(&[low, high], 1));
    assert!(rt; !can_run(&[low, high], 0));
    assert!(rt; !can_run(&[low, low], 1));
}

#[test]
fn spans_in_no_order(rt: HostRuntime) {
    let low: BitSpan<u8, Lsb0> = BitSpan::new(0, BitIdx::new_unchecked(0), 3).unwrap();
    let high = BitSpan::new(0, BitIdx::new_unchecked(3), 5).unwrap();
    let mut order = [0; 2];
    assert!(rt; can_run_in(&[high, low], 1, &mut order));
    assert_eq!(rt; order, [1, 0]);
    assert!(rt; !can_run_in(&[high, high], 1, &mut order));
}

#[test]
fn two_spans_of_one_byte(rt: HostRuntime) {
    let low: BitSpan<u8, Lsb0> = BitSpan::new(0, BitIdx::new_unchecked(0), 3).unwrap();
    let high = BitSpan::new(0, BitIdx::new_unchecked(3), 5).unwrap();
    let mut memory = [0x5Au8];
    let command = Command::Invert(0);
    let requests = [Request { span: 0, command }, Request { span: 1, command }];
    let mut replies = [Reply::NoSpan; 2];
    run(&[low, high], &mut memory, &requests, &mut replies);
    assert_eq!(rt; replies, [Reply::Word(0x02), Reply::Word(0x58)]);
    assert_eq!(rt; memory, [0xA5]);
}

#[test]
fn one_step(rt: HostRuntime) {
    let span: BitSpan<u8, Lsb0> = BitSpan::at(4, 8).unwrap();
    let mut memory = [0x12u8, 0x34];
    let reply = step(span, &mut memory, Command::Replace(7, true));
    assert_eq!(rt; reply, Reply::Bit(false));
    assert_eq!(rt; memory, [0x12, 0x3C]);
    let reply = step(span, &mut memory, Command::Replace(8, true));
    assert_eq!(rt; reply, Reply::PastEnd);
    assert_eq!(rt; memory, [0x12, 0x3C]);
}
