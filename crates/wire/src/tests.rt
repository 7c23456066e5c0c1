//! Numbers read and written, by example.

use super::reading::*;
use super::writing::*;
use std::process::Abort;

fn reads(rt: &impl Abort, bytes: &[u8], value: u32, len: usize) {
    assert_eq!(rt; read_number(bytes), Ok(Number { value, len }));
}

fn fails(rt: &impl Abort, bytes: &[u8], number: u32) {
    assert_eq!(rt; read_number(bytes).map_err(Fault::number), Err(number));
}

#[test]
fn numbers_read(rt: HostRuntime) {
    reads(&rt, &[0x00], 0, 1);
    reads(&rt, &[0x7F], 127, 1);
    reads(&rt, &[0x80, 0x01], 128, 2);
    reads(&rt, &[0xAC, 0x02], 300, 2);
    reads(&rt, &[0xAC, 0x02, 0x80], 300, 2);
    reads(&rt, &[0xFF, 0x7F], 16_383, 2);
    reads(&rt, &[0x80, 0x80, 0x01], 16_384, 3);
    reads(&rt, &[0x80, 0x80, 0x80, 0x01], 2_097_152, 4);
    reads(&rt, &[0xFF, 0xFF, 0xFF, 0x07], MAX_NUMBER, 4);
}

#[test]
fn cut_numbers_fail(rt: HostRuntime) {
    fails(&rt, &[], 5);
    fails(&rt, &[0x80], 5);
    fails(&rt, &[0x80, 0x80], 5);
    fails(&rt, &[0xFF, 0xFF, 0xFF], 5);
}

#[test]
fn misspelt_numbers_fail(rt: HostRuntime) {
    fails(&rt, &[0x80, 0x00], 6);
    fails(&rt, &[0xFF, 0x80, 0x00], 6);
    fails(&rt, &[0x80, 0x80, 0x80, 0x00], 6);
    fails(&rt, &[0x80, 0x80, 0x80, 0x08], 6);
    fails(&rt, &[0x80, 0x80, 0x80, 0x80], 6);
    fails(&rt, &[0x80, 0x80, 0x80, 0x80, 0x01], 6);
}

#[test]
fn numbers_are_written(rt: HostRuntime) {
    let mut out = [0xEE; 6];
    assert_eq!(rt; write_number(&mut out, 1, 300), Ok(3));
    assert_eq!(rt; out, [0xEE, 0xAC, 0x02, 0xEE, 0xEE, 0xEE]);
    assert_eq!(rt; write_number(&mut out, 2, MAX_NUMBER), Ok(6));
    assert_eq!(rt; out, [0xEE, 0xAC, 0xFF, 0xFF, 0xFF, 0x07]);
}

#[test]
fn what_does_not_fit_changes_nothing(rt: HostRuntime) {
    let mut out = [0xEE; 2];
    assert_eq!(rt; write_number(&mut out, 1, 128), Err(Unwritten::NoRoom));
    assert_eq!(rt; write_number(&mut out, 2, 0), Err(Unwritten::NoRoom));
    assert_eq!(rt; write_number(&mut out, 3, 0), Err(Unwritten::NoRoom));
    assert_eq!(rt;
        write_number(&mut out, 0, MAX_NUMBER + 1),
        Err(Unwritten::TooLarge)
    );
    assert_eq!(rt; out, [0xEE, 0xEE]);
}
