// Examples of both namings, in buffers that are just long enough, longer and too short.
use crate::decimal::Decimal;
use crate::hexadecimal::Hexadecimal;
use crate::letter::Letter;
use crate::naming::Naming;
use hir::refusal::Refusal;

#[test]
fn decimal_in_its_length(rt: HostRuntime) {
    let mut buffer = [0u8; 4];
    assert!(rt; Decimal.write(Letter::Lower, 17, &mut buffer) == Ok(4));
    assert_eq!(rt; buffer, *b"#t17");
}

#[test]
fn decimal_in_less(rt: HostRuntime) {
    let mut buffer = *b"abc";
    assert!(rt; Decimal.write(Letter::Lower, 17, &mut buffer) == Err(Refusal::Buffer));
    assert_eq!(rt; buffer, *b"abc");
}

#[test]
fn decimal_ends(rt: HostRuntime) {
    let mut buffer = *b"abcdefgh";
    assert!(rt; Decimal.write(Letter::Upper, 65535, &mut buffer) == Ok(7));
    assert_eq!(rt; buffer, *b"#T65535h");
    assert!(rt; Decimal.write(Letter::Lower, 0, &mut buffer) == Ok(3));
    assert_eq!(rt; buffer, *b"#t05535h");
}

#[test]
fn hexadecimal_in_its_length(rt: HostRuntime) {
    let mut buffer = [0u8; 10];
    assert!(rt; Hexadecimal.write(Letter::Lower, 17, &mut buffer) == Ok(10));
    assert_eq!(rt; buffer, *b"#t00000011");
}

#[test]
fn hexadecimal_in_less(rt: HostRuntime) {
    let mut buffer = *b"abcdefghi";
    assert!(rt; Hexadecimal.write(Letter::Upper, 65535, &mut buffer) == Err(Refusal::Buffer));
    assert_eq!(rt; buffer, *b"abcdefghi");
}
