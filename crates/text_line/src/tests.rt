// Lines, put together.
use crate::Line;

#[test]
fn a_line_grows_at_its_front(rt: HostRuntime) {
    let mut line = Line::new();
    assert_eq!(rt; line.text(), b"".as_slice());
    line.put(b"\n");
    line.put_number(0);
    line.put(b" ");
    line.put_number(u64::MAX);
    assert_eq!(rt; line.text(), b"18446744073709551615 0\n".as_slice());
}

#[test]
fn numbers_below_zero_have_a_sign(rt: HostRuntime) {
    let mut line = Line::new();
    line.put_integer(-2147483648);
    line.put(b" ");
    line.put_integer(-1);
    line.put(b" ");
    line.put_integer(0);
    line.put(b" ");
    line.put_integer(2147483647);
    assert_eq!(rt; line.text(), b"2147483647 0 -1 -2147483648".as_slice());
}

#[test]
fn hexadecimal_digits_are_as_many_as_asked_for(rt: HostRuntime) {
    let mut line = Line::new();
    line.put_hexadecimal(0x1234_abcd, 8);
    line.put(b" ");
    line.put_hexadecimal(0xfffff, 5);
    line.put(b" ");
    line.put_hexadecimal(0, 5);
    line.put(b" ");
    line.put_hexadecimal(0x12_3456, 3);
    line.put(b" ");
    line.put_hexadecimal(7, 0);
    assert_eq!(rt; line.text(), b" 456 00000 fffff 1234abcd".as_slice());
    let mut long = Line::new();
    long.put_hexadecimal(u128::MAX - 1, 32);
    assert_eq!(rt; long.text(), b"fffffffffffffffffffffffffffffffe".as_slice());
}

#[test]
fn a_line_may_be_full(rt: HostRuntime) {
    let mut line = Line::new();
    line.put(&[b'a'; 28]);
    line.put(&[b'b'; 100]);
    assert_eq!(rt; line.text().len(), 128);
    assert_eq!(rt; line.text()[100], b'a');
}
