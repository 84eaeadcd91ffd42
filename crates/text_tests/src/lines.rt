//! Lines, comments and numbers.

use std::test::*;
use text_lines::*;

#[test]
fn one_return_before_the_line_feed_is_dropped(rt: HostRuntime) {
    let (line, rest) = cut_line(b"a\r\r\nb");
    assert_eq!(rt; line, b"a\r".as_slice());
    assert_eq!(rt; rest, b"b".as_slice());
    let (line, rest) = cut_line(b"b\r");
    assert_eq!(rt; line, b"b\r".as_slice());
    assert!(rt; rest.is_empty());
}

#[test]
fn comments_and_blanks_do_not_count(rt: HostRuntime) {
    match text_line(b"\t a = b \t# \xff") {
        TextLine::Words(words, end) => {
            assert_eq!(rt; words, b"a = b".as_slice());
            assert_eq!(rt; end, 7);
        }
        _ => assert!(rt; false),
    }
    assert!(rt; matches!(text_line(b"\t #"), TextLine::Empty));
    assert!(rt; matches!(text_line(b"a\r"), TextLine::Forbidden(1)));
}

#[test]
fn numbers_have_no_leading_zero(rt: HostRuntime) {
    assert_eq!(rt; decimal(b"0", 9), Some(0));
    assert_eq!(rt; decimal(b"00", 9), None);
    assert_eq!(rt; decimal(b"9", 9), Some(9));
    assert_eq!(rt; decimal(b"10", 9), None);
}
