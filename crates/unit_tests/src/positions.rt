// Lines and columns.
use lines::{count_lines, line_and_column};

#[test]
fn lines_and_columns(rt: HostRuntime) {
    let page = b"ab\n\ncd";
    assert_eq!(rt; line_and_column(page, 0), (1, 0));
    assert_eq!(rt; line_and_column(page, 2), (1, 2), "at an LF");
    assert_eq!(rt; line_and_column(page, 3), (2, 0), "behind an LF");
    assert_eq!(rt; line_and_column(page, 4), (3, 0));
    assert_eq!(rt; line_and_column(page, 6), (3, 2), "at the end");
    assert_eq!(rt; line_and_column(page, 9), (3, 2), "past the end");
    assert_eq!(rt; line_and_column(b"a\r\nb", 2), (1, 2), "CR is no line end");
}

#[test]
fn how_many_lines(rt: HostRuntime) {
    assert_eq!(rt; count_lines(b""), 0);
    assert_eq!(rt; count_lines(b"\n"), 1);
    assert_eq!(rt; count_lines(b"a"), 1);
    assert_eq!(rt; count_lines(b"a\n"), 1);
    assert_eq!(rt; count_lines(b"a\nb"), 2);
    assert_eq!(rt; count_lines(b"\n\n"), 2);
}
