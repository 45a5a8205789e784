// The odd texts of the section file: case A's file, {5} at station 1, written in many ways.

pub const CASES: &[(&str, &[u8])] = &[
    // What may part the numbers.
    ("one line", b"3 2 10 2 1 5 0 0"),
    ("a number a line", b"3\n2\n10\n2\n1\n5\n0\n0\n"),
    (
        "spaces and line ends all round",
        b" \n\n  3  2 10\n 2 \n1   5\n\n0 0 \n \n",
    ),
    // Bytes that may stand nowhere.
    ("a tab", b"3 2 10 2\t1 5 0 0\n"),
    ("a carriage return", b"3 2 10 2\r\n1 5\r\n0\r\n0\r\n"),
    ("a comma", b"3 2 10 2 1 5, 0 0\n"),
    ("a zero byte", b"3 2 10 2 1 5 0 0\0"),
    ("a byte above 127", b"3 2 10 2\xa01 5 0 0\n"),
    // Texts without a number.
    ("no byte", b""),
    ("spaces only", b" \n "),
    // How a number is not written.
    ("a leading zero", b"3 2 10 2 1 05 0 0\n"),
    ("a count of 00", b"3 2 10 2 1 5 00 0\n"),
    ("a plus", b"3 2 10 2 1 +5 0 0\n"),
    ("a letter", b"3 2 10 2 1 5x 0 0\n"),
    ("a fraction", b"3 2 10 2 1 5.0 0 0\n"),
    // The largest numbers, and one beyond.
    ("2147483647", b"3 2 10 2 1 2147483647 0 0\n"),
    ("2147483648", b"3 2 10 2 1 2147483648 0 0\n"),
    ("4294967301", b"3 2 10 2 1 4294967301 0 0\n"),
    ("-2147483648", b"3 2 10 2 1 -2147483648 0 0\n"),
    ("-2147483649", b"3 2 10 2 1 -2147483649 0 0\n"),
    (
        "99999999999999999999999999999999999999",
        b"3 2 10 2 1 99999999999999999999999999999999999999 0 0\n",
    ),
    // Where a minus may stand: in the two lists, right before a number that is not 0.
    ("a minus at station 1, case H", b"3 1 10 2 1 -5 0 0\n"),
    ("a minus at station 2", b"3 1 10 2 0 1 -5 0\n"),
    ("a minus zero", b"3 1 10 2 1 -0 0 0\n"),
    ("a minus and a leading zero", b"3 1 10 2 1 -05 0 0\n"),
    ("a minus alone", b"3 1 10 2 1 - 0 0\n"),
    ("a minus parted from its number", b"3 1 10 2 1 - 5 0 0\n"),
    ("two minuses", b"3 1 10 2 1 --5 0 0\n"),
    // Where a minus may not stand.
    ("a minus in the heading", b"3 1 -10 2 1 5 0 0\n"),
    ("a minus before a count", b"3 1 10 2 -1 5 0 0\n"),
    ("a minus before a departure", b"3 1 10 2 1 5 0 1 -1\n"),
    ("a minus after its number", b"3 1 10 2 1 5- 0 0\n"),
    // The four sections.
    ("a heading of 2", b"2 2 10 1 5 0 0\n"),
    ("a heading of 4", b"4 2 10 2 0 1 5 0 0\n"),
    ("no recorded section", b"3 2 10 2 1 5 0\n"),
    ("a list one short", b"3 2 10 2 2 5\n"),
    ("a departure missing", b"3 2 10 2 1 5 0 1\n"),
    ("a number after the end", b"3 2 10 2 1 5 0 0 0\n"),
    ("a count of 513 with few numbers", b"3 2 10 2 513 5 0 0\n"),
];
