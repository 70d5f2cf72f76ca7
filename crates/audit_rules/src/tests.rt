use super::*;
use std::test::*;

const SMALL: [WordRow<u16>; 5] = word_table![
    b"" => 9,
    b"a" => 3,
    b"ab" => 1,
    b"abcdefghijklmnop" => 65535,
    b"b" => 7,
];

const NONE: [WordRow<u16>; 0] = word_table![];

#[test]
fn the_words_of_a_table_are_found(rt: HostRuntime) -> Result<(), Fail> {
    for (word, means) in [
        ("", Some(9)),
        ("a", Some(3)),
        ("ab", Some(1)),
        // 16 bytes, 15 and 17
        ("abcdefghijklmnop", Some(65535)),
        ("abcdefghijklmno", None),
        ("abcdefghijklmnopq", None),
        ("b", Some(7)),
        ("abc", None),
        ("c", None),
        ("a\0", None),
        ("é", None),
        // a capital letter is another byte
        ("A", None),
        ("aB", None),
        ("Abcdefghijklmnop", None),
        ("abcdefghijklmnoP", None),
    ] {
        assert_eq!(rt; find(&SMALL, word), means, "{word}");
        assert_eq!(rt; find(&NONE, word), None, "{word}");
    }
    Ok(())
}

/// A meaning that is no number.
#[derive(Clone, Copy, Debug, PartialEq, Eq)]
enum Side {
    Left,
    Right,
}

const SIDES: [WordRow<Side>; 2] = word_table![
    b"left" => Side::Left,
    b"right" => Side::Right,
];

#[test]
fn a_row_may_mean_anything_that_is_copied(rt: HostRuntime) {
    assert_eq!(rt; find(&SIDES, "left"), Some(Side::Left));
    assert_eq!(rt; find(&SIDES, "right"), Some(Side::Right));
    assert_eq!(rt; find(&SIDES, "Left"), None);
}
