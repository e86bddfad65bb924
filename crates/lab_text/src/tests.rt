// Words, numbers and digits from the rules of the texts.
use crate::{LineTooLong, line_end, number, put_hex8, put_number, word};
use nand_model::Bytes;
use std::test::Fail;

#[test]
fn splits_and_reads(rt: HostRuntime) -> Result<(), Fail> {
    let numbers: [(&str, Option<u64>); 12] = [
        ("0", Some(0)),
        ("0064", Some(64)),
        ("18446744073709551615", Some(18446744073709551615)),
        ("18446744073709551616", None),
        ("0x10", Some(16)),
        ("0xaBcD", Some(43981)),
        ("0x", None),
        ("0X10", None),
        ("+1", None),
        ("-1", None),
        ("1_000", None),
        ("", None),
    ];
    for (text, want) in numbers {
        assert_eq!(rt; number(text.as_bytes()), want, "{text}");
    }
    let line = b" a\tb#c  # d";
    assert_eq!(rt; word(line, 0), Some((1, 2)));
    assert_eq!(rt; word(line, 2), Some((3, 6)));
    assert_eq!(rt; word(line, 6), None);
    assert_eq!(rt; word(line, 5), Some((5, 6)));
    assert_eq!(rt; line_end(b"ab\ncd", 0), Ok(2));
    assert_eq!(rt; line_end(b"ab\ncd", 3), Ok(5));
    let long = vec![in rt.alloc(); b'x'; 65_537]?;
    assert_eq!(rt; line_end(&long, 1), Ok(65_537));
    assert_eq!(rt; line_end(&long, 0), Err(LineTooLong));
    let mut out = Bytes::from_slice(rt.alloc(), b"n ")?;
    put_number(&mut out, 18446744073709551615)?;
    put_hex8(&mut out, 0x1abc)?;
    assert_eq!(rt;
        out.as_slice(),
        b"n 1844674407370955161500001abc".as_slice()
    );
    Ok(())
}
