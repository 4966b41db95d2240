// Rule texts as the formats have them, good and bad.
use crate::Rule;
use std::test::Fail;

#[test]
fn good_texts_read_back(rt: HostRuntime) -> Result<(), Fail> {
    let texts = [
        "192.0.2.0/24 block 0-65535",
        "0.0.0.0/0 allow 0-65535",
        "255.255.255.255/32 allow 80-80",
        "10.0.0.0/8 block 22-1023",
    ];
    for text in texts {
        let rule = Rule::read(text.as_bytes())?;
        assert_eq!(rt; rule.to_string(rt.alloc())?.as_str(), text);
    }
    Ok(())
}

#[test]
fn bad_texts_are_refused(rt: HostRuntime) -> Result<(), Fail> {
    let texts = [
        ("", 21, 0),
        ("192.0.2.0/24", 21, 12),
        ("192.0.2.0/24 ", 21, 13),
        ("192.0.2.0/24 block", 21, 18),
        ("192.0.2.0/24  block 0-1", 21, 13),
        (" 192.0.2.0/24 block 0-1", 21, 0),
        ("192.0.2.0/24 block 0-1 ", 21, 23),
        ("192.0.2.0/33 block 2-1 x", 21, 23),
        ("00.0.2.0/24 block 0-1", 21, 0),
        ("192.0.2.010/24 block 0-1", 21, 0),
        ("192.0.2.256/24 block 0-1", 21, 0),
        ("192.0.2/24 block 0-1", 21, 0),
        ("192.0.2.0.0/24 block 0-1", 21, 0),
        ("192.0.2.0/256 block 0-1", 21, 0),
        ("192.0.2.0/24 Block 0-1", 21, 13),
        ("192.0.2.0/24 block 0-65536", 21, 19),
        ("192.0.2.0/24 block 0-01", 21, 19),
        ("192.0.2.0/24 block 0", 21, 19),
        ("192.0.2.0/33 block 0-1", 20, 0),
        ("192.0.2.1/24 block 0-1", 20, 0),
        ("192.0.2.0/24 block 2-1", 20, 0),
    ];
    for (text, number, place) in texts {
        match Rule::read(text.as_bytes()) {
            Ok(_) => return Err(Fail::new("a bad text was read")),
            Err(refusal) => {
                assert_eq!(rt; refusal.number(), number);
                assert_eq!(rt; refusal.place(), place);
            }
        }
    }
    Ok(())
}
