// Lines of every call, and lines that are none.
use line::{call_text, read_call};
use protocol::Call;
use refusal::Refusal;
use stamp::{ClockStamp, Ticket};
use std::test::Fail;

#[test]
fn good_lines_read_back(rt: HostRuntime) -> Result<(), Fail> {
    let lines = [
        "b 0",
        "b 4294967295",
        "f 0 3",
        "r 0 3",
        "w 0 3 192.0.2.0/24 block 0-65535",
        "d 0 3",
        "p 0 18446744073709551615.65535",
        "c 0",
        "a 0",
        "l 0",
        "k 0 4294967295",
        "t 7.1",
    ];
    for line in lines {
        let call: Call<ClockStamp> = read_call(line.as_bytes())?;
        assert_eq!(rt; call_text(rt.alloc(), call)?.as_str(), line);
    }
    let call: Call<Ticket> = read_call(b"p 0 4294967295")?;
    assert_eq!(rt; call_text(rt.alloc(), call)?.as_str(), "p 0 4294967295");
    Ok(())
}

#[test]
fn bad_lines_are_refused(rt: HostRuntime) -> Result<(), Fail> {
    let lines = [
        ("", 21, 0),
        ("z 0", 21, 0),
        ("B 0", 21, 0),
        ("b0", 21, 0),
        ("bb 0", 21, 0),
        (" b 0", 21, 0),
        ("\0", 21, 0),
        ("\u{ff} 0", 21, 0),
        ("b", 21, 1),
        ("b ", 21, 2),
        ("b  0", 21, 2),
        ("b 0 ", 21, 4),
        ("b 0 1", 21, 4),
        ("b 0\r", 21, 2),
        ("b \0", 21, 2),
        ("b \u{e9}", 21, 2),
        ("b 00", 21, 2),
        ("b 4294967296", 21, 2),
        ("f 0", 21, 3),
        ("f x", 21, 2),
        ("f 0 3 3", 21, 6),
        ("k 0 4294967296", 21, 4),
        ("p 0 7", 21, 4),
        ("p 0 7.1.2", 21, 4),
        ("p 0 18446744073709551616.1", 21, 4),
        ("p 0 7.65536", 21, 4),
        ("t 0 7.1", 21, 2),
        ("w 0 3", 21, 5),
        ("w 0 3 192.0.2.0/24 block", 21, 24),
        ("w 0 3 192.0.2.0/256 block 0-1", 21, 6),
        ("w 0 3 192.0.2.0/24 Block 0-1", 21, 19),
        ("w 0 3 192.0.2.0/24 block 0-65536", 21, 25),
        ("w 0 3 192.0.2.0/33 block 2-1 x", 21, 29),
        ("w 0 3 192.0.2.0/33 block 0-1", 20, 6),
        ("w 0 3 192.0.2.0/255 block 0-1", 20, 6),
        ("w 0 3 192.0.2.1/24 block 0-1", 20, 6),
        ("w 0 33 192.0.2.0/24 block 2-1", 20, 7),
        // 80 bytes, and 81
        (
            "b 0 4567890123456789012345678901234567890123456789012345678901234567890123456789",
            21,
            4,
        ),
        (
            "b 0 45678901234567890123456789012345678901234567890123456789012345678901234567890",
            21,
            80,
        ),
    ];
    for (line, number, place) in lines {
        let read: Result<Call<ClockStamp>, Refusal> = read_call(line.as_bytes());
        match read {
            Ok(_) => return Err(Fail::new("a bad line was read")),
            Err(refusal) => {
                assert_eq!(rt; refusal.number(), number);
                assert_eq!(rt; refusal.place(), place);
            }
        }
    }
    Ok(())
}
