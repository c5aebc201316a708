// Films that are made over a desk in memory.
ghost use Rattle.std.specs.Prelude.{◌≡◌};

use crate::oggcut;
use vid_desk::MemDesk;

#[test]
fn a_film_says_how_many_pictures_and_how_many_bytes_it_has(rt: HostRuntime) {
    for (frames, size, line) in [
        ("1", 431, "made 1 bytes 431\n"),
        ("3", 1211, "made 3 bytes 1211\n"),
    ] {
        let mut desk = MemDesk::new(rt.alloc());
        let end = oggcut(
            rt.alloc(),
            &["make", "0", frames, "16", "16", "A"],
            &mut desk,
        );
        assert_eq!(rt; end.number(), 0, "{line}");
        assert!(rt; desk.said() == line.as_bytes(), "{line}");
        let text = desk.output("A").unwrap_or(&[]);
        assert_eq!(rt; text.len(), size);
        assert!(rt; text.starts_with(b"YUV4MPEG2 W16 H16 F25:1 Ip A1:1 C420jpeg\nFRAME\n"));
    }
}

#[test]
fn the_numbers_of_a_film_are_within_their_limits(rt: HostRuntime) {
    for (start, frames, w, h, status) in [
        ("2147483647", "1", "1", "1", 0),
        ("2147483648", "1", "1", "1", 2),
        ("0", "0", "1", "1", 2),
        ("0", "10001", "1", "1", 2),
        ("0", "1", "0", "1", 2),
        ("0", "1", "1024", "1", 0),
        ("0", "1", "1025", "1", 2),
        ("0", "1", "1", "0", 2),
        ("0", "1", "1", "1024", 0),
        ("0", "1", "1", "1025", 2),
        ("00", "1", "1", "1", 2),
        ("", "1", "1", "1", 2),
        ("0", "+1", "1", "1", 2),
    ] {
        let mut desk = MemDesk::new(rt.alloc());
        let end = oggcut(rt.alloc(), &["make", start, frames, w, h, "A"], &mut desk);
        assert_eq!(rt; end.number(), status, "{start} {frames} {w} {h}");
        assert_eq!(rt;
            desk.output("A").is_some(),
            status == 0,
            "{start} {frames} {w} {h}"
        );
    }
}

#[test]
fn a_film_that_breaks_off_says_so(rt: HostRuntime) {
    // The calls are the creation, the head, a picture, and the line.
    for (call, part, left, line) in [
        (0, 0, None, "fault 9 write\n"),
        (1, 40, Some(40), "fault 9 write\n"),
        (2, 389, Some(430), "fault 9 write\n"),
        (3, 4, Some(431), "madefault 9 write\n"),
    ] {
        let mut desk = MemDesk::new(rt.alloc());
        assert!(rt; desk.fail_part_at(call, part).is_ok());
        let end = oggcut(rt.alloc(), &["make", "0", "1", "16", "16", "A"], &mut desk);
        assert_eq!(rt; end.number(), 9, "{call}");
        assert!(rt; desk.said() == line.as_bytes(), "{call}");
        assert!(rt; desk.output("A").map(|text| text.len()) == left, "{call}");
    }
}
