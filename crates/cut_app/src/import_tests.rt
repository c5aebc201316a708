// Texts that are imported, over a desk in memory.
ghost use Rattle.std.specs.Prelude.{◌≡◌};

use crate::export_tests::text_of;
use crate::oggcut;
use std::process::Abort;
use vid_desk::MemDesk;

// A desk with that one input.
fn desk_of(rt: &(impl Abort + AllocGlobal), name: &str, bytes: &[u8]) -> MemDesk {
    let mut desk = MemDesk::new(rt.alloc());
    assert!(rt; desk.add_input(name, bytes).is_ok());
    desk
}

// The bytes of an output.
fn output(rt: &(impl Abort + AllocGlobal), desk: &MemDesk, name: &str) -> Vec<u8> {
    let mut bytes = Vec::new(rt.alloc());
    assert!(rt; desk.output(name).is_some());
    assert!(rt;
        bytes
            .extend_from_slice(desk.output(name).unwrap_or(&[]))
            .is_ok()
    );
    bytes
}

// Does a command, which must be done and say that, and gives the output of that name.
fn done(
    rt: &(impl Abort + AllocGlobal),
    desk: &mut MemDesk,
    words: &[&str],
    said: &str,
    name: &str,
) -> Vec<u8> {
    let end = oggcut(rt.alloc(), words, desk);
    assert_eq!(rt; end.number(), 0, "{said}");
    assert!(rt; desk.said() == said.as_bytes(), "{said}");
    output(rt, desk, name)
}

// A film of so many generated pictures of 16 by 16 samples.
fn generated(rt: &(impl Abort + AllocGlobal), frames: &str) -> Vec<u8> {
    let mut desk = MemDesk::new(rt.alloc());
    let words = ["make", "0", frames, "16", "16", "A"];
    assert_eq!(rt; oggcut(rt.alloc(), &words, &mut desk).number(), 0);
    output(rt, &desk, "A")
}

#[test]
fn a_text_is_imported_with_its_key_frames(rt: HostRuntime) {
    for (frames, qi, keys, said, checked) in [
        (
            "3",
            "30",
            "1",
            "imported 3\n",
            "link 1 picture 16x16 coded 16x16 pixels 420 rate 25:1 frames 3 keys 3\nseekable yes\n",
        ),
        (
            "30",
            "40",
            "10",
            "imported 30\n",
            "link 1 picture 16x16 coded 16x16 pixels 420 rate 25:1 frames 30 keys 3\nseekable yes\n",
        ),
    ] {
        let text = generated(&rt, frames);
        let mut desk = desk_of(&rt, "A", &text);
        let film = done(&rt, &mut desk, &["import", "A", "B", qi, keys], said, "B");
        let mut desk = desk_of(&rt, "B", &film);
        let end = oggcut(rt.alloc(), &["check", "B"], &mut desk);
        assert_eq!(rt; end.number(), 0, "{said}");
        assert!(rt; desk.said() == checked.as_bytes(), "{said}");
    }
}

#[test]
fn an_even_picture_comes_back_as_its_quantiser_index_says(rt: HostRuntime) {
    for (luma, qi, shown) in [(128, "30", 128), (129, "49", 129), (129, "30", 128)] {
        let text = text_of(&rt, &[luma, luma]);
        let mut desk = desk_of(&rt, "A", &text);
        let words = ["import", "A", "B", qi, "2"];
        let film = done(&rt, &mut desk, &words, "imported 2\n", "B");
        let mut desk = desk_of(&rt, "B", &film);
        let back = done(&rt, &mut desk, &["export", "B", "C"], "exported 2\n", "C");
        assert!(rt; back == text_of(&rt, &[shown, shown]), "{luma} {qi}");
    }
}

#[test]
fn a_text_that_departs_leaves_a_first_part_of_its_pages(rt: HostRuntime) {
    let words = ["import", "A", "B", "30", "1"];
    let head = b"YUV4MPEG2 W16 H16 F25:1 It\n";
    let mut desk = desk_of(&rt, "A", head);
    assert_eq!(rt; oggcut(rt.alloc(), &words, &mut desk).number(), 11);
    assert!(rt; desk.said() == b"fault 11 frame 0 Interlace\n".as_slice());
    assert!(rt; desk.output("B").is_none());
    let text = generated(&rt, "2");
    let mut desk = desk_of(&rt, "A", &text);
    let film = done(&rt, &mut desk, &words, "imported 2\n", "B");
    let mut desk = desk_of(&rt, "A", text.get(..820).unwrap_or(&[]));
    assert_eq!(rt; text.len(), 821);
    assert_eq!(rt; oggcut(rt.alloc(), &words, &mut desk).number(), 11);
    assert!(rt; desk.said() == b"fault 11 frame 1 Short\n".as_slice());
    let part = output(&rt, &desk, "B");
    assert!(rt; !part.is_empty() && part.len() < film.len());
    assert!(rt; film.starts_with(&part));
}

#[test]
fn an_import_that_is_refused_creates_no_output(rt: HostRuntime) {
    let text = text_of(&rt, &[128]);
    for (y4m, out, qi, keys, status, line) in [
        ("A", "B", "64", "1", 2, "fault 2 usage\n"),
        ("A", "B", "30", "0", 2, "fault 2 usage\n"),
        ("A", "B", "30", "65", 2, "fault 2 usage\n"),
        ("A", "B", "+1", "1", 2, "fault 2 usage\n"),
        ("X", "X", "30", "1", 15, "fault 15 name\n"),
        ("X", "B", "30", "1", 3, "fault 3 input 1 missing\n"),
    ] {
        let mut desk = desk_of(&rt, "A", &text);
        let end = oggcut(rt.alloc(), &["import", y4m, out, qi, keys], &mut desk);
        assert_eq!(rt; end.number(), status, "{line}");
        assert!(rt; desk.said() == line.as_bytes(), "{line}");
        assert_eq!(rt; desk.made(), 0);
    }
}

#[test]
fn a_call_that_fails_leaves_a_first_part_of_the_pages(rt: HostRuntime) {
    let text = text_of(&rt, &[128, 129]);
    let words = ["import", "A", "B", "0", "64"];
    let mut desk = desk_of(&rt, "A", &text);
    let film = done(&rt, &mut desk, &words, "imported 2\n", "B");
    for call in 0..desk.calls() {
        let mut desk = desk_of(&rt, "A", &text);
        assert!(rt; desk.fail_part_at(call, 3).is_ok());
        let status = oggcut(rt.alloc(), &words, &mut desk).number();
        assert!(rt; status == 8 || status == 9, "{call}");
        let part = desk.output("B").unwrap_or(&[]);
        assert!(rt; film.starts_with(part), "{call}");
    }
}
