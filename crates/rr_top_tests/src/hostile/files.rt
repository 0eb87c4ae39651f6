//! Real files, which are written beside their names first.
use rr_edge::{FileShelf, Shelf};
use std::fs;

#[test]
fn files_are_written_beside_their_names(rt: HostRuntime) {
    let mut shelf = FileShelf::new(&rt);
    for text in ["first", "second"] {
        assert!(rt; shelf.write("c", text.as_bytes()).is_ok());
        let bytes = fs::read(&rt, "c").expect(&rt, "a file");
        assert!(rt; bytes.as_slice() == text.as_bytes());
        assert!(rt; fs::read(&rt, "c.part").is_err());
    }
    // A file that has that name already stays as it is, and the other is written in place.
    fs::write(&rt, "c.part", "mine").expect(&rt, "a file");
    assert!(rt; shelf.write("c", b"third").is_ok());
    let bytes = fs::read(&rt, "c").expect(&rt, "a file");
    assert!(rt; bytes.as_slice() == b"third".as_slice());
    let bytes = fs::read(&rt, "c.part").expect(&rt, "a file");
    assert!(rt; bytes.as_slice() == b"mine".as_slice());
}
