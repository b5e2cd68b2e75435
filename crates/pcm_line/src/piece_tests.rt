// The words and the forms of keywords, as the language has them.
use super::*;

#[test]
fn a_keyword_is_found_by_its_text(rt: HostRuntime) {
    for keyword in Keyword::all() {
        assert_eq!(rt; Keyword::of(keyword.text().as_bytes()), Some(*keyword));
    }
    assert_eq!(rt; Keyword::of(b"writei "), None);
}

#[test]
fn the_form_of_a_write(rt: HostRuntime) {
    let kinds = [
        PieceKind::Client,
        PieceKind::Sub,
        PieceKind::Mode,
        PieceKind::Hex,
    ];
    assert_eq!(rt; Keyword::Writei.kinds(), kinds.as_slice());
    assert_eq!(rt; Keyword::Threads.kinds().len(), 0);
    assert_eq!(rt; PieceKind::Mode.words(), ["b", "n"].as_slice());
    assert_eq!(rt; PieceKind::Sub.words().len(), 0);
}
