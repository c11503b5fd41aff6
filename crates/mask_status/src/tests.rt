use crate::{KeyReason, Status, status_number, status_text};

#[test]
fn statuses_have_numbers_and_texts(rt: HostRuntime) {
    let cases: [(Status, u8, &str); 5] = [
        (Status::KeyFault, 7, "key fault"),
        (Status::BadKeys(KeyReason::Long), 3, "bad keys: long"),
        (
            Status::BadKeys(KeyReason::Line { line: 1 }),
            3,
            "bad keys: line 1",
        ),
        (
            Status::BadKeys(KeyReason::Count { found: 2 }),
            3,
            "bad keys: found 2",
        ),
        (Status::BadWords { place: 5 }, 2, "bad words: place 5"),
    ];
    for (status, number, text) in cases {
        assert_eq!(rt; status_number(&status), number);
        assert_eq!(rt; status_text(&status).as_str(), text);
    }
}
