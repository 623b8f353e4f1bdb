// The rules by example.
use topics::matching::matches;
use topics::names::{
    MAX_CLIENT_ID, MAX_TOPIC, is_client_identifier, is_topic_filter, is_topic_name,
};
use topics::qos::Qos;
use topics::subscription::{Subscription, granted};
use topics::text::is_text;

// Refused: U+0000, two overlong forms, a surrogate, a number above U+10FFFF, an unfinished character.
const TEXTS: [(&[u8], bool); 9] = [
    (b"", true),
    (b"bell\x07", true),
    (b"Gr\xC3\xB6\xC3\x9Fe/\xF0\x9F\x98\x80", true),
    (b"a\0b", false),
    (b"\xC0\x80", false),
    (b"\xE0\x80\xAF", false),
    (b"\xED\xA0\x80", false),
    (b"\xF4\x90\x80\x80", false),
    (b"a\xE2\x82", false),
];

const NAMES: [(&[u8], bool); 8] = [
    (b"/", true),
    (b"a//b", true),
    (&[b'a'; MAX_TOPIC], true),
    (b"", false),
    (&[b'a'; 65], false),
    (b"a/+", false),
    (b"a#b", false),
    (b"a\0", false),
];

const FILTERS: [(&[u8], bool); 11] = [
    (b"#", true),
    (b"+/a//+/#", true),
    (&[b'/'; MAX_TOPIC], true),
    (b"", false),
    (&[b'/'; 65], false),
    (b"a+", false),
    (b"+a/b", false),
    (b"a/#/b", false),
    (b"a#", false),
    (b"a/##", false),
    (b"+/\xED\xA0\x80", false),
];

const CLIENTS: [(&[u8], bool); 6] = [
    (b"Printer7", true),
    (&[b'z'; MAX_CLIENT_ID], true),
    (b"", false),
    (&[b'z'; 24], false),
    (b"printer-7", false),
    (b"a\0", false),
];

// The last four hold a + that is no whole level, and a # that is not the last.
const MATCHES: [(&[u8], &[u8], bool); 18] = [
    (b"a/b", b"a/b", true),
    (b"a/b", b"a/bc", false),
    (b"a/b", b"a", false),
    (b"a/+/c", b"a//c", true),
    (b"+/+", b"/", true),
    (b"+", b"/a", false),
    (b"a/+", b"a", false),
    (b"a/+", b"a/b/c", false),
    (b"a/#", b"a/b/c", true),
    (b"a/#", b"a", true),
    (b"+/#", b"a", true),
    (b"a/#", b"ab", false),
    (b"#", b"$RACK/health", true),
    (b"", b"", true),
    (b"a+", b"a+", true),
    (b"a+", b"ab", false),
    (b"#/a", b"#/a", true),
    (b"#/a", b"b/a", false),
];

#[test]
fn texts(rt: HostRuntime) {
    for (bytes, expected) in TEXTS {
        assert!(rt; is_text(bytes) == expected);
    }
}

#[test]
fn names(rt: HostRuntime) {
    for (bytes, expected) in NAMES {
        assert!(rt; is_topic_name(bytes) == expected);
    }
    for (bytes, expected) in CLIENTS {
        assert!(rt; is_client_identifier(bytes) == expected);
    }
}

#[test]
fn filters(rt: HostRuntime) {
    for (bytes, expected) in FILTERS {
        assert!(rt; is_topic_filter(bytes) == expected);
    }
}

#[test]
fn matching(rt: HostRuntime) {
    for (filter, topic, expected) in MATCHES {
        assert!(rt; matches(filter, topic) == expected);
    }
}

#[test]
fn grants(rt: HostRuntime) {
    let subscriptions = [
        Subscription {
            filter: b"a/+",
            qos: Qos::AtLeastOnce,
        },
        Subscription {
            filter: b"a/b",
            qos: Qos::ExactlyOnce,
        },
        Subscription {
            filter: b"a/#",
            qos: Qos::AtMostOnce,
        },
    ];
    assert_eq!(rt; granted(&subscriptions, b"a/b"), Some(Qos::ExactlyOnce));
    assert_eq!(rt; granted(&subscriptions, b"a/c"), Some(Qos::AtLeastOnce));
    assert_eq!(rt; granted(&subscriptions, b"b"), Qos::try_from(3).ok());
}
