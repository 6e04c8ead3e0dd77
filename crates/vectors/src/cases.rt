use crate::kinds::Expected;

// Bytes, and the item that they begin with.
#[derive(Clone, Copy)]
pub struct Case {
    pub bytes: &'static [u8],
    pub item: Option<Expected>,
}

// The examples of the CBOR standard (its table of encoded data items) that concern numbers, strings, heads, tags and simple values, and beside them
// each head in a longer form than it needs, reserved, of indefinite length, and cut short.
pub const CASES: [Case; 113] = [
    Case {
        bytes: b"\x00",
        item: Some(Expected::Unsigned(0)),
    },
    Case {
        bytes: b"\x01",
        item: Some(Expected::Unsigned(1)),
    },
    Case {
        bytes: b"\x0A",
        item: Some(Expected::Unsigned(10)),
    },
    Case {
        bytes: b"\x17",
        item: Some(Expected::Unsigned(23)),
    },
    Case {
        bytes: b"\x18\x18",
        item: Some(Expected::Unsigned(24)),
    },
    Case {
        bytes: b"\x18\x19",
        item: Some(Expected::Unsigned(25)),
    },
    Case {
        bytes: b"\x18\x64",
        item: Some(Expected::Unsigned(100)),
    },
    Case {
        bytes: b"\x19\x03\xE8",
        item: Some(Expected::Unsigned(1000)),
    },
    Case {
        bytes: b"\x1A\x00\x0F\x42\x40",
        item: Some(Expected::Unsigned(1000000)),
    },
    Case {
        bytes: b"\x1B\x00\x00\x00\xE8\xD4\xA5\x10\x00",
        item: Some(Expected::Unsigned(1000000000000)),
    },
    Case {
        bytes: b"\x1B\xFF\xFF\xFF\xFF\xFF\xFF\xFF\xFF",
        item: Some(Expected::Unsigned(18446744073709551615)),
    },
    Case {
        bytes: b"\x18\xFF",
        item: Some(Expected::Unsigned(255)),
    },
    Case {
        bytes: b"\x19\x01\x00",
        item: Some(Expected::Unsigned(256)),
    },
    Case {
        bytes: b"\x19\xFF\xFF",
        item: Some(Expected::Unsigned(65535)),
    },
    Case {
        bytes: b"\x1A\x00\x01\x00\x00",
        item: Some(Expected::Unsigned(65536)),
    },
    Case {
        bytes: b"\x1A\xFF\xFF\xFF\xFF",
        item: Some(Expected::Unsigned(4294967295)),
    },
    Case {
        bytes: b"\x1B\x00\x00\x00\x01\x00\x00\x00\x00",
        item: Some(Expected::Unsigned(4294967296)),
    },
    Case {
        bytes: b"\x20",
        item: None,
    },
    Case {
        bytes: b"\x29",
        item: None,
    },
    Case {
        bytes: b"\x38\x63",
        item: None,
    },
    Case {
        bytes: b"\x39\x03\xE7",
        item: None,
    },
    Case {
        bytes: b"\x3B\xFF\xFF\xFF\xFF\xFF\xFF\xFF\xFF",
        item: None,
    },
    Case {
        bytes: b"\xC2\x49\x01\x00\x00\x00\x00\x00\x00\x00\x00",
        item: Some(Expected::Tag(2)),
    },
    Case {
        bytes: b"\xC3\x49\x01\x00\x00\x00\x00\x00\x00\x00\x00",
        item: Some(Expected::Tag(3)),
    },
    Case {
        bytes: b"\xF9\x00\x00",
        item: None,
    },
    Case {
        bytes: b"\xF9\x3C\x00",
        item: None,
    },
    Case {
        bytes: b"\xFA\x47\xC3\x50\x00",
        item: None,
    },
    Case {
        bytes: b"\xFB\x3F\xF1\x99\x99\x99\x99\x99\x9A",
        item: None,
    },
    Case {
        bytes: b"\xF9\x7C\x00",
        item: None,
    },
    Case {
        bytes: b"\xF6",
        item: None,
    },
    Case {
        bytes: b"\xF7",
        item: None,
    },
    Case {
        bytes: b"\xF0",
        item: None,
    },
    Case {
        bytes: b"\xF8\xFF",
        item: None,
    },
    Case {
        bytes: b"\xF8\x18",
        item: None,
    },
    Case {
        bytes: b"\xF8\x14",
        item: None,
    },
    Case {
        bytes: b"\xF8\x15",
        item: None,
    },
    Case {
        bytes: b"\xFC",
        item: None,
    },
    Case {
        bytes: b"\xFF",
        item: None,
    },
    Case {
        bytes: b"\xE0",
        item: None,
    },
    Case {
        bytes: b"\xF4",
        item: Some(Expected::Truth(false)),
    },
    Case {
        bytes: b"\xF5",
        item: Some(Expected::Truth(true)),
    },
    Case {
        bytes: b"\xC0\x74\x32\x30\x31\x33\x2D\x30\x33\x2D\x32\x31\x54\x32\x30\x3A\x30\x34\x3A\x30\x30\x5A",
        item: Some(Expected::Tag(0)),
    },
    Case {
        bytes: b"\xC1\x1A\x51\x4B\x67\xB0",
        item: Some(Expected::Tag(1)),
    },
    Case {
        bytes: b"\xD7\x44\x01\x02\x03\x04",
        item: Some(Expected::Tag(23)),
    },
    Case {
        bytes: b"\xD8\x18\x45\x64\x49\x45\x54\x46",
        item: Some(Expected::Tag(24)),
    },
    Case {
        bytes: b"\xD8\x20\x76\x68\x74\x74\x70\x3A\x2F\x2F\x77\x77\x77\x2E\x65\x78\x61\x6D\x70\x6C\x65\x2E\x63\x6F\x6D",
        item: Some(Expected::Tag(32)),
    },
    Case {
        bytes: b"\xD9\x02\x26\x44\x63\x6F\x69\x6E",
        item: Some(Expected::Tag(550)),
    },
    Case {
        bytes: b"\xDA\x00\x01\x00\x00",
        item: Some(Expected::Tag(65536)),
    },
    Case {
        bytes: b"\x40",
        item: Some(Expected::Bytes(0)),
    },
    Case {
        bytes: b"\x44\x01\x02\x03\x04",
        item: Some(Expected::Bytes(4)),
    },
    Case {
        bytes: b"\x60",
        item: Some(Expected::Text(0)),
    },
    Case {
        bytes: b"\x61\x61",
        item: Some(Expected::Text(1)),
    },
    Case {
        bytes: b"\x64\x49\x45\x54\x46",
        item: Some(Expected::Text(4)),
    },
    Case {
        bytes: b"\x62\x22\x5C",
        item: Some(Expected::Text(2)),
    },
    Case {
        bytes: b"\x62\xC3\xBC",
        item: Some(Expected::Text(2)),
    },
    Case {
        bytes: b"\x63\xE6\xB0\xB4",
        item: Some(Expected::Text(3)),
    },
    Case {
        bytes: b"\x64\xF0\x90\x85\x91",
        item: Some(Expected::Text(4)),
    },
    Case {
        bytes: b"\x58\x18\x00\x00\x00\x00\x00\x00\x00\x00\x00\x00\x00\x00\x00\x00\x00\x00\x00\x00\x00\x00\x00\x00\x00\x00",
        item: Some(Expected::Bytes(24)),
    },
    Case {
        bytes: b"\x78\x18\x61\x61\x61\x61\x61\x61\x61\x61\x61\x61\x61\x61\x61\x61\x61\x61\x61\x61\x61\x61\x61\x61\x61\x61",
        item: Some(Expected::Text(24)),
    },
    Case {
        bytes: b"\x62\xFF\xFE",
        item: Some(Expected::Text(2)),
    },
    Case {
        bytes: b"\x80",
        item: Some(Expected::Array(0)),
    },
    Case {
        bytes: b"\x83\x01\x02\x03",
        item: Some(Expected::Array(3)),
    },
    Case {
        bytes: b"\x83\x01\x82\x02\x03\x82\x04\x05",
        item: Some(Expected::Array(3)),
    },
    Case {
        bytes: b"\x98\x19\x01\x02\x03\x04\x05\x06\x07\x08\x09\x0A\x0B\x0C\x0D\x0E\x0F\x10\x11\x12\x13\x14\x15\x16\x17\x18\x18\x18\x19",
        item: Some(Expected::Array(25)),
    },
    Case {
        bytes: b"\x9B\xFF\xFF\xFF\xFF\xFF\xFF\xFF\xFF",
        item: Some(Expected::Array(18446744073709551615)),
    },
    Case {
        bytes: b"\xA0",
        item: Some(Expected::Map(0)),
    },
    Case {
        bytes: b"\xA2\x01\x02\x03\x04",
        item: Some(Expected::Map(2)),
    },
    Case {
        bytes: b"\xA2\x61\x61\x01\x61\x62\x82\x02\x03",
        item: Some(Expected::Map(2)),
    },
    Case {
        bytes: b"\xB9\x01\x00",
        item: Some(Expected::Map(256)),
    },
    Case {
        bytes: b"\x5F\x42\x01\x02\x43\x03\x04\x05\xFF",
        item: None,
    },
    Case {
        bytes: b"\x7F\x65\x73\x74\x72\x65\x61\x64\x6D\x69\x6E\x67\xFF",
        item: None,
    },
    Case {
        bytes: b"\x9F\xFF",
        item: None,
    },
    Case {
        bytes: b"\x9F\x01\x82\x02\x03\x9F\x04\x05\xFF\xFF",
        item: None,
    },
    Case {
        bytes: b"\xBF\x61\x61\x01\x61\x62\x9F\x02\x03\xFF\xFF",
        item: None,
    },
    Case {
        bytes: b"\x1F",
        item: None,
    },
    Case {
        bytes: b"\x3F",
        item: None,
    },
    Case {
        bytes: b"\xDF",
        item: None,
    },
    Case {
        bytes: b"\x1C",
        item: None,
    },
    Case {
        bytes: b"\x1D",
        item: None,
    },
    Case {
        bytes: b"\x1E",
        item: None,
    },
    Case {
        bytes: b"\x5C",
        item: None,
    },
    Case {
        bytes: b"\x7D",
        item: None,
    },
    Case {
        bytes: b"\x9E",
        item: None,
    },
    Case {
        bytes: b"\xBC",
        item: None,
    },
    Case {
        bytes: b"\xDD",
        item: None,
    },
    Case {
        bytes: b"\x18\x00",
        item: None,
    },
    Case {
        bytes: b"\x18\x17",
        item: None,
    },
    Case {
        bytes: b"\x19\x00\x00",
        item: None,
    },
    Case {
        bytes: b"\x19\x00\xFF",
        item: None,
    },
    Case {
        bytes: b"\x1A\x00\x00\x00\x00",
        item: None,
    },
    Case {
        bytes: b"\x1A\x00\x00\xFF\xFF",
        item: None,
    },
    Case {
        bytes: b"\x1B\x00\x00\x00\x00\x00\x00\x00\x00",
        item: None,
    },
    Case {
        bytes: b"\x1B\x00\x00\x00\x00\xFF\xFF\xFF\xFF",
        item: None,
    },
    Case {
        bytes: b"\x58\x01\x00",
        item: None,
    },
    Case {
        bytes: b"\x78\x00",
        item: None,
    },
    Case {
        bytes: b"\x98\x00",
        item: None,
    },
    Case {
        bytes: b"\xB8\x00",
        item: None,
    },
    Case {
        bytes: b"\xD8\x00",
        item: None,
    },
    Case {
        bytes: b"\xD9\x00\xFF",
        item: None,
    },
    Case {
        bytes: b"",
        item: None,
    },
    Case {
        bytes: b"\x18",
        item: None,
    },
    Case {
        bytes: b"\x19",
        item: None,
    },
    Case {
        bytes: b"\x19\x01",
        item: None,
    },
    Case {
        bytes: b"\x1A\x00\x00\x00",
        item: None,
    },
    Case {
        bytes: b"\x1B\x00\x00\x00\x00\x00\x00\x00",
        item: None,
    },
    Case {
        bytes: b"\x41",
        item: None,
    },
    Case {
        bytes: b"\x44\x01\x02\x03",
        item: None,
    },
    Case {
        bytes: b"\x61",
        item: None,
    },
    Case {
        bytes: b"\x58\x18",
        item: None,
    },
    Case {
        bytes: b"\xD9",
        item: None,
    },
    Case {
        bytes: b"\xD9\x02",
        item: None,
    },
    Case {
        bytes: b"\x98",
        item: None,
    },
    Case {
        bytes: b"\xB9",
        item: None,
    },
];
