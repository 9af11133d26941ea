use conf_text::{TextFault, Token, TokenKind, Tokens, plain};
use std::alloc::Global;

const WORD: TokenKind = TokenKind::Word;

const QUOTED: TokenKind = TokenKind::Quoted;

const EQUALS: TokenKind = TokenKind::Equals;

// A token: its kind, its bytes, where they start, and its line.
type Wanted = (TokenKind, &'static [u8], u32, u32);

const LABEL: &[Wanted] = &[(WORD, b"label", 0, 1), (EQUALS, b"=", 5, 1)];

// Texts, the tokens of each, and the fault after them where that isn't the text's end.
const TEXTS: &[(&[u8], &[Wanted], Option<TextFault>)] = &[
    (
        b"\nboot=/dev/hda # a\n\tprompt\r\n",
        &[
            (WORD, b"boot", 1, 2),
            (EQUALS, b"=", 5, 2),
            (WORD, b"/dev/hda", 6, 2),
            (WORD, b"prompt", 20, 3),
        ],
        None,
    ),
    // Words after an equals sign may have one.
    (
        b"append = root=/dev/sda#1 a==b",
        &[
            (WORD, b"append", 0, 1),
            (EQUALS, b"=", 7, 1),
            (WORD, b"root=/dev/sda#1", 9, 1),
            (WORD, b"a", 25, 1),
            (EQUALS, b"=", 26, 1),
            (EQUALS, b"=", 27, 1),
            (WORD, b"b", 28, 1),
        ],
        None,
    ),
    (
        b"append=\"a=b c\"next \"\"",
        &[
            (WORD, b"append", 0, 1),
            (EQUALS, b"=", 6, 1),
            (QUOTED, b"a=b c", 8, 1),
            (WORD, b"next", 14, 1),
            (QUOTED, b"", 20, 1),
        ],
        None,
    ),
    (b"\"a\\\"b\\\\c\"", &[(QUOTED, b"a\\\"b\\\\c", 1, 1)], None),
    (b"label=\"lin", LABEL, Some(TextFault::OpenQuote(6))),
    (b"label=\"lin\n\"", LABEL, Some(TextFault::OpenQuote(6))),
    (b"label=\"li\\\"", LABEL, Some(TextFault::OpenQuote(6))),
    (b"label=\"l\x01\n", LABEL, Some(TextFault::BadByte(8))),
    (b"label=l\x7f", LABEL, Some(TextFault::BadByte(7))),
    (b"label=\x00", LABEL, Some(TextFault::BadByte(6))),
    (b"\x00", &[], Some(TextFault::BadByte(0))),
    (
        b"#\x00\x7f\"\nlabel=",
        &[(WORD, b"label", 5, 2), (EQUALS, b"=", 10, 2)],
        None,
    ),
    (b"\x80\xff", &[(WORD, b"\x80\xff", 0, 1)], None),
];

// Whether a text has these tokens, and after them this fault or its end.
fn has(text: &[u8], wanted: &[Wanted], fault: Option<TextFault>) -> bool {
    if text.len() > 65536 {
        return false;
    }
    let mut tokens = Tokens::new(text);
    for (kind, bytes, start, line) in wanted {
        let token = Token {
            kind: *kind,
            bytes,
            start: *start,
            line: *line,
        };
        if tokens.next() != Some(Ok(token)) {
            return false;
        }
    }
    match fault {
        Some(fault) => tokens.next() == Some(Err(fault)) && tokens.next() == None,
        None => tokens.next() == None,
    }
}

// Tokens, and what each means: escapes are taken from quoted texts alone.
const MEANT: &[(TokenKind, &[u8], &[u8])] = &[
    (QUOTED, b"a\\\"b\\\\c", b"a\"b\\c"),
    (WORD, b"a\\\"b\\\\c", b"a\\\"b\\\\c"),
    (QUOTED, b"\\n\\\\\\", b"\\n\\\\"),
];

fn means(alloc: Global, kind: TokenKind, bytes: &[u8], meant: &[u8]) -> bool {
    let token = Token {
        kind,
        bytes,
        start: 1,
        line: 1,
    };
    match plain(alloc, &token) {
        Ok(text) => text.bytes() == meant,
        Err(_) => false,
    }
}

#[test]
fn texts_are_cut_into_tokens(rt: HostRuntime) {
    for (text, tokens, fault) in TEXTS {
        assert!(rt; has(text, tokens, *fault));
    }
}

#[test]
fn tokens_have_their_meaning(rt: HostRuntime) {
    for (kind, bytes, meant) in MEANT {
        assert!(rt; means(rt.alloc(), *kind, bytes, meant));
    }
}
