//! `heads_are_read`, `places_are_named`, `pages_are_answered`, `figures_are_text`: what a port is asked, and what it answers.
use crate::texts::{bytes_of, cell, is_comment};
use iv_pages::{
    Ask, Bucket, Label, Metric, Page, Refusal, Wish, asked, etag_of, kind_of, place_of,
    push_counter, push_gauge, push_histogram, push_page, push_refusal, push_sample,
};
use std::alloc::{AllocError, Global};
use std::test::Fail;

/// Heads, and what they ask: `GET` or `HEAD` with a target and a known tag, or a word.
const HEADS: &str = r#"# RFC 9112, section 3.2.1
GET /where?q=now HTTP/1.1\r\nHost: www.example.org\r\n\r\n|GET|/where?q=now|
HEAD / HTTP/1.0\r\n\r\n|HEAD|/|
# RFC 9110, section 13.1.2
GET / HTTP/1.1\r\nHost: a\r\nIf-None-Match: "xyzzy", "r2d2xxxx", "c3piozzzz"\r\n\r\n|GET|/|"xyzzy", "r2d2xxxx", "c3piozzzz"
GET / HTTP/1.1\r\nHOST: a\r\nif-none-match:*\r\n\r\nmore|GET|/|*
# bare line feeds, and an empty line in front (RFC 9112, section 2.2)
\r\nGET /a HTTP/1.1\nhost: a\n\n|GET|/a|
|more||
GET /where HTTP/1.1\r\nHost: a\r\n|more||
# RFC 6455, section 1.2; RFC 9110, section 7.8
GET /chat HTTP/1.1\r\nHost: server.example.com\r\nUpgrade: websocket\r\nConnection: Upgrade\r\n\r\n|upgrade||
GET / HTTP/1.1\r\nhost: a\r\nupGRADE: h2c\r\n\r\n|upgrade||
POST / HTTP/1.1\r\nHost: a\r\nContent-Length: 0\r\n\r\n|405||
OPTIONS * HTTP/1.1\r\nhost: a\r\n\r\n|405||
get / HTTP/1.1\r\nhost: a\r\n\r\n|405||
nonsense\r\n\r\n|400||
# RFC 9112, section 3.2: no host, two hosts; RFC 9110, section 7.8: nobody asks for another protocol in HTTP/1.0
GET / HTTP/1.1\r\n\r\n|400||
GET / HTTP/1.1\r\nHost: a\r\nhost: a\r\n\r\n|400||
GET / HTTP/1.1\r\nHost: a\r\nUpgrade: websocket\r\nContent-Length: 5\r\n\r\nhello|400||
GET / HTTP/1.0\r\nUpgrade: websocket\r\n\r\n|GET|/|
\x16\x03\x01\x02\x00|400||
GET / HTTP/1.1\r\nHost : a\r\n\r\n|400||
GET / HTTP/1.1\r\nA: HTTP/2.0\0\r\n\r\n|400||
GET / HTTP/1.2\r\n\r\n|400||
# RFC 9113, section 3.4
PRI * HTTP/2.0\r\n\r\nSM\r\n\r\n|505||
GET / HTTP/3.0\r\n\r\n|505||"#;

/// Whether the wish is this one.
fn is_page(ask: Ask<'_>, word: &str, target: &[u8], known: &[u8]) -> bool {
    let method = if ask.only_head { "HEAD" } else { "GET" };
    method == word && ask.target == target && ask.known.unwrap_or(&[]) == known
}

/// The number of a refusal.
fn number(why: Refusal) -> &'static str {
    match why {
        Refusal::BadRequest => "400",
        Refusal::NotFound => "404",
        Refusal::MethodNotAllowed => "405",
        Refusal::TargetTooLong => "414",
        Refusal::FieldsTooLarge => "431",
        Refusal::Failed => "500",
        Refusal::Unavailable => "503",
        Refusal::VersionNotSupported => "505",
    }
}

fn is_wish(wish: Wish<'_>, word: &str, target: &[u8], known: &[u8]) -> bool {
    match wish {
        Wish::More => word == "more",
        Wish::Upgrade => word == "upgrade",
        Wish::Refused(why) => number(why) == word,
        Wish::Page(ask) => is_page(ask, word, target, known),
    }
}

/// Whether the head of the line asks that.
fn is_read(alloc: Global, line: &str) -> Result<bool, AllocError> {
    let head = bytes_of(alloc, cell(line, 0))?;
    let (target, known) = (cell(line, 2).as_bytes(), cell(line, 3).as_bytes());
    Ok(is_wish(asked(&head), cell(line, 1), target, known))
}

/// The first line that is read otherwise.
fn first_misread(alloc: Global) -> &'static str {
    for line in HEADS.lines() {
        if !is_comment(line) && is_read(alloc, line) != Ok(true) {
            return line;
        }
    }
    "none"
}

#[test]
fn heads_are_read(rt: HostRuntime) {
    assert_eq!(rt; first_misread(rt.alloc()), "none");
}

/// A text with so many more bytes after it, and an end.
fn longer(alloc: Global, front: &[u8], more: usize, end: &[u8]) -> Result<Vec<u8>, AllocError> {
    let mut text = Vec::from_slice(alloc, front)?;
    for _ in 0..more {
        text.push(b'a')?;
    }
    text.extend_from_slice(end)?;
    Ok(text)
}

/// A head with so many fields.
fn many_fields(alloc: Global, count: usize) -> Result<Vec<u8>, AllocError> {
    let mut head = Vec::from_slice(alloc, b"GET / HTTP/1.0\r\n")?;
    for _ in 0..count {
        head.extend_from_slice(b"a: b\r\n")?;
    }
    head.extend_from_slice(b"\r\n")?;
    Ok(head)
}

/// Fronts of heads, how many bytes are after them, ends, and what these heads ask: of 8,192 bytes, whole and not, and one more.
const LONG: &str = r#"GET / HTTP/1.0\r\nb: |8169|\r\n\r\n|GET
GET / HTTP/1.0\r\nb: |8173||more
GET / HTTP/1.0\r\nb: |8170|\r\n\r\n|431
GET /|8188| HTTP/1.1\r\n\r\n|414
GET /|8187||more"#;

/// Whether the head of the line asks that.
fn is_long(alloc: Global, line: &str) -> Result<bool, AllocError> {
    let front = bytes_of(alloc, cell(line, 0))?;
    let end = bytes_of(alloc, cell(line, 2))?;
    let more = cell(line, 1).parse::<usize>().unwrap_or(0);
    let head = longer(alloc, &front, more, &end)?;
    Ok(is_wish(asked(&head), cell(line, 3), b"/", b""))
}

/// Whether a head with so many fields asks that.
fn is_of_fields(alloc: Global, count: usize, word: &str) -> Result<bool, AllocError> {
    let head = many_fields(alloc, count)?;
    Ok(is_wish(asked(&head), word, b"/", b""))
}

/// The first line of these that is read otherwise.
fn first_long(alloc: Global) -> &'static str {
    for line in LONG.lines() {
        if !is_comment(line) && is_long(alloc, line) != Ok(true) {
            return line;
        }
    }
    "none"
}

/// Whether 64 fields are read, and 65 are too many.
fn are_of_fields(alloc: Global) -> Result<[bool; 2], AllocError> {
    let most = is_of_fields(alloc, 64, "GET")?;
    Ok([most, is_of_fields(alloc, 65, "431")?])
}

#[test]
fn long_heads_are_refused(rt: HostRuntime) {
    let seen = (first_long(rt.alloc()), are_of_fields(rt.alloc()));
    assert_eq!(rt; seen, ("none", Ok([true, true])));
}

/// Targets, and the files that they name; of none an empty text.
const TARGETS: &str = r#"/|index.html
/desk/|desk/index.html
/desk.html?token=a/../b|desk.html
/web/viewd.js|web/viewd.js
# RFC 3986, section 6.2.2.2
/%7Esmith/home.html|~smith/home.html
/a%20b.txt|a b.txt
/%|%
/a.b.c|a.b.c
/a..b|a..b
# once, and not twice
/%252e%252e/x|%2e%2e/x
/%25%32%65|%2e
|
x|
*|
http://a/b|
?|
/..|
/../etc/passwd|
/a/../b|
/a/./b|
/%2e%2e/etc/passwd|
/.%2E/x|
/%2e|
//etc/passwd|
/a//b|
/.git/config|
/a/.hidden|
/a%2fb|
/..%2f..%2fetc|
/a\x5c..\x5cb|
/a%5Cb|
/a%00.html|
/a%0d%0ab|
# beyond printable ASCII
/a%7f|
/a\xc3\xa4|
/%c3a|"#;

/// Whether the target of the line names that file.
fn is_named(alloc: Global, line: &str) -> Result<bool, AllocError> {
    let target = bytes_of(alloc, cell(line, 0))?;
    let (place, wanted) = (place_of(alloc, &target)?, cell(line, 1));
    let is_named = place.is_some() != wanted.is_empty();
    Ok(is_named && place.unwrap_or(Vec::new(alloc)).as_slice() == wanted.as_bytes())
}

/// The first line whose target names another file.
fn first_misnamed(alloc: Global) -> &'static str {
    for line in TARGETS.lines() {
        if !is_comment(line) && is_named(alloc, line) != Ok(true) {
            return line;
        }
    }
    "none"
}

#[test]
fn places_are_named(rt: HostRuntime) {
    assert_eq!(rt; first_misnamed(rt.alloc()), "none");
}

/// Names of files, and their kinds.
const KINDS: &str = "index.html|text/html; charset=utf-8
web/viewd.js|text/javascript; charset=utf-8
a.mjs|text/javascript; charset=utf-8
a.css|text/css; charset=utf-8
a.json|application/json
a.js.map|application/json
a.webmanifest|application/manifest+json
a.svg|image/svg+xml
a.png|image/png
a.jpg|image/jpeg
a.jpeg|image/jpeg
favicon.ico|image/vnd.microsoft.icon
a.txt|text/plain; charset=utf-8
a.woff2|font/woff2
a.wasm|application/wasm
README|application/octet-stream
a.html/b|application/octet-stream
a.|application/octet-stream
html|application/octet-stream
a.b/js|application/octet-stream
a.htmlx|application/octet-stream";

/// The first line whose file is of another kind.
fn first_of_other_kind() -> &'static str {
    for line in KINDS.lines() {
        if kind_of(cell(line, 0).as_bytes()) != cell(line, 1) {
            return line;
        }
    }
    "none"
}

#[test]
fn kinds_are_known(rt: HostRuntime) {
    assert_eq!(rt; first_of_other_kind(), "none");
}

/// The tag of three bytes that changed at the beginning of 2025.
const TAG: &[u8] = b"W/\"3-1735689600000000000\"";

const OK: &[u8] =
    b"HTTP/1.1 200 OK\r\ncontent-type: text/plain; charset=utf-8\r\ncontent-length: 3\r\netag: W/\"3-1735689600000000000\"\r\ncontent-security-policy: default-src 'self'\r\ncache-control: no-cache\r\nx-content-type-options: nosniff\r\nconnection: close\r\n\r\n";

const NOT_MODIFIED: &[u8] =
    b"HTTP/1.1 304 Not Modified\r\netag: W/\"3-1735689600000000000\"\r\ncache-control: no-cache\r\nx-content-type-options: nosniff\r\nconnection: close\r\n\r\n";

/// What a client knows, and whether that is the file.
const KNOWN: &str = r#"*|true
"3-1735689600000000000"|true
W/"3-1735689600000000000"|true
"xyzzy",\x09 W/"3-1735689600000000000"|true
W/"3-1735689600000000000","xyzzy"|true
"xyzzy"|false
|false
"*"|false
W/"3-1735689600000000001"|false"#;

fn page<'a>(tag: Option<&'a [u8]>) -> Page<'a> {
    Page {
        kind: "text/plain; charset=utf-8",
        tag,
        length: 3,
        policy: "default-src 'self'",
    }
}

fn ask(only_head: bool, known: Option<&[u8]>) -> Ask<'_> {
    Ask {
        only_head,
        target: b"/",
        known,
    }
}

/// Whether the page is answered in full if the client knows another file, and is told to be the same if it knows this one.
fn is_answered(alloc: Global, tag: &[u8], line: &str) -> Result<bool, AllocError> {
    let known = bytes_of(alloc, cell(line, 0))?;
    let is_same = cell(line, 1) == "true";
    let mut out = Vec::new(alloc);
    let follows = push_page(&mut out, &page(Some(tag)), &ask(false, Some(&known)))?;
    let wanted = if is_same { NOT_MODIFIED } else { OK };
    Ok(out.as_slice() == wanted && follows != is_same)
}

/// Whether a head alone is answered as the page is, and nothing follows it; and whether a page without a tag is never the same.
fn are_answered(alloc: Global, tag: &[u8]) -> Result<[bool; 2], AllocError> {
    let mut head = Vec::new(alloc);
    let follows = push_page(&mut head, &page(Some(tag)), &ask(true, None))?;
    let mut untagged = Vec::new(alloc);
    let is_full = push_page(&mut untagged, &page(None), &ask(false, Some(b"*")))?;
    Ok([
        !follows && head.as_slice() == OK,
        is_full && !untagged.starts_with(b"HTTP/1.1 304"),
    ])
}

/// The first line that is answered otherwise.
fn first_unlike(alloc: Global, tag: &[u8]) -> &'static str {
    for line in KNOWN.lines() {
        if is_answered(alloc, tag, line) != Ok(true) {
            return line;
        }
    }
    "none"
}

/// Whether the tag is that of the three bytes, and what is answered by it.
fn answered(alloc: Global) -> Result<(bool, &'static str, [bool; 2]), AllocError> {
    let tag = etag_of(alloc, 3, 1_735_689_600_000_000_000)?;
    let are_answered = are_answered(alloc, &tag)?;
    Ok((
        tag.as_slice() == TAG,
        first_unlike(alloc, &tag),
        are_answered,
    ))
}

#[test]
fn pages_are_answered(rt: HostRuntime) {
    assert_eq!(rt; answered(rt.alloc()), Ok((true, "none", [true, true])));
}

const REFUSED: [(Refusal, &[u8]); 2] = [
    (
        Refusal::NotFound,
        b"HTTP/1.1 404 Not Found\r\ncontent-type: text/plain; charset=utf-8\r\ncontent-length: 14\r\ncache-control: no-cache\r\nx-content-type-options: nosniff\r\nconnection: close\r\n\r\n404 Not Found\n",
    ),
    (
        Refusal::MethodNotAllowed,
        b"HTTP/1.1 405 Method Not Allowed\r\nallow: GET, HEAD\r\ncontent-type: text/plain; charset=utf-8\r\ncontent-length: 23\r\ncache-control: no-cache\r\nx-content-type-options: nosniff\r\nconnection: close\r\n\r\n405 Method Not Allowed\n",
    ),
];

/// Whether that is answered, and to a `HEAD` its head alone.
fn is_refused(alloc: Global, why: Refusal, answer: &[u8]) -> Result<[bool; 3], AllocError> {
    let mut out = Vec::new(alloc);
    push_refusal(&mut out, why, false)?;
    let mut head = Vec::new(alloc);
    push_refusal(&mut head, why, true)?;
    Ok([
        out.as_slice() == answer,
        answer.starts_with(&head),
        head.ends_with(b"\r\n\r\n"),
    ])
}

#[test]
fn refusals_are_answered(rt: HostRuntime) {
    for (why, answer) in &REFUSED {
        assert!(rt; is_refused(rt.alloc(), *why, answer) == Ok([true; 3]));
    }
}

/// Prometheus: Exposition formats, its example of escapes and its histogram, with whole numbers but for times.
const FIGURES: &str = "# HELP msdos_file_access_time_seconds A \\\\ and a\\n\"line\".
# TYPE msdos_file_access_time_seconds gauge
msdos_file_access_time_seconds{path=\"C:\\\\DIR\\\\FILE.TXT\",error=\"Cannot find file:\\n\\\"FILE.TXT\\\"\"} 1458255915
# HELP http_requests_total The total number of HTTP requests.
# TYPE http_requests_total counter
http_requests_total{method=\"post\",code=\"200\"} 1027
http_requests_total{method=\"post\",code=\"400\"} 3
# HELP lines_total 
# TYPE lines_total counter
lines_total 18446744073709551615
# HELP wait_seconds A histogram.
# TYPE wait_seconds histogram
wait_seconds_bucket{le=\"0.05\",who=\"a\"} 24054
wait_seconds_bucket{le=\"1\",who=\"a\"} 133988
wait_seconds_bucket{le=\"+Inf\",who=\"a\"} 144320
wait_seconds_sum{who=\"a\"} 53423.000070
wait_seconds_count{who=\"a\"} 144320
";

fn push_escapes(out: &mut Vec<u8>) -> Result<(), AllocError> {
    let path = Label {
        name: "path",
        value: "C:\\DIR\\FILE.TXT",
    };
    let error = Label {
        name: "error",
        value: "Cannot find file:\n\"FILE.TXT\"",
    };
    let metric = Metric {
        name: "msdos_file_access_time_seconds",
        help: "A \\ and a\n\"line\".",
    };
    push_gauge(out, &metric, &[path, error], 1_458_255_915)
}

fn push_requests(out: &mut Vec<u8>) -> Result<(), AllocError> {
    let method = Label {
        name: "method",
        value: "post",
    };
    let metric = Metric {
        name: "http_requests_total",
        help: "The total number of HTTP requests.",
    };
    let code = Label {
        name: "code",
        value: "200",
    };
    push_counter(out, &metric, &[method, code], 1027)?;
    let code = Label {
        name: "code",
        value: "400",
    };
    push_sample(out, "http_requests_total", &[method, code], 3)?;
    let metric = Metric {
        name: "lines_total",
        help: "",
    };
    push_counter(out, &metric, &[], u64::MAX)
}

fn push_waits(out: &mut Vec<u8>) -> Result<(), AllocError> {
    let who = Label {
        name: "who",
        value: "a",
    };
    let metric = Metric {
        name: "wait_seconds",
        help: "A histogram.",
    };
    let short = Bucket {
        bound: "0.05",
        count: 24_054,
    };
    let long = Bucket {
        bound: "1",
        count: 133_988,
    };
    push_histogram(
        out,
        &metric,
        &[who],
        &[short, long],
        144_320,
        53_423_000_070,
    )
}

fn figures(alloc: Global) -> Result<Vec<u8>, AllocError> {
    let mut out = Vec::new(alloc);
    push_escapes(&mut out)?;
    push_requests(&mut out)?;
    push_waits(&mut out)?;
    Ok(out)
}

#[test]
fn figures_are_text(rt: HostRuntime) -> Result<(), Fail> {
    assert_eq!(rt; figures(rt.alloc())?.as_slice(), FIGURES.as_bytes());
    Ok(())
}
