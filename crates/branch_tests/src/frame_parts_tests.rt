use crate::facts::holds;
use bundle_reader::{Head, HeaderHead, read_body, read_head};
use market_types::Body;

#[test]
fn a_header_and_an_end(rt: HostRuntime) {
    holds(
        &rt,
        matches!(
            read_head(b"h\x00\x01\x00\x02\x00\x01\x00\x03"),
            Some((Head::Header(HeaderHead { version: 1, agents: 2, stocks: 1, branches: 3 }), rest)) if rest.is_empty()
        ),
    );
    holds(
        &rt,
        matches!(read_head(b"z\x00\x01?"), Some((Head::End(1), rest)) if rest == b"?".as_slice()),
    );
    holds(&rt, read_head(b"z\x00").is_none());
    holds(&rt, read_head(b"f\x00\x01").is_none());
    holds(&rt, read_head(&[]).is_none());
}

#[test]
fn bodies(rt: HostRuntime) {
    holds(&rt, matches!(read_body(b"w"), Some(Body::Wake)));
    holds(&rt, read_body(b"ww").is_none());
    holds(&rt, matches!(read_body(b"a\x00\x07"), Some(Body::Ask(7))));
    holds(
        &rt,
        matches!(
            read_body(b"iXT0001000000001\x00\x00\x00\x09"),
            Some(Body::Order(_))
        ),
    );
    holds(&rt, read_body(b"iXT0001000000001\x00\x00\x00").is_none());
    holds(
        &rt,
        matches!(
            read_body(b"oJ\x00\x00\x00\x00\x00\x00\x00\x09T0001000000001H"),
            Some(Body::Answer(_))
        ),
    );
    holds(&rt, read_body(b"x").is_none());
    holds(&rt, read_body(&[]).is_none());
}
