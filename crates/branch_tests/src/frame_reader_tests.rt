use crate::facts::{equal, holds};
use branch_tree::Name;
use bundle_frames::{Written, put_branch, put_header};
use bundle_reader::{Frame, FrameError, next_frame, read_payload};
use market_types::{Body, Feed, Memory, What};
use std::alloc::Global;
use std::process::Abort;

// What stands from a byte on.
fn from(bytes: &[u8], at: usize) -> &[u8] {
    bytes.get(at..).unwrap_or(&[])
}

// An agent that owes cash and shares.
const AGENT: &[u8] =
    b"\x00\x56a\x00\x01Y\x00\x00\x00\x00\x00\x00\x07\xd0\x00\x00\x00\x04\x00\x00\x00\x00\x00\x00\x00\x05\xff\xff\xff\xff\xff\xff\xff\xfe\xff\xff\xff\xff\xff\xff\xff\xff\x00\x00\x00\x00\x00\x00\x00\x00\x00\x00\x00\x00\x00\x00\x00\x07\xff\xff\xff\xff\xff\xff\xff\xf8\x00\x09\x00\x00\x00\x0a\xff\xff\xff\xff\xff\xff\xff\xfd\x00\x00\x00\x00\x00\x00\x00\x05";

// What was read of bytes.
type Read<'a> = Result<(Frame, &'a [u8]), FrameError>;

fn is_header(read: Read) -> bool {
    let told = match &read {
        Ok((Frame::Header(h), rest)) => {
            h.agents == 3 && h.stocks == 1 && h.branches == 2 && rest.len() == 16
        }
        _ => false,
    };
    drop(read);
    told
}

fn is_root(read: Read) -> bool {
    let told = match &read {
        Ok((Frame::Branch(b), rest)) => {
            b.name.as_slice() == b"root".as_slice()
                && b.stop == 100
                && b.parent == 65_535
                && rest.is_empty()
        }
        _ => false,
    };
    drop(read);
    told
}

fn is_agent(read: Read) -> bool {
    let told = match &read {
        Ok((Frame::Agent(a), rest)) => {
            a.silenced
                && a.own_position == -8
                && a.cash == -18_446_744_073_709_551_617
                && a.own_cash == 7
                && a.quotes == 10
                && a.positions.as_slice() == [-3, 5].as_slice()
                && rest.is_empty()
        }
        _ => false,
    };
    drop(read);
    told
}

fn is_message(read: Read, message: Feed) -> bool {
    let told = match &read {
        Ok((Frame::Message(m), rest)) => *m == message && rest.is_empty(),
        _ => false,
    };
    drop(read);
    told
}

fn is_event(read: Result<Option<Frame>, Memory>) -> bool {
    let told = match &read {
        Ok(Some(Frame::Event(e))) => {
            e.put_back && e.fee == -2 && e.seq == 7 && e.body == Body::Ask(2)
        }
        _ => false,
    };
    drop(read);
    told
}

// A header's frame and a root's.
fn heads(rt: &impl Abort, alloc: Global) -> Vec<u8> {
    let mut bytes = Vec::new(alloc);
    put_header(&mut bytes, 3, 1, 2).expect(rt, "memory");
    put_branch(&mut bytes, 0, 65_535, 100, b"root").expect(rt, "memory");
    bytes
}

#[test]
fn heads_are_read_back(rt: HostRuntime) {
    let alloc = rt.alloc();
    let bytes = heads(&rt, alloc);
    holds(&rt, is_header(next_frame(alloc, None, &bytes)));
    holds(&rt, is_root(next_frame(alloc, None, from(&bytes, 11))));
    let short = next_frame(alloc, None, b"\x00\x01?").err();
    equal(&rt, short, Some(FrameError::Bad));
    let cut = next_frame(alloc, None, from(&bytes, 26)).err();
    equal(&rt, cut, Some(FrameError::Cut));
}

#[test]
fn an_agent_is_read_back(rt: HostRuntime) {
    let alloc = rt.alloc();
    holds(&rt, is_agent(next_frame(alloc, Some(2), AGENT)));
    holds(&rt, is_agent(next_frame(alloc, None, AGENT)));
    let other = next_frame(alloc, Some(1), AGENT).err();
    equal(&rt, other, Some(FrameError::Bad));
}

const EVENT: &[u8] =
    b"e\x00\x00\x00\x01\x00\x00\x00\x00\x00\x00\x03\xe8\x00\x00\x00\x00\x00\x00\x00\x07\x00\x01\x00\x00P\x00\x00\x00\x00\x00\x00\x03\xe9\xff\xff\xff\xff\xff\xff\xff\xfea\x00\x02";

const START: Feed = Feed {
    locate: 0,
    tracking: 0,
    time: 1000,
    what: What::System { code: b'O' },
};

// The frame of the message that a day begins with.
fn start(rt: &impl Abort, alloc: Global) -> Vec<u8> {
    let mut bytes = Vec::new(alloc);
    START.put(&mut bytes).expect(rt, "memory");
    bytes
}

#[test]
fn bodies_and_messages(rt: HostRuntime) {
    let alloc = rt.alloc();
    holds(&rt, is_event(read_payload(alloc, None, EVENT)));
    let bytes = start(&rt, alloc);
    holds(&rt, is_message(next_frame(alloc, Some(1), &bytes), START));
    holds(&rt, !is_event(read_payload(alloc, None, b"q")));
    holds(&rt, Name::new(b"").is_none());
}
