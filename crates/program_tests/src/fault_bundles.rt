//! The bundle of three branches, cut or changed, as it is read.

use crate::facts::{equal, holds};
use crate::fault_runs::{QUIET, branched_study, ran};
use bundle_reader::{BundleError, read_bundle};
use std::alloc::Global;
use std::process::Abort;
use std::sync::Wait;
use std::thread::Threads;

// Where its frames begin, as far as its first 200 bytes.
const STARTS: [usize; 8] = [0, 11, 27, 41, 82, 109, 154, 199];

// Up to which byte a change of all bits of one byte is answered so, as another program reads it.
const CHANGED: [(usize, Option<BundleError>); 65] = [
    (1, Some(BundleError::Cut(3255))),
    (5, Some(BundleError::BadFrame(0))),
    (7, Some(BundleError::BadOrder(813))),
    (9, Some(BundleError::BadOrder(82))),
    (11, Some(BundleError::BadOrder(3250))),
    (12, Some(BundleError::Cut(3244))),
    (14, Some(BundleError::BadFrame(11))),
    (16, Some(BundleError::BadOrder(11))),
    (22, None),
    (23, Some(BundleError::BadFrame(11))),
    (27, None),
    (28, Some(BundleError::Cut(3228))),
    (30, Some(BundleError::BadFrame(27))),
    (40, None),
    (41, Some(BundleError::BadFrame(27))),
    (42, Some(BundleError::Cut(3214))),
    (44, Some(BundleError::BadFrame(41))),
    (54, None),
    (64, Some(BundleError::BadFrame(41))),
    (68, None),
    (77, Some(BundleError::BadFrame(41))),
    (81, None),
    (82, Some(BundleError::BadFrame(41))),
    (83, Some(BundleError::Cut(3173))),
    (85, Some(BundleError::BadFrame(82))),
    (95, None),
    (109, Some(BundleError::BadFrame(82))),
    (110, Some(BundleError::Cut(3146))),
    (112, Some(BundleError::BadFrame(109))),
    (136, None),
    (137, Some(BundleError::BadFrame(109))),
    (153, None),
    (154, Some(BundleError::BadFrame(109))),
    (155, Some(BundleError::Cut(3101))),
    (157, Some(BundleError::BadFrame(154))),
    (181, None),
    (182, Some(BundleError::BadFrame(154))),
    (198, None),
    (199, Some(BundleError::BadFrame(154))),
    (200, Some(BundleError::Cut(3056))),
    (202, Some(BundleError::BadFrame(199))),
    (226, None),
    (227, Some(BundleError::BadFrame(199))),
    (243, None),
    (244, Some(BundleError::BadFrame(199))),
    (246, None),
    (247, Some(BundleError::Cut(3009))),
    (249, Some(BundleError::BadFrame(246))),
    (273, None),
    (274, Some(BundleError::BadFrame(246))),
    (290, None),
    (291, Some(BundleError::BadFrame(246))),
    (293, None),
    (294, Some(BundleError::Cut(2962))),
    (296, Some(BundleError::BadFrame(293))),
    (320, None),
    (321, Some(BundleError::BadFrame(293))),
    (337, None),
    (338, Some(BundleError::BadFrame(293))),
    (369, None),
    (370, Some(BundleError::Cut(2886))),
    (372, Some(BundleError::BadFrame(369))),
    (396, None),
    (397, Some(BundleError::BadFrame(369))),
    (400, None),
];

// What a run of three branches writes.
fn three_branches<R: Abort + Threads + Wait + Sync>(rt: &R, alloc: Global) -> Vec<u8> {
    let study = branched_study(rt, alloc);
    let ran = ran(rt, alloc, "run s", study.as_str(), QUIET);
    drop(study);
    let bytes = ran.out.taken().to_vec(alloc).expect(rt, "memory");
    drop(ran);
    bytes
}

// Whether so many first bytes are answered by a cut with so many bytes left.
fn is_cut(alloc: Global, bytes: &[u8], size: usize, left: usize) -> bool {
    match bytes.get(..size) {
        Some(cut) => read_bundle(alloc, cut).err() == Some(BundleError::Cut(left)),
        None => false,
    }
}

#[test]
fn each_cut_is_told(rt: HostRuntime) {
    let alloc = rt.alloc();
    let bytes = three_branches(&rt, alloc);
    let mut start = 0;
    for size in 0..201 {
        if STARTS.contains(&size) {
            start = size;
        }
        let left = size.wrapping_sub(start);
        holds(&rt, is_cut(alloc, bytes.as_slice(), size, left));
    }
    drop(bytes);
}

// Changes all bits of a byte.
fn turn(bytes: &mut [u8], at: usize) {
    if let Some(byte) = bytes.get_mut(at) {
        *byte ^= 0xff;
    }
}

// Whether bytes with all bits of one byte changed are answered so; they are then as they were.
fn is_told(alloc: Global, bytes: &mut [u8], at: usize, answer: Option<BundleError>) -> bool {
    turn(bytes, at);
    let told = read_bundle(alloc, bytes).err() == answer;
    turn(bytes, at);
    told
}

#[test]
fn each_changed_byte_is_told(rt: HostRuntime) {
    let alloc = rt.alloc();
    let mut bytes = three_branches(&rt, alloc);
    let mut start = 0;
    for (end, answer) in CHANGED.iter() {
        for at in start..*end {
            holds(&rt, is_told(alloc, bytes.as_mut_slice(), at, *answer));
        }
        start = *end;
    }
    equal(&rt, start, 400);
    drop(bytes);
}
