use crate::facts::holds;
use std::alloc::Global;
use std::process::Abort;
use study_file::{
    Kind, broken_key, has_form, integer_at, needed, own, read_tables, series_name, spare,
};

// Whether a table's bytes say this version and this series.
fn says(
    rt: &impl Abort,
    alloc: Global,
    bytes: &[u8],
    version: Option<i64>,
    series: Option<&str>,
) -> bool {
    let raw = read_tables(alloc, bytes).expect(rt, "tables");
    let is_so = (integer_at(&raw.table, "version") == version) & (series_name(&raw) == series);
    drop(raw);
    is_so
}

#[test]
fn bytes_say_a_table(rt: HostRuntime) {
    let alloc = rt.alloc();
    let bytes = b"version = 1\nseries = \"s.csv\"\n";
    holds(&rt, says(&rt, alloc, bytes, Some(1), Some("s.csv")));
    holds(&rt, says(&rt, alloc, b"series = 1\n", None, None));
}

// A table, the word of its kind, and the first place at which its keys aren't those of the kind.
const CASES: [(&[u8], &str, Option<u32>); 5] = [
    (b"kind = \"circle\"\n", "circle", None),
    (
        b"kind = \"polygon\"\ncorners = [[0, 1]]\nweight = 2\n",
        "polygon",
        None,
    ),
    (b"weight = 2\n", "circle", Some(1)),
    (b"kind = \"polygon\"\ncorners = [[0]]\n", "polygon", Some(3)),
    (
        b"kind = \"circle\"\ncorners = [[0, 1]]\n",
        "circle",
        Some(99),
    ),
];

// Whether a table's keys are those of a kind, but for this place.
fn is_so(alloc: Global, bytes: &[u8], word: &str, place: Option<u32>) -> bool {
    let Ok(raw) = read_tables(alloc, bytes) else {
        return false;
    };
    let keys = [
        needed("kind", Kind::Text),
        spare("weight", Kind::Number),
        own("corners", Kind::Pairs, &["polygon"]),
    ];
    let has_form = has_form(&raw.table, "kind", &["circle", "polygon"], &keys);
    let is_so = (broken_key(&raw.table, word, &keys) == place) & (has_form == place.is_none());
    drop(raw);
    is_so
}

#[test]
fn tables_have_their_keys_or_not(rt: HostRuntime) {
    for (bytes, word, place) in CASES.iter() {
        holds(&rt, is_so(rt.alloc(), bytes, word, *place));
    }
}
