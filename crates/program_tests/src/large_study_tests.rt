use crate::facts::holds;
use std::alloc::Global;
use std::process::Abort;
use study_file::study_text;

// The study of the number 7 with 20,000 events, as another program makes it.
const SEVEN: &str = r#"version = 1
key = "0000000000000000000000000000000000000000000000000000000000000007"
open = 34200000000000
close = 36000000000000
events = 20000
stride = 1000
exchange = { group = 0, delay = 1000 }
[latency]
base = [[1000, 50000], [50000, 80000]]
jitter = [[0, 20000], [20000, 20000]]
[[stock]]
symbol = "ABM"
bands = [[0, 100]]
add = -2000
take = 3000
series = "rule"
start = 500000
mean = 500000
pull = 10000
shock = 200
every = 1000000000
[[stock]]
symbol = "XYZ"
bands = [[0, 100], [1000000, 500]]
add = -2000
take = 3000
series = "rule"
start = 1000000
mean = 1010000
pull = 5000
shock = 500
every = 1000000000
[[change]]
time = 34800000000000
stock = "XYZ"
kind = "fee"
add = -1000
take = 2000
[[agent]]
kind = "maker"
group = 0
stock = "ABM"
first = 34200000000000
every = 2000000000
wobble = 500000000
delay = 2000
size = 200
half = 200
step = 100
levels = 3
pause = 100
count = 2
spread = 250000000
[[agent]]
kind = "noise"
group = 1
stock = "ABM"
first = 34201000000000
every = 5000000000
wobble = 4000000000
delay = 20000
size = 100
count = 30
spread = 100000000
[[agent]]
kind = "value"
group = 1
stock = "ABM"
first = 34201000000000
every = 5000000000
wobble = 4000000000
delay = 20000
size = 100
noise = 500
margin = 200
count = 15
spread = 200000000
[[agent]]
kind = "momentum"
group = 1
stock = "ABM"
first = 34202000000000
every = 5000000000
wobble = 4000000000
delay = 20000
size = 100
short = 5
long = 20
count = 3
spread = 300000000
[[agent]]
kind = "maker"
group = 0
stock = "XYZ"
first = 34200000000000
every = 2000000000
wobble = 500000000
delay = 2000
size = 200
half = 200
step = 100
levels = 3
pause = 100
count = 2
spread = 250000000
[[agent]]
kind = "noise"
group = 1
stock = "XYZ"
first = 34201000000000
every = 5000000000
wobble = 4000000000
delay = 20000
size = 100
count = 30
spread = 100000000
[[agent]]
kind = "value"
group = 1
stock = "XYZ"
first = 34201000000000
every = 5000000000
wobble = 4000000000
delay = 20000
size = 100
noise = 500
margin = 200
count = 15
spread = 200000000
[[agent]]
kind = "momentum"
group = 1
stock = "XYZ"
first = 34202000000000
every = 5000000000
wobble = 4000000000
delay = 20000
size = 100
short = 5
long = 20
count = 3
spread = 300000000
[[branch]]
name = "tick5"
parent = "root"
at = 5000
edit = [{ kind = "tick", stock = "ABM", bands = [[0, 500]] }]
[[branch]]
name = "fee0"
parent = "root"
at = 5000
edit = [{ kind = "fee", stock = "ABM", add = 0, take = 0 }]
[[branch]]
name = "halt"
parent = "root"
at = 10000
edit = [{ kind = "halt", stock = "ABM" }]
[[branch]]
name = "resume"
parent = "halt"
at = 12000
edit = [{ kind = "resume", stock = "ABM" }]
[[branch]]
name = "slow"
parent = "root"
at = 10000
edit = [{ kind = "latency", from = 1, to = 0, base = 500000, jitter = 20000 }]
[[branch]]
name = "drop"
parent = "root"
at = 15000
edit = [{ kind = "series", stock = "XYZ", offset = -20000 }]
[[branch]]
name = "calm"
parent = "drop"
at = 15000
edit = [{ kind = "silence", agent = 3 }]
"#;

#[test]
fn study_of_seven(rt: HostRuntime) {
    let text = study_text(rt.alloc(), 7, 20_000).expect(&rt, "memory");
    holds(&rt, text.as_str() == SEVEN);
    drop(text);
}

const HEAD: &str = r#"version = 1
key = "000000000000000000000000000000000000000000000000000000000000270f"
open = 34200000000000
close = 36000000000000
events = 1000000
"#;

// A text from its limit of 20,000 events on behind another head; it has that limit.
fn behind_head(rt: &impl Abort, alloc: Global, text: &str) -> String {
    let (_, rest) = text.split_once("events = 20000\n").expect(rt, "a limit");
    format!(in alloc; "{HEAD}{rest}").expect(rt, "memory")
}

// The study of seven behind that head.
fn seven_behind_head(rt: &impl Abort, alloc: Global) -> String {
    let seven = study_text(alloc, 7, 20_000).expect(rt, "memory");
    let hoped = behind_head(rt, alloc, seven.as_str());
    drop(seven);
    hoped
}

// Another number and another limit change the key and the limit alone.
#[test]
fn study_of_9999(rt: HostRuntime) {
    let alloc = rt.alloc();
    let text = study_text(alloc, 9_999, 1_000_000).expect(&rt, "memory");
    let hoped = seven_behind_head(&rt, alloc);
    holds(&rt, text.as_str() == hoped.as_str());
    drop(hoped);
    drop(text);
}
