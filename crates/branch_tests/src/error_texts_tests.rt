//! The text of each error of the public calls. No contract says it, since a derive writes the messages.

use branch_tree::PlanError;
use market_rules::RuleError;
use market_types::{CodecError, Memory, TypeError};
use outside::{Failed, FetchError};
use reopening_desk::OrdersError;
use session_desk::ScriptError;
use std::alloc::Global;
use std::fmt::Display;
use std::process::Abort;
use study_file::StudyError;

// Ends a test where an error prints another text.
fn says(rt: &impl Abort, alloc: Global, error: impl Display + Drop, hoped: &str) {
    let told = format!(in alloc; "{error}").expect(rt, "memory");
    drop(error);
    assert_eq!(rt; told.as_str(), hoped);
    drop(told);
}

// The numbers of an error with two differ, so that the text shows which is which.
#[test]
fn errors_of_plans(rt: HostRuntime) {
    let alloc = rt.alloc();
    says(
        &rt,
        alloc,
        PlanError::ParentNotBefore(3),
        "branch 3 does not come after its parent",
    );
    says(
        &rt,
        alloc,
        PlanError::StopOutOfRange(4),
        "branch 4 leaves its parent out of range",
    );
    says(
        &rt,
        alloc,
        PlanError::TooManyBranches(257),
        "257 branches are too many",
    );
    says(
        &rt,
        alloc,
        PlanError::NameTwice(5),
        "branch 5 has the name of an earlier one",
    );
    says(
        &rt,
        alloc,
        PlanError::TooMuchWork(200, 30000),
        "200 branches of 30000 events are too many",
    );
    says(&rt, alloc, PlanError::Memory, "out of memory");
    says(
        &rt,
        alloc,
        PlanError::StopsMixed(6),
        "branch 6 does not leave its parent as an earlier branch does",
    );
}

#[test]
fn errors_of_rules(rt: HostRuntime) {
    let alloc = rt.alloc();
    says(
        &rt,
        alloc,
        RuleError::BandsNotRising(1),
        "band 1 does not start above the one before it",
    );
    says(&rt, alloc, RuleError::ZeroTick(2), "band 2 has no tick");
    says(
        &rt,
        alloc,
        RuleError::DatesNotRising(3),
        "change 3 is dated before the one before it",
    );
    says(
        &rt,
        alloc,
        RuleError::BandOffTick(4),
        "band 4 starts off its tick",
    );
    says(&rt, alloc, RuleError::Memory, "out of memory");
}

#[test]
fn errors_of_values(rt: HostRuntime) {
    let alloc = rt.alloc();
    says(
        &rt,
        alloc,
        TypeError::BadPrice,
        "a price is from 0.0001 to 199999.99 dollars",
    );
    says(
        &rt,
        alloc,
        TypeError::BadShares,
        "a size is from 1 to 999999 shares",
    );
    says(
        &rt,
        alloc,
        TypeError::BadSymbol,
        "a symbol has 1 to 8 visible ASCII bytes",
    );
    says(
        &rt,
        alloc,
        TypeError::BadToken,
        "a token has 1 to 14 ASCII letters and digits",
    );
}

#[test]
fn errors_of_messages(rt: HostRuntime) {
    let alloc = rt.alloc();
    says(
        &rt,
        alloc,
        CodecError::UnknownType(90),
        "unknown message type 90",
    );
    says(
        &rt,
        alloc,
        CodecError::WrongLength(50, 49),
        "a message of 50 bytes where 49 are needed",
    );
    says(
        &rt,
        alloc,
        CodecError::BadField(15),
        "a bad field at offset 15",
    );
    says(
        &rt,
        alloc,
        CodecError::Cut(1),
        "a frame is cut with 1 bytes left",
    );
}

#[test]
fn errors_of_files_and_memory(rt: HostRuntime) {
    let alloc = rt.alloc();
    says(
        &rt,
        alloc,
        ScriptError::NotToml,
        "the script is no TOML table",
    );
    says(&rt, alloc, ScriptError::BadAct(7), "act 7 is refused");
    says(&rt, alloc, ScriptError::Memory, "out of memory");
    says(
        &rt,
        alloc,
        StudyError::NotToml,
        "the study is no TOML table",
    );
    says(&rt, alloc, StudyError::Memory, "out of memory");
    says(&rt, alloc, OrdersError::Refused(8), "record 8 is refused");
    says(&rt, alloc, OrdersError::Memory, "out of memory");
    says(&rt, alloc, FetchError::Failed, "read failed");
    says(&rt, alloc, FetchError::Memory, "out of memory");
    says(&rt, alloc, Failed, "write failed");
    says(&rt, alloc, Memory, "out of memory");
}
