//! A host that keeps the list of its calls, and growths refused for that list.
use crate::growths::refuse_each;
use std::alloc::Global;
use test_rows::{Turn, refuse, turn_of, was_refused};
use zed_host::{Asked, CallLog, Host, Logged, Made, MemoryHost, ReadError};

/// Whether a call that is listed read a file of this name.
fn is_read(made: &Made, name: &str, failed: bool) -> bool {
    match &made.asked {
        Asked::Read(read) => read.as_str() == name && made.failed == failed,
        _ => false,
    }
}

fn is_written(made: &Made, name: &str) -> bool {
    match &made.asked {
        Asked::Write(written) => written.as_str() == name && !made.failed,
        _ => false,
    }
}

fn is_print(made: &Made) -> bool {
    match &made.asked {
        Asked::Print => !made.failed,
        _ => false,
    }
}

/// Whether it complained of five bytes.
fn is_complaint(made: &Made, failed: bool) -> bool {
    match &made.asked {
        Asked::Complain(text) => text.len() == 5 && made.failed == failed,
        _ => false,
    }
}

/// Makes five calls, of which the last one is one too many; whether they are answered so.
fn calls(host: &mut Logged<MemoryHost>) -> bool {
    host.write("a", b"one").is_ok()
        && host.read("a").is_ok()
        && matches!(host.read("b"), Err(ReadError::NoFile))
        && host.print(b"two").is_ok()
        && host.complain(b"three").is_err()
}

fn are_listed(log: &CallLog) -> bool {
    match log.calls() {
        Some([first, second, third, fourth, fifth]) => {
            is_written(first, "a")
                && is_read(second, "a", false)
                && is_read(third, "b", true)
                && is_print(fourth)
                && is_complaint(fifth, true)
        }
        _ => false,
    }
}

fn lists_its_calls(alloc: Global) -> bool {
    let mut host = Logged::new(alloc, MemoryHost::new(alloc, 4));
    calls(&mut host)
        && are_listed(host.log())
        && host.host().printed() == b"two".as_slice()
        && host.failures() == 2
}

#[test]
fn a_logged_host_lists_its_calls(rt: HostRuntime) {
    assert!(rt; lists_its_calls(rt.alloc()));
}

/// Whether a complaint is all that is listed.
fn is_complaint_listed(log: &CallLog, failed: bool) -> bool {
    match log.calls() {
        Some([made]) => is_complaint(made, failed),
        _ => false,
    }
}

/// Complains with a growth refused. The host's own is a failure of the call, and any other costs the list alone.
fn complain_once(alloc: Global, nth: usize) -> Turn {
    let mut host = Logged::new(alloc, MemoryHost::new(alloc, u64::MAX));
    refuse(alloc, nth);
    let is_done = host.complain(b"three").is_ok();
    let was_refused = was_refused(alloc);
    let log = host.log();
    let is_whole = is_done && is_complaint_listed(log, false);
    let is_lost = if is_done {
        log.calls().is_none()
    } else {
        is_complaint_listed(log, true)
    };
    turn_of(was_refused, is_whole, is_lost)
}

#[test]
fn a_list_of_calls_for_which_a_growth_is_refused_is_lost(rt: HostRuntime) {
    assert!(rt; refuse_each!(nth => complain_once(rt.alloc(), nth)));
}
