// What is told on standard error, and the status after it.
use forms::Fault;
use request::status::Status;
use std::env::FillError;
use std::io::{Error, Result};

// The status after something was told, or after nobody read it.
pub fn complained(told: Result<()>, ends: Status) -> Status {
    match told {
        Err(e) if page::is_closed(&e) => Status::Closed,
        Ok(()) | Err(_) => ends,
    }
}

// An error of the system, told with what it happened to.
pub fn failed(rt: HostRuntime, what: &[u8], e: &Error) -> Status {
    complained(page::fail(rt.stderr(), what, e), Status::Error)
}

// A fault of a file.
pub fn faulted(rt: HostRuntime, path: &[u8], fault: Fault) -> Status {
    complained(forms::complain(rt.stderr(), path, fault), Status::Error)
}

// A failed write, which is told; not where nobody reads any more.
fn unwritten(rt: HostRuntime, e: &Error) -> Status {
    if page::is_closed(e) {
        return Status::Closed;
    }
    let what = b"hiranthok: standard output cannot be written";
    complained(page::fail(rt.stderr(), what, e), Status::Broken)
}

// The status after standard output was written, or was not.
pub fn written(rt: HostRuntime, wrote: Result<()>, ends: Status) -> Status {
    match wrote {
        Ok(()) => ends,
        Err(e) => unwritten(rt, &e),
    }
}

// The system's errors (ENAMETOOLONG, EINVAL) for an argument that is too long, or is not there.
const TOO_LONG: i32 = 36;

const INVALID: i32 = 22;

// An argument that was to be a file's name.
pub fn failed_name(rt: HostRuntime, e: FillError) -> Status {
    let code = match e {
        FillError::TooLong => TOO_LONG,
        FillError::NotPresent => INVALID,
    };
    failed(
        rt,
        b"hiranthok: a file name",
        &Error::from_raw_os_error(code),
    )
}
