//! The requests that have a part that varies, behind a text that doesn't.

ghost use Rattle.std.specs.Prelude.{◌≡◌, map};
ghost use Rattle.rt_packet.specs.request.Requests.{supported, resumes, selects, is_there, task_line, attached, described, monitors, register, memory, write, inserts, removes, detaches, by_prefix, prefixes};
ghost use Rattle.rt_packet.specs.request.Working.Rows.{request_behind, seen_prefix};

use crate::request::actions::actions_in;
use crate::request::hex_line::hex_line;
use crate::request::ids::tasks_of;
use crate::request::numbers::{cut_at, long_number, two_numbers};
use crate::request::points::spot_of;
use crate::request::request::{Request, Selected};
use rt_points::{BreakKind, PointKind, WatchKind};

/// What varies behind the beginning of a request.
#[derive(Clone, Copy, PartialEq, Eq)]
pub(crate) enum Prefix {
    Supported,
    Resume,
    Select(Selected),
    IsThere,
    TaskLine,
    Attached,
    Description,
    Monitor,
    Register,
    Memory,
    Write,
    Insert(PointKind),
    Remove(PointKind),
    Detach,
}

/// All beginnings.
static PREFIXES: [(&[u8], Prefix); 27] = [
    (b"qSupported:", Prefix::Supported),
    (b"vCont;", Prefix::Resume),
    (b"Hg", Prefix::Select(Selected::Shown)),
    (b"Hc", Prefix::Select(Selected::Resumed)),
    (b"T", Prefix::IsThere),
    (b"qThreadExtraInfo,", Prefix::TaskLine),
    (b"qAttached:", Prefix::Attached),
    (b"qXfer:features:read:", Prefix::Description),
    (b"qRcmd,", Prefix::Monitor),
    (b"p", Prefix::Register),
    (b"m", Prefix::Memory),
    (b"G", Prefix::Write),
    (b"P", Prefix::Write),
    (b"M", Prefix::Write),
    (b"X", Prefix::Write),
    (b"Z0", Prefix::Insert(PointKind::Break(BreakKind::Software))),
    (b"Z1", Prefix::Insert(PointKind::Break(BreakKind::Hardware))),
    (b"Z2", Prefix::Insert(PointKind::Watch(WatchKind::Write))),
    (b"Z3", Prefix::Insert(PointKind::Watch(WatchKind::Read))),
    (b"Z4", Prefix::Insert(PointKind::Watch(WatchKind::Access))),
    (b"z0", Prefix::Remove(PointKind::Break(BreakKind::Software))),
    (b"z1", Prefix::Remove(PointKind::Break(BreakKind::Hardware))),
    (b"z2", Prefix::Remove(PointKind::Watch(WatchKind::Write))),
    (b"z3", Prefix::Remove(PointKind::Watch(WatchKind::Read))),
    (b"z4", Prefix::Remove(PointKind::Watch(WatchKind::Access))),
    (b"D;", Prefix::Detach),
    (b"vKill;", Prefix::Detach),
];

/// `qSupported:`: features that semicolons separate.
fn supported(text: &[u8]) -> Request<'static>
    ensures { result ≡ supported text.now }
{
    let has_processes = text
        .split(|byte| *byte == b';')
        .any(|feature| feature == b"multiprocess+".as_slice());
    Request::Supported { has_processes }
}

/// `vCont;`: actions.
fn resumes(text: &[u8]) -> Request<'_>
    ensures { result ≡ resumes text.now }
{
    match actions_in(text) {
        Some(resumed) => Request::Resume(resumed),
        None => Request::Malformed,
    }
}

/// `Hg`, `Hc`: an id.
fn selects(of: Selected, text: &[u8]) -> Request<'static>
    ensures { result ≡ selects of text.now }
{
    match tasks_of(text) {
        Some(tasks) => Request::Select { of, tasks },
        None => Request::Malformed,
    }
}

/// `T`: an id.
fn is_there(text: &[u8]) -> Request<'static>
    ensures { result ≡ is_there text.now }
{
    match tasks_of(text) {
        Some(tasks) => Request::IsThere(tasks),
        None => Request::Malformed,
    }
}

/// `qThreadExtraInfo,`: an id.
fn task_line(text: &[u8]) -> Request<'static>
    ensures { result ≡ task_line text.now }
{
    match tasks_of(text) {
        Some(tasks) => Request::TaskLine(tasks),
        None => Request::Malformed,
    }
}

/// `qXfer:features:read:`: an annex, and from where how many bytes of it.
fn described(text: &[u8]) -> Request<'static>
    ensures { result ≡ described text.now }
{
    let Some((annex, numbers)) = cut_at(b':', text) else {
        return Request::Malformed;
    };
    if annex != b"target.xml".as_slice() {
        return Request::OtherAnnex;
    }
    match two_numbers(numbers) {
        Some((offset, count)) => Request::Description { offset, count },
        None => Request::Malformed,
    }
}

/// `qRcmd,`: a line in hexadecimal digits.
fn monitors(text: &[u8]) -> Request<'_>
    ensures { result ≡ monitors text.now }
{
    match hex_line(text) {
        Some(line) => Request::Monitor(line),
        None => Request::Malformed,
    }
}

/// `p`: a number.
fn register(text: &[u8]) -> Request<'static>
    ensures { result ≡ register text.now }
{
    match long_number(text) {
        Some(number) => Request::Register(number),
        None => Request::Malformed,
    }
}

/// `m`: from which address how many bytes, at least one.
fn memory(text: &[u8]) -> Request<'static>
    ensures { result ≡ memory text.now }
{
    match two_numbers(text) {
        Some((address, count)) if count >= 1 => Request::Memory { address, count },
        _ => Request::Malformed,
    }
}

/// `Z0` to `Z4`: the rest of a point.
fn inserts(kind: PointKind, text: &[u8]) -> Request<'static>
    ensures { result ≡ inserts kind text.now }
{
    match spot_of(kind, text) {
        Some(spot) => Request::Insert(spot),
        None => Request::Malformed,
    }
}

/// `z0` to `z4`: the rest of a point.
fn removes(kind: PointKind, text: &[u8]) -> Request<'static>
    ensures { result ≡ removes kind text.now }
{
    match spot_of(kind, text) {
        Some(spot) => Request::Remove(spot),
        None => Request::Malformed,
    }
}

/// `D;`, `vKill;`: a number.
fn detaches(text: &[u8]) -> Request<'static>
    ensures { result ≡ detaches text.now }
{
    match long_number(text) {
        Some(process) => Request::Detach(process),
        None => Request::Malformed,
    }
}

/// The request of what stands behind a beginning.
fn request_behind(prefix: Prefix, text: &[u8]) -> Request<'_>
    ensures { result ≡ request_behind prefix text.now }
{
    match prefix {
        Prefix::Supported => supported(text),
        Prefix::Resume => resumes(text),
        Prefix::Select(of) => selects(of, text),
        Prefix::IsThere => is_there(text),
        Prefix::TaskLine => task_line(text),
        Prefix::Attached => Request::Attached,
        Prefix::Description => described(text),
        Prefix::Monitor => monitors(text),
        Prefix::Register => register(text),
        Prefix::Memory => memory(text),
        Prefix::Write => Request::Write,
        Prefix::Insert(kind) => inserts(kind, text),
        Prefix::Remove(kind) => removes(kind, text),
        Prefix::Detach => detaches(text),
    }
}

/// The request of the first beginning in a table that a payload has.
fn found_in<'a>(table: &[(&[u8], Prefix)], payload: &'a [u8]) -> Request<'a>
    ensures { result ≡ by_prefix (map seen_prefix table.now) payload.now }
{
    for (text, prefix) in table {
        if let Some(rest) = payload.strip_prefix(*text) {
            return request_behind(*prefix, rest);
        }
    }
    Request::Unknown
}

/// The request of the beginning that a payload has, and `Unknown` where it has none.
#[tactic(auto, unfolding(crate::specs::request::Requests::prefixes))]
pub(crate) fn request_by_prefix(payload: &[u8]) -> Request<'_>
    ensures { result ≡ by_prefix prefixes payload.now }
{
    found_in(&PREFIXES, payload)
}
