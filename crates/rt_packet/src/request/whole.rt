//! The requests that have no part that varies.

ghost use Rattle.std.specs.Prelude.{◌≡◌, map};
ghost use Rattle.std.specs.Map.{lookup};
ghost use Rattle.std.specs.Str.{bytes_eq};
ghost use Rattle.rt_packet.specs.request.Requests.{whole_request};
ghost use Rattle.rt_packet.specs.request.Working.Rows.{request_of_whole, seen_whole};

use crate::request::request::Request;

/// A request that has no part that varies.
#[derive(Clone, Copy, PartialEq, Eq)]
pub(crate) enum Whole {
    Supported,
    LastStop,
    Actions,
    Continue,
    Step,
    BackStep,
    BackContinue,
    Current,
    FirstTasks,
    MoreTasks,
    Attached,
    Registers,
    DetachAll,
    Kill,
}

/// All of them.
static WHOLE: [(&[u8], Whole); 14] = [
    (b"qSupported", Whole::Supported),
    (b"?", Whole::LastStop),
    (b"vCont?", Whole::Actions),
    (b"c", Whole::Continue),
    (b"s", Whole::Step),
    (b"bs", Whole::BackStep),
    (b"bc", Whole::BackContinue),
    (b"qC", Whole::Current),
    (b"qfThreadInfo", Whole::FirstTasks),
    (b"qsThreadInfo", Whole::MoreTasks),
    (b"qAttached", Whole::Attached),
    (b"g", Whole::Registers),
    (b"D", Whole::DetachAll),
    (b"k", Whole::Kill),
];

/// The request of a row.
fn request_of_whole(whole: Whole) -> Request<'static>
    ensures { result ≡ request_of_whole whole }
{
    match whole {
        Whole::Supported => Request::Supported {
            has_processes: false,
        },
        Whole::LastStop => Request::LastStop,
        Whole::Actions => Request::Actions,
        Whole::Continue => Request::Continue,
        Whole::Step => Request::Step,
        Whole::BackStep => Request::BackStep,
        Whole::BackContinue => Request::BackContinue,
        Whole::Current => Request::Current,
        Whole::FirstTasks => Request::FirstTasks,
        Whole::MoreTasks => Request::MoreTasks,
        Whole::Attached => Request::Attached,
        Whole::Registers => Request::Registers,
        Whole::DetachAll => Request::DetachAll,
        Whole::Kill => Request::Kill,
    }
}

/// The request that stands beside a payload in a table.
fn found_in(table: &[(&[u8], Whole)], payload: &[u8]) -> Option<Request<'static>>
    ensures { result ≡ lookup (bytes_eq payload.now) (map seen_whole table.now) }
{
    for (text, whole) in table {
        if payload == *text {
            return Some(request_of_whole(*whole));
        }
    }
    None
}

/// The request of a payload that has no part that varies.
#[tactic(auto, unfolding(crate::specs::request::Requests::whole_requests))]
pub(crate) fn whole_request(payload: &[u8]) -> Option<Request<'static>>
    ensures { result ≡ whole_request payload.now }
{
    found_in(&WHOLE, payload)
}
