//! Requests for memory, of which one may be refused: with `rt try --test --fail-alloc N` the Nth.

use super::{PAIR, Row, WHOLE, heard_in, same, serve_on};
use rt_dialogue::DebugFault;
use rt_programs::SimFault;
use std::alloc::Global;
use std::process::Abort;
use std::test::Fail;

/// What is said to a request for which there was no memory.
const REFUSED: &[u8] = b"+$E0c#d8";

/// Points, ways on and back, and lines of the monitor: `at` and `trace 2`. Each is answered so, whichever one before it was refused,
/// and the last one tells the tick: 50.
static ROWS: [Row; 21] = [
    (
        b"$qSupported:multiprocess+#c6",
        b"+$PacketSize=1000;multiprocess+;swbreak+;hwbreak+;vContSupported+;ReverseStep+;ReverseContinue+;qXfer:features:read+#96",
    ),
    (b"$Hcp2.2#ad", b"+$OK#9a"),
    (b"$Z0,80000010,4#9f", b"+$OK#9a"),
    (b"$Z0,80000010,4#9f", b"+$OK#9a"),
    (
        b"$qRcmd,617420323030303030#ab",
        b"+$O6174203230303030300a#68$OK#9a",
    ),
    (
        b"$qRcmd,617420323030303030#ab",
        b"+$O6174203230303030300a#68$OK#9a",
    ),
    (b"$vCont;c:p2.2#e4", b"+$T00thread:p2.2;#a3"),
    (
        b"$qRcmd,617420333030303030#ac",
        b"+$O6174203330303030300a#69$OK#9a",
    ),
    (
        b"$qRcmd,617420333030303030#ac",
        b"+$O6174203330303030300a#69$OK#9a",
    ),
    (b"$c#63", b"+$T00thread:p2.2;#a3"),
    (b"$bs#d5", b"+$T05thread:p2.2;#a8"),
    (b"$bs#d5", b"+$T05thread:p2.2;#a8"),
    (b"$qRcmd,617420313030#81", b"+$O6174203130300a#3e$OK#9a"),
    (b"$qRcmd,617420313030#81", b"+$O6174203130300a#3e$OK#9a"),
    (b"$bc#c5", b"+$T00thread:p2.2;#a3"),
    (b"$qRcmd,6174203530#22", b"+$O61742035300a#df$OK#9a"),
    (b"$qRcmd,6174203530#22", b"+$O61742035300a#df$OK#9a"),
    (b"$bc#c5", b"+$T00thread:p2.2;#a3"),
    (
        b"$qRcmd,74726163652032#f9",
        b"+$O34382031203830303030303030203030303030303666206e6578740a34392031203830303030303030203030303030303666206e6578740a#3c$OK#9a",
    ),
    (
        b"$qRcmd,74726163652032#f9",
        b"+$O34382031203830303030303030203030303030303666206e6578740a34392031203830303030303030203030303030303666206e6578740a#3c$OK#9a",
    ),
    (b"$p21#d3", b"+$3200000000000000#05"),
];

/// Looks at what was said to each row: what the row has, or that there was no memory; this twice at most, since two requests in turn
/// may be refused.
fn look_at(rt: &impl Abort, said: &[u8]) {
    let mut rest = said;
    let mut refused = 0;
    for (heard, says) in &ROWS {
        rest = match (rest.strip_prefix(says), rest.strip_prefix(REFUSED)) {
            (Some(behind), _) => behind,
            (None, Some(behind)) if refused < 2 => {
                refused += 1;
                behind
            }
            _ => return same(rt, heard, rest, says),
        };
    }
    same(rt, "behind", rest, b"".as_slice());
}

#[test]
fn requests_are_refused_once(rt: HostRuntime) -> Result<(), Fail> {
    let memory = DebugFault::Sim(SimFault::Memory);
    let Ok(heard) = heard_in(rt.alloc(), &ROWS, b"") else {
        return Ok(());
    };
    let mut room = [0; 2048];
    let Ok((ended, count)) = serve_on(&rt, rt.alloc(), PAIR, &heard, WHOLE, &mut room) else {
        return Ok(());
    };
    if ended == Err(memory) {
        same(&rt, "count", count, 0);
        return Ok(());
    }
    same(&rt, "ended", ended, Ok(()));
    match room.get(..count as usize) {
        Some(said) => look_at(&rt, said),
        None => return Err(Fail::from("too much was said")),
    }
    Ok(())
}
