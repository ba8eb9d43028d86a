//! Events by their words.

use crate::tests::same;
use rt_points::Event;

#[test]
fn words_name_events(rt: HostRuntime) {
    same(&rt, "finish", Event::named(b"finish"), Some(Event::Finish));
    same(&rt, "finis", Event::named(b"finis"), None);
}
