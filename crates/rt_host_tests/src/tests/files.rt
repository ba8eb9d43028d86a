//! The files of the runs, and those that are made of them.

/// An object whose two words set x1 to -1 and then jump to themselves.
const TWO_WORDS: &[u8] = b"RTI1\0\0\0\x80\x08\0\0\0\0\0\0\0\x93\0\xf0\xffo\0\0\0";

/// The system file of `set`.
pub const ONE_TASK: &[u8] =
    b"RTS1\x0c\0\0\0\x01\0\0\0\x01\0\0\0\x03\0\0\0\0\0\0\0@\0\0\0\x18\0\0\0RTI1\0\0\0\x80\x08\0\0\0\0\0\0\0\x93\0\xf0\xffo\0\0\0";

/// An object of one word, which jumps to itself.
const LOOP: &[u8] = b"RTI1\0\0\0\x80\x04\0\0\0\0\0\0\0o\0\0\0";

/// Two tasks that jump to themselves.
const BUSY: &[u8] =
    b"RTS1\x0c\0\0\0\x02\0\0\0\x01\0\0\0\x03\0\0\0\0\0\0\0@\0\0\0\x14\0\0\0RTI1\0\0\0\x80\x04\0\0\0\0\0\0\0o\0\0\0\x02\0\0\0\x04\0\0\0\0\0\0\0@\0\0\0\x14\0\0\0RTI1\0\0\0\x80\x04\0\0\0\0\0\0\0o\0\0\0";

/// A task that sleeps until tick 8 and then jumps to itself.
const SLEEPER: &[u8] =
    b"RTS1\n\0\0\0\x01\0\0\0\x05\0\0\0\n\0\0\0\0\0\0\0@\0\0\0$\0\0\0RTI1\0\0\0\x80\x14\0\0\0\0\0\0\0\x93\x08 \0\x13\x05\x80\0\x93\x05\0\0s\0\0\0o\0\0\0";

/// Three tasks that take all of the time.
const SHARES: &[u8] =
    b"RTS1\x0c\0\0\0\x03\0\0\0\x01\0\0\0\x02\0\0\0\0\0\0\0@\0\0\0\x10\0\0\0RTI1\0\0\0\x80\0\0\0\0\0\0\0\0\x01\0\0\0\x03\0\0\0\0\0\0\0@\0\0\0\x10\0\0\0RTI1\0\0\0\x80\0\0\0\0\0\0\0\0\x01\0\0\0\x06\0\0\0\0\0\0\0@\0\0\0\x10\0\0\0RTI1\0\0\0\x80\0\0\0\0\0\0\0\0";

/// Two tasks that ask for 14 of 12 ticks.
const OVERLOAD: &[u8] =
    b"RTS1\x0c\0\0\0\x02\0\0\0\x02\0\0\0\x03\0\0\0\0\0\0\0@\0\0\0\x10\0\0\0RTI1\0\0\0\x80\0\0\0\0\0\0\0\0\x02\0\0\0\x04\0\0\0\0\0\0\0@\0\0\0\x10\0\0\0RTI1\0\0\0\x80\0\0\0\0\0\0\0\0";

/// Two tasks that ask for 13 of 12 ticks, the first of them for all 12.
const CROWDED: &[u8] =
    b"RTS1\x0c\0\0\0\x02\0\0\0\x03\0\0\0\x03\0\0\0\0\0\0\0@\0\0\0\x10\0\0\0RTI1\0\0\0\x80\0\0\0\0\0\0\0\0\x01\0\0\0\x0c\0\0\0\0\0\0\0@\0\0\0\x10\0\0\0RTI1\0\0\0\x80\0\0\0\0\0\0\0\0";

const SOURCE: &[u8] = b"_start: addi x1,x0,-1\nx: jal x0,x\n";

/// The files of each run.
pub static FILES: [(&str, &[u8]); 19] = [
    ("source", SOURCE),
    ("twice", b"x: nop\nx: nop\n"),
    ("a", TWO_WORDS),
    ("b", LOOP),
    ("set", b"hyper 12\ntask 1 3 0 64 a\n"),
    ("one", ONE_TASK),
    ("sets", b"hyper 12\ntask 2 3 0 64 a\ntask 2 4 0 64 b\n"),
    (
        "far-set",
        b"hyper 12\ntask 1 3 0 64 source\ntask 2 4 0 64 none\ntask 1 6 0 64 nowhere\n",
    ),
    ("busy", BUSY),
    ("sleeper", SLEEPER),
    ("shares", SHARES),
    ("overload", OVERLOAD),
    ("crowded", CROWDED),
    ("torn", TWO_WORDS),
    ("torn-set", b"hyper 12\ntask 1 3 0 64 torn\n"),
    ("flat", b"\x93\0\xf0\xffo\0\0\0"),
    ("names", b"80000004 t x\n80000000 T _start\n"),
    ("locked-object", TWO_WORDS),
    ("left/.rt_sim.part0", b"RTI1"),
];
