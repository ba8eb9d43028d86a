//! Requests for memory, of which one may be refused: with `rt try --test --fail-alloc N` the Nth.

use super::BEAT;
use rt_programs::{
    Admission, NoBeat, ProfileForm, Scale, ScaleCount, SimFault, TimeUnit, profile, trace, vcd,
};
use rt_sink::Limited;
use std::process::Abort;
use std::test::Fail;

/// Where memory is refused, nothing is written, and it can be asked again.
#[test]
fn profiles_are_made_again(rt: HostRuntime) -> Result<(), Fail> {
    let Ok(mut sink) = Limited::new(rt.alloc(), 4096, 65_536) else {
        return Ok(());
    };
    match profile(
        rt.alloc(),
        BEAT,
        Admission::Required,
        37,
        ProfileForm::Rows,
        &mut sink,
        &NoBeat,
    ) {
        Ok(length) => assert!(rt; length == 222),
        Err(fault) => {
            assert!(rt; fault == SimFault::Memory);
            assert!(rt; sink.bytes().is_empty());
            profile(
                rt.alloc(),
                BEAT,
                Admission::Required,
                37,
                ProfileForm::Rows,
                &mut sink,
                &NoBeat,
            )?;
        }
    }
    Ok(())
}

const NANOSECOND: Scale = Scale {
    count: ScaleCount::One,
    unit: TimeUnit::Nanoseconds,
};

/// What its tick 2 did.
const TICK: &[u8] = b"2\t0\t80000008\tagain+0x4\tecall\tsleep 10\n";

#[test]
fn dumps_are_made_again(rt: HostRuntime) -> Result<(), Fail> {
    let Ok(mut sink) = Limited::new(rt.alloc(), 4096, 65_536) else {
        return Ok(());
    };
    if let Err(fault) = vcd(
        rt.alloc(),
        BEAT,
        Admission::Required,
        0,
        37,
        NANOSECOND,
        &mut sink,
        &NoBeat,
    ) {
        assert!(rt; fault == SimFault::Memory);
        assert!(rt; sink.bytes().is_empty());
        vcd(
            rt.alloc(),
            BEAT,
            Admission::Required,
            0,
            37,
            NANOSECOND,
            &mut sink,
            &NoBeat,
        )?;
    }
    assert!(rt; sink.bytes().ends_with(b"\n#37\n"));
    Ok(())
}

#[test]
fn traces_are_made_again(rt: HostRuntime) -> Result<(), Fail> {
    let Ok(mut sink) = Limited::new(rt.alloc(), 4096, 65_536) else {
        return Ok(());
    };
    if let Err(fault) = trace(
        rt.alloc(),
        BEAT,
        Admission::Required,
        2,
        1,
        None,
        &mut sink,
        &NoBeat,
    ) {
        assert!(rt; fault == SimFault::Memory);
        assert!(rt; sink.bytes().is_empty());
        trace(
            rt.alloc(),
            BEAT,
            Admission::Required,
            2,
            1,
            None,
            &mut sink,
            &NoBeat,
        )?;
    }
    assert!(rt; sink.bytes() == TICK);
    Ok(())
}
