//! What interface files show, and what is written to them.
use cg_cpus::CpuSet;
use cg_name::Refusal;
use cg_text::{
    Controllers, read_limit, read_ops, write_controllers, write_cpus, write_events, write_flag,
    write_limit, write_ops, write_procs, write_quoted,
};
use std::alloc::AllocError;

// What a group shows of its controllers, its processes and its freezing.
fn write_state(out: &mut Vec<u8>) -> Result<(), AllocError> {
    let controllers = Controllers {
        misc: true,
        cpu: true,
        ..Controllers::empty()
    };
    write_controllers(controllers, out)?;
    write_events(true, false, out)?;
    write_procs(&[7, 4_194_303], out)?;
    write_flag(true, out)
}

// What it shows of its CPUs and its limits.
fn write_bounds(out: &mut Vec<u8>) -> Result<(), Refusal> {
    write_cpus(CpuSet::read("6,0-4")?, out)?;
    write_limit(read_limit(" 007\n")?, out)?;
    write_limit(read_limit("2147483647")?, out)?;
    Ok(())
}

// Operations, of which the last counts for each controller, and bytes between quotation marks.
fn write_words(out: &mut Vec<u8>) -> Result<(), Refusal> {
    write_ops(read_ops("+misc -cpu -io\t+cpu")?, out)?;
    write_quoted(b"\"\\\n\t\r", out)?;
    Ok(())
}

const SHOWN: &str = "cpu misc
populated 1
frozen 0
7
4194303
1
0-4,6
7
max
+cpu -io +misc\"\\\"\\\\\\n\t\r\"";

#[test]
fn files_show_their_values(rt: HostRuntime) {
    let mut out = Vec::new(rt.alloc());
    assert!(rt; write_state(&mut out).is_ok());
    assert!(rt; write_bounds(&mut out) == Ok(()));
    assert!(rt; write_words(&mut out) == Ok(()));
    assert!(rt; out.as_slice() == SHOWN.as_bytes());
}
