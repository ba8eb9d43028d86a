//! The simulator, on the host that it is started on.
#![tactic(auto)]

use rt_arguments::host::Terminals;
use std::io::IsTerminal;
use std::process::ExitCode;

fn main(rt: HostRuntime) -> ExitCode {
    let terminals = Terminals {
        input: rt.stdin().is_terminal(),
        output: rt.stdout().is_terminal(),
        error: rt.stderr().is_terminal(),
    };
    rt_arguments::run(&rt, terminals)
}
