//! `kernfs_run`: runs a script on an attribute tree that behaves like Linux kernfs.
#![tactic(auto)]

use std::process::ExitCode;

fn main(rt: HostRuntime) -> ExitCode {
    ExitCode::from(kf_run::run_host(&rt, &rt))
}
