//! The standard module.
use std::test::Fail;
use tatp_procs::{is_standard, standard};

#[test]
fn the_standard_module_is_standard(rt: HostRuntime) -> Result<(), Fail> {
    assert!(rt; is_standard(&standard(rt.alloc())?));
    Ok(())
}
