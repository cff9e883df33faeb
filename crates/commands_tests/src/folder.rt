//! A folder of a test's own.
use std::path::PathBuf;
use std::test::Fail;
use std::{env, fs, process};

/// Goes into a new folder, which [`remove`] takes away again.
pub(crate) fn enter(rt: &HostRuntime) -> Result<PathBuf, Fail> {
    let name = format!(in rt.alloc(); "vend-test-{}", process::id(rt.process()))?;
    let path = env::temp_dir(rt)?.join(rt.alloc(), name.as_str())?;
    fs::create_dir(rt, path.as_path())?;
    env::set_current_dir(rt, path.as_path())?;
    Ok(path)
}

pub(crate) fn remove(rt: &HostRuntime, path: PathBuf) -> Result<(), Fail> {
    env::set_current_dir(rt, "/")?;
    fs::remove_dir_all(rt, path.as_path())?;
    Ok(())
}
