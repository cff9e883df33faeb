//! The log that a look makes beside a database file.

ghost use Rattle.std.specs.Prelude.{◌≡◌, IfSome, None, string_bytes};
ghost use Rattle.office_commands.specs.port.Found.{IsLogName, IsNameOfLog};

use std::fs;

// A log that is shorter holds no commit: its header and a frame's have 56 bytes, and a page at
// least 512.
const LEAST_COMMIT: u64 = 568;

/// The name of the log that a look at a file makes, where it makes one.
#[derive(Drop)]
pub struct LogName {
    name: Option<String>,
}

impl LogName {
    /// A look makes none.
    pub fn none() -> LogName
        ensures { result.name ≡ None }
    {
        LogName { name: None }
    }

    /// That of the log of a file on this machine, where the file is there and its log is not.
    pub(crate) fn absent(rt: &HostRuntime, path: &str) -> LogName
        ensures { IsLogName result }
    {
        LogName {
            name: absent_log(rt, path),
        }
    }

    /// Removes the log of this name, if nothing was committed in it. Whoever calls this has the
    /// database file open, so that no other program reads or writes the log.
    pub(crate) fn remove(&self, rt: &HostRuntime) {
        if let Some(name) = &self.name {
            remove_log(rt, name);
        }
    }
}

// It lies where a link leads.
fn absent_log(rt: &HostRuntime, path: &str) -> Option<String>
    ensures { IfSome result (λ name. IsNameOfLog (string_bytes name)) }
{
    let Ok(real) = fs::canonicalize(rt, path) else {
        return None;
    };
    let Ok(name) = format!(in rt.alloc(); "{}-wal", real.as_str()) else {
        return None;
    };
    match fs::exists(rt, name.as_str()) {
        Ok(false) => Some(name),
        _ => None,
    }
}

fn remove_log(rt: &HostRuntime, name: &str) {
    match fs::metadata(rt, name) {
        Ok(found) if found.len() < LEAST_COMMIT => {
            let _ = fs::remove_file(rt, name);
        }
        _ => {}
    }
}
