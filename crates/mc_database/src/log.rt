// The log beside a file.
use std::alloc::AllocError;
use std::fs;
use std::rt::HostRuntime;

// The bytes of a log without a commit: its header, and no page.
const WITHOUT_COMMIT: u64 = 41;

// The log of a file, and whether it stood there before the file was opened.
#[derive(Drop)]
pub(crate) struct Log {
    name: String,
    stood: bool,
}

impl Log {
    // That of the file with this name, which isn't open yet.
    pub(crate) fn of(rt: &HostRuntime, file: &str) -> Result<Log, AllocError> {
        let name = log_name(rt, file)?;
        let stood = fs::symlink_metadata(rt, name.as_str()).is_ok();
        Ok(Log { name, stood })
    }

    // Takes the log away where it is new and holds no commit. The file must be open still: then no other
    // process writes to its log.
    pub(crate) fn take_away(&self, rt: &HostRuntime) {
        if !self.stood && is_empty(rt, self.name.as_str()) {
            let _ = fs::remove_file(rt, self.name.as_str());
        }
    }
}

// The name of the log, which lies where a link leads.
fn log_name(rt: &HostRuntime, file: &str) -> Result<String, AllocError> {
    match fs::canonicalize(rt, file) {
        Ok(real) => format!(in rt.alloc(); "{}-wal", real.as_str()),
        Err(_) => format!(in rt.alloc(); "{file}-wal"),
    }
}

fn is_empty(rt: &HostRuntime, name: &str) -> bool {
    match fs::symlink_metadata(rt, name) {
        Ok(found) => found.is_file() && found.len() <= WITHOUT_COMMIT,
        Err(_) => false,
    }
}
