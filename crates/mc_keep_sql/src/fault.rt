// A file that is refused, or on which a call failed.
use mc_base::Text;
use mc_database::FileCause;
use std::alloc::AllocError;
use thiserror::Error;

/// A file, and why it is not opened or a call on it failed. Its text is for whoever runs the program.
#[derive(Debug, Drop, Error)]
#[error("{}: {cause}", .file.as_str())]
pub struct FileFault {
    /// The name of the file.
    pub file: Text,
    /// Why it is not opened, or why a call on it failed first.
    pub cause: FileCause,
}

/// Why a file is not opened as a keeper.
#[derive(Debug, Drop, Error)]
pub enum OpenFault {
    /// The file is refused.
    #[error("{fault}")]
    Refused {
        /// The file, and why.
        fault: FileFault,
    },
    /// Want of memory.
    #[error("out of memory")]
    Memory,
}

impl OpenFault {
    // The same of a file with this name.
    pub(crate) fn of(file: Text, cause: FileCause) -> OpenFault {
        match cause {
            FileCause::Memory => OpenFault::Memory,
            _ => OpenFault::Refused {
                fault: FileFault { file, cause },
            },
        }
    }
}

impl From<AllocError> for OpenFault {
    fn from(_error: AllocError) -> OpenFault {
        OpenFault::Memory
    }
}
