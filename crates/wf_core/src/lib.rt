//! What every other crate stands on: names, paths, error words, the limits, the statuses of a run, and the
//! traits by which a run reads, writes and waits for its gate.
#![tactic(auto)]

pub use command::{Command, Due, finish, run_command};
pub use errno::Errno;
pub use gate::{Gate, OpenGate};
pub use ids::{BackendId, DescriptionId, DirId, FileId, LinkId};
pub use limits::{
    BACKENDS_MAX, CALL_STEPS_MAX, CALLS_MAX, FILE_MAX, GROUP_COUNT, GROUP_MAX, INPUT_MAX, LINE_MAX,
    LIST_MAX, NAME_MAX, OFFSET_MAX, OPEN_MAX, PAGE_SIZE, PATH_MAX, PATH_NAMES_MAX, READ_MAX,
    SYMLINK_MAX, SYMLOOP_MAX, THREADS_MAX,
};
pub use name::{Name, NameRefusal};
pub use path_text::{PathRefusal, PathText};
pub use run_status::RunStatus;
pub use sink::{MemSink, Sink, StdSink, write_text};
pub use source::{Failed, InputFault, MemSource, Source, StdSource, read_input};
pub use text::Text;

mod command;
mod errno;
mod gate;
mod ids;
mod limits;
mod name;
mod path_text;
mod run_status;
mod sink;
mod source;
mod text;
