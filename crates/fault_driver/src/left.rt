//! What is left behind a command.
use batch_io::MemFiles;

/// The names of files that commands make.
const MADE: [&str; 3] = ["OUT", "PAYOUT", "TRIAL"];

// Whether a name holds nothing, or a front of what it holds elsewhere.
fn holds_front_of(files: &MemFiles, whole: &MemFiles, name: &str) -> bool {
    match files.bytes(name) {
        None => true,
        Some(held) => match whole.bytes(name) {
            None => false,
            Some(all) => all.starts_with(held),
        },
    }
}

// Whether each file that is given, or that a command makes, is absent or a front of what it holds elsewhere.
fn are_fronts(files: &MemFiles, whole: &MemFiles, names: &[String]) -> bool {
    for name in names {
        if !holds_front_of(files, whole, name.as_str()) {
            return false;
        }
    }
    for name in MADE {
        if !holds_front_of(files, whole, name) {
            return false;
        }
    }
    true
}

/// Whether each file is a front of what is written where no call fails, and all of that where the status is 0.
pub fn is_right(files: &MemFiles, whole: &MemFiles, names: &[String], status: u8) -> bool {
    are_fronts(files, whole, names) && (status > 0 || are_fronts(whole, files, names))
}
