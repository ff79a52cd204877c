//! The words of the command line.
use batch_script::Status;
use std::{env, io};
use wic_vec::{TryString, TryVec};

/// The words after the program's name, or the status to end with if they can't be had: that of out of memory, or that of the usage
/// if a word isn't UTF-8.
pub fn words(rt: &HostRuntime) -> Result<TryVec<TryString>, Status> {
    let mut words = TryVec::new(rt.alloc());
    for word in env::args(rt).map_err(status_of)?.skip(1) {
        if words.push(TryString::from_string(word)).is_err() {
            return Err(Status::Oom);
        }
    }
    Ok(words)
}

/// The status if the words can't be had.
fn status_of(error: io::Error) -> Status {
    match error.kind() {
        io::ErrorKind::OutOfMemory => Status::Oom,
        _ => Status::Usage,
    }
}

#[cfg(test)]
mod tests {
    use super::status_of;
    use batch_script::Status;
    use std::io::{Error, ErrorKind};

    #[test]
    fn no_memory_for_the_words_is_told_from_a_word_that_is_no_text(rt: HostRuntime) {
        let status = |kind| status_of(Error::from(kind));
        assert_eq!(rt; status(ErrorKind::OutOfMemory), Status::Oom);
        assert_eq!(rt; status(ErrorKind::InvalidData), Status::Usage);
    }
}
