use std::alloc::AllocError;
use std::env;
use std::io::ErrorKind;

/// The words of the command line, without the program's own name. Words of which one is no UTF-8 are no command, as no
/// words are none.
pub fn words(rt: &(impl std::rt::Env + AllocGlobal)) -> Result<Vec<String>, AllocError> {
    let mut words = Vec::new(rt.alloc());
    match env::args(rt) {
        Ok(arguments) => {
            for argument in arguments.skip(1) {
                words.push(argument)?;
            }
        }
        Err(error) => {
            if error.kind() != ErrorKind::InvalidData {
                return Err(AllocError);
            }
        }
    }
    Ok(words)
}
