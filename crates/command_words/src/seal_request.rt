use lm_ots::OtsType;
use lms_tree::LmsType;

/// What the words of a command line ask for about seals. A directory is the word that names it; a key and a signature
/// are the bytes that their words write in hexadecimal.
#[derive(Drop)]
pub enum SealRequest<'a> {
    /// `hsskey`: makes a key of two levels, each of this height and width.
    Hsskey {
        directory: &'a str,
        height: LmsType,
        width: OtsType,
    },
    /// `seal`: signs what is read by the key in a directory.
    Seal {
        directory: &'a str,
    },
    /// `unseal`: whether this signature is one of what is read, by this key.
    Unseal {
        key: [u8; 60],
        signature: Vec<u8>,
    },
}
