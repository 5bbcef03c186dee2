//! Why an image was not opened.

use container_header::HeaderFault;
use difi::DifiFault;
use thiserror::Error;

/// The first thing that keeps an image from being opened.
#[derive(Clone, Copy, Debug, PartialEq, Eq, Error)]
pub enum OpenFault {
    /// Memory was wanting.
    #[error("out of memory")]
    Memory,
    /// The disk failed.
    #[error("the disk failed")]
    Disk,
    /// A condition of the header fails.
    #[error("no sound header")]
    Header(HeaderFault),
    /// The signer demands another tag than bytes 0 to 15.
    #[error("another tag than the signer's")]
    Tag { want: [u8; 16], found: [u8; 16] },
    /// The active table has another digest than the header says.
    #[error("another digest than the header's")]
    TableHash,
    /// A condition of a part's descriptor fails.
    #[error("no sound descriptor of part {part}")]
    Difi { part: u8, fault: DifiFault },
}
